// At which place each row stands among all, by its region and its id.
ghost use Rattle.std.specs.Prelude.{◌≡◌, ℕ, IfOk, None, OnOk, Some, if◌then◌else◌};
ghost use Rattle.std.specs.Option.{option_copied};
ghost use Rattle.log_node.specs.declared.ids.Id.{Id as NodeId};
ghost use Rattle.walk_law.specs.PlaceTables.{same_row};
ghost use Rattle.walk_law.specs.RowPlaces.{AreRowPlaces, place_in, row_at};

use log_node::Id;
use report_text::RowReport;
use std::alloc::{AllocError, Global};
use std::collections::BTreeMap;

/// A row by its region and its id.
#[derive(Clone, Copy, Debug, PartialEq, Eq, PartialOrd, Ord)]
pub(crate) struct RowId {
    region: u8,
    id: Id,
}

/// At which place each row stands among all, by its region and its id.
#[derive(Drop)]
pub struct RowPlaces {
    by_row: BTreeMap<RowId, usize>,
}

impl RowPlaces {
    // None yet.
    fn new(alloc: Global) -> RowPlaces
        ensures { (region : ℕ) (id : NodeId) → place_in result region id ≡ None }
    {
        RowPlaces {
            by_row: BTreeMap::new(alloc),
        }
    }

    // The place of a row, in place of that of one with its id.
    fn put(&mut self, region: u8, id: Id, place: usize) -> Result<(), AllocError>
        ensures { (r : ℕ) (other : NodeId) → OnOk result (place_in self.new r other
            ≡ (if same_row r other region id then Some place else place_in self.old r other)) }
    {
        self.by_row.insert(RowId { region, id }, place)?;
        Ok(())
    }

    // The place of the first row of a region with this id, if there is one.
    fn place(&self, region: u8, id: Id) -> Option<usize>
        ensures { result ≡ place_in self.now region id }
    {
        self.by_row.get(&RowId { region, id }).copied()
    }

    /// The first row of a region with this id, if there is one, of the rows whose places these are.
    pub(crate) fn row<'r>(&self, rows: &'r [RowReport], region: u8, id: Id) -> Option<&'r RowReport>
        ensures { option_copied result ≡ row_at rows.now (place_in self.now region id) }
    {
        match self.place(region, id) {
            Some(place) => rows.get(place),
            None => None,
        }
    }

    /// The places of all rows.
    pub(crate) fn of_rows(alloc: Global, rows: &[RowReport]) -> Result<RowPlaces, AllocError>
        ensures { IfOk result (AreRowPlaces rows.now) }
    {
        let mut places = RowPlaces::new(alloc);
        for at in (0..rows.len()).rev() {
            let row = &rows[at];
            places.put(row.region, row.id, at)?;
        }
        Ok(places)
    }
}
