// The writer of a column's copies, under turns of its own.
ghost use Rattle.chain_store.specs.Copies.{IsAside};

use crate::read_view::name::ColumnName;
use crate::read_view::shelf::Shelf;
use crate::seated::Seated;
use log_node::Counts;
use turn_cell::{HasHistory, Pass};

/// The copies of a column, if there are any: a pass with no number that looks at the column for them, the cut that they show with all that
/// waits to be published, and their writer.
#[derive(Drop)]
pub struct Copies {
    pub(crate) pass: Pass<Seated>,
    pub(crate) cut: Counts,
    pub(crate) shelf: Option<Shelf>,
    ghost aside: { IsAside pass },
}

impl HasHistory for Copies {
    type Entry = ();

    type Tag = ColumnName;

    ghost use Rattle.std.specs.Prelude.{None};
    ghost use Rattle.chain_store.specs.Desks.{StandsCopied, column_copied};

    ghost stands = { StandsCopied };

    ghost by = { λ _. 0 };

    ghost newest = { λ _. None };

    ghost tag = { column_copied };

    fn count(&self) -> u64 {
        0
    }
}
