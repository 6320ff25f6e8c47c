// Nodes pass between the columns of a colour, and are trimmed.
ghost use Rattle.std.specs.Prelude.{◌≡◌, ◌+◌, ◌<◌, ◌&&◌, nat_le, nat_lt, true, false, length, IfOk, OnOk, OnErr};
ghost use Rattle.world_laws.specs.Worlds.{after, reply, are_two_columns, held_of, is_column};
ghost use Rattle.world_laws.specs.Worlds.{may_give, may_carry};
ghost use Rattle.column.specs.Columns.{AreItems};
ghost use Rattle.world_code.specs.WorldView.{world_of, column_at};
ghost use Rattle.world_code.specs.Replies.{place_reply};

use crate::replies::event_at;
use crate::world::World;
use column::Given;
use log_node::Counts;
use std::alloc::{AllocError, Global};
use world_laws::Step;

impl World {
    /// The origin's column notes that the region's column holds all nodes of its line below a number, where it does.
    pub fn give(
        &mut self,
        by: u8,
        origin: u8,
        region: u8,
        colour: u8,
        from: u64,
    ) -> Result<Option<u64>, AllocError>
        ensures ok { OnOk result
            (world_of self.new ≡ after (world_of self.old) (Step.Give by origin region colour from)) }
        ensures reply { IfOk result (λ place.
            place_reply place ≡ reply (world_of self.old) (Step.Give by origin region colour from)) }
        ensures err { OnErr result (self.new ≡ self.old) }
    {
        if !self.may_give(origin, region, colour, from) {
            return Ok(None);
        }
        let place = self.add_give(by, origin, region, colour, from)?;
        Ok(Some(place))
    }

    // Whether these are two columns of a colour, of different regions.
    fn are_two(&self, origin: u8, region: u8, colour: u8) -> bool
        ensures { result ≡ are_two_columns (world_of self.now) origin region colour }
    {
        let regions = self.shape.regions;
        origin < regions && region < regions && colour < self.shape.colours && origin != region
    }

    // How many nodes of the origin's chain the region's column holds.
    fn held_of(&self, origin: u8, region: u8, colour: u8) -> u64
        requires { are_two_columns (world_of self.now) origin region colour ≡ true }
        ensures { result ≡ held_of (world_of self.now) origin region colour }
    {
        let _whole = &self.shape;
        self.column(region, colour).held().0[origin as usize]
    }

    // Whether the region's column holds all nodes of the origin's chain below a number.
    fn may_give(&self, origin: u8, region: u8, colour: u8, from: u64) -> bool
        ensures { result ≡ may_give (world_of self.now) origin region colour from }
    {
        if !self.are_two(origin, region, colour) {
            return false;
        }
        from <= self.held_of(origin, region, colour)
    }

    // Adds the give, which may be done.
    fn add_give(
        &mut self,
        by: u8,
        origin: u8,
        region: u8,
        colour: u8,
        from: u64,
    ) -> Result<u64, AllocError>
        requires { may_give (world_of self.old) origin region colour from ≡ true }
        ensures ok { OnOk result
            (world_of self.new ≡ after (world_of self.old) (Step.Give by origin region colour from)) }
        ensures place { IfOk result (λ place. place ≡ length ((world_of self.old).histories origin colour)) }
        ensures err { OnErr result (self.new ≡ self.old) }
    {
        let place = self.regions[origin as usize].note(by, colour, region, from)?;
        Ok(place)
    }

    /// The region's column carries what it lacks of this many nodes of the origin's line, from a position on, where
    /// these are there and leave no gap.
    pub fn carry(
        &mut self,
        alloc: Global,
        by: u8,
        origin: u8,
        region: u8,
        colour: u8,
        start: u64,
        count: u64,
    ) -> Result<Option<u64>, AllocError>
        ensures ok { OnOk result
            (world_of self.new ≡ after (world_of self.old) (Step.Carry by origin region colour start count)) }
        ensures reply { IfOk result (λ place.
            place_reply place ≡ reply (world_of self.old) (Step.Carry by origin region colour start count)) }
        ensures err { OnErr result (self.new ≡ self.old) }
    {
        if !self.may_carry(origin, region, colour, start, count) {
            return Ok(None);
        }
        let _whole = &self.shape;
        let items = self.column(origin, colour).stretch(alloc, start, count)?;
        let given = Given { start, items };
        self.add_carry(alloc, by, origin, region, colour, count, &given)
    }

    // Whether the stretch may be carried.
    fn may_carry(&self, origin: u8, region: u8, colour: u8, start: u64, count: u64) -> bool
        ensures { result ≡ may_carry (world_of self.now) origin region colour start count }
    {
        if !self.are_two(origin, region, colour) {
            return false;
        }
        let _whole = &self.shape;
        let column = self.column(origin, colour);
        let end = column.line().len() as u64;
        let base = column.base().0[origin as usize];
        if start < base {
            return false;
        }
        if end < start {
            return false;
        }
        if end - start < count {
            return false;
        }
        self.lacks(origin, region, colour, start, count)
    }

    // Whether the stretch, which is there, leaves no gap and has what the region's column lacks.
    fn lacks(&self, origin: u8, region: u8, colour: u8, start: u64, count: u64) -> bool
        requires { are_two_columns (world_of self.now) origin region colour ≡ true }
        ensures { let held = held_of (world_of self.now) origin region colour in
            result ≡ (nat_le start held && nat_lt held (start + count)) }
    {
        let held = self.held_of(origin, region, colour);
        start <= held && held - start < count
    }

    // The region's column carries what is new of the stretch.
    fn add_carry(
        &mut self,
        alloc: Global,
        by: u8,
        origin: u8,
        region: u8,
        colour: u8,
        count: u64,
        given: &Given,
    ) -> Result<Option<u64>, AllocError>
        requires may { may_carry (world_of self.old) origin region colour given.now.start count ≡ true }
        requires given { AreItems (column_at self.old.columns origin colour) origin given.now.start
            (given.now.start + count) given.now.items }
        ensures ok { OnOk result
            (world_of self.new ≡ after (world_of self.old) (Step.Carry by origin region colour given.now.start count)) }
        ensures reply { IfOk result (λ place.
            place_reply place ≡ reply (world_of self.old) (Step.Carry by origin region colour given.now.start count)) }
        ensures err { OnErr result (self.new ≡ self.old) }
    {
        let _count = count;
        let at = self.regions[region as usize].carry(alloc, by, colour, origin, given)?;
        Ok(event_at(at))
    }

    /// A column is trimmed up to these counts, as far as that may be.
    pub fn trim(
        &mut self,
        by: u8,
        region: u8,
        colour: u8,
        counts: Counts,
    ) -> Result<Option<u64>, AllocError>
        ensures ok { OnOk result (world_of self.new ≡ after (world_of self.old) (Step.Trim by region colour counts)) }
        ensures reply { IfOk result (λ place.
            place_reply place ≡ reply (world_of self.old) (Step.Trim by region colour counts)) }
        ensures err { OnErr result (self.new ≡ self.old) }
    {
        if region >= self.shape.regions || colour >= self.shape.colours {
            return Ok(None);
        }
        let place = self.add_trim(by, region, colour, counts)?;
        Ok(Some(place))
    }

    // Adds the trim to the column, which is there.
    fn add_trim(
        &mut self,
        by: u8,
        region: u8,
        colour: u8,
        counts: Counts,
    ) -> Result<u64, AllocError>
        requires { is_column (world_of self.old) region colour ≡ true }
        ensures ok { OnOk result (world_of self.new ≡ after (world_of self.old) (Step.Trim by region colour counts)) }
        ensures place { IfOk result (λ place. place ≡ length ((world_of self.old).histories region colour)) }
        ensures err { OnErr result (self.new ≡ self.old) }
    {
        let place = self.regions[region as usize].trim(by, colour, counts)?;
        Ok(place)
    }
}
