// What a column does under its turn beside entering and settling nodes.
ghost use Rattle.std.specs.Prelude.{◌≡◌, ◌≢◌, ◌<◌, ◌≤◌, nat_lt, true, false, min, length, IfOk, OnOk, OnErr};
ghost use Rattle.col_core.specs.declared.Event.TheVariants.{Raise, Give, Trim};
ghost use Rattle.col_core.specs.History.{clock, line};
ghost use Rattle.column.specs.Columns.{base_of};
ghost use Rattle.stamp_board.specs.Seats.{column_seen};
ghost use Rattle.chain_store.specs.Columns.{Gains, Stays, told_event, tag_of};

use crate::seated::Seated;
use log_node::{Counts, MAX_STAMP};
use std::alloc::AllocError;

impl Seated {
    /// Raises the clock, and says whether that was an event.
    pub(crate) fn raise(&mut self, by: u8, to: u64) -> Result<bool, AllocError>
        requires maker { by < (column_seen self.old.seat).size.clients }
        requires to { to ≤ MAX_STAMP }
        ensures tag { tag_of self.new ≡ tag_of self.old }
        ensures event { IfOk result (λ event. event ≡ nat_lt (clock self.old.column.journal) to) }
        ensures raised { IfOk result (λ event. event ≡ true → Gains self.old self.new (told_event by (Raise to))) }
        ensures look { IfOk result (λ event. event ≡ false → Stays self.old self.new) }
        ensures err { OnErr result (Stays self.old self.new) }
    {
        let below = self.column.clock() < to;
        match self.column.raise(by, to) {
            Ok(_) => {
                let _few = self.column.journal().len();
                Ok(below)
            }
            Err(fault) => Err(fault),
        }
    }

    /// Notes that another region has asked past a number, and answers the line's length.
    pub(crate) fn give(&mut self, by: u8, region: u8, from: u64) -> Result<u64, AllocError>
        requires maker { by < (column_seen self.old.seat).size.clients }
        requires other { region ≢ self.old.column.region }
        requires region { region < self.old.column.regions }
        ensures tag { tag_of self.new ≡ tag_of self.old }
        ensures lined { IfOk result (λ lined. lined ≡ length (line self.old.column.journal)) }
        ensures ok { let start = min from (length (line self.old.column.journal)) in
            OnOk result (Gains self.old self.new (told_event by (Give region start))) }
        ensures err { OnErr result (Stays self.old self.new) }
    {
        let lined = self.column.line().len() as u64;
        match self.column.note(by, region, from) {
            Ok(_) => {
                let _few = self.column.journal().len();
                Ok(lined)
            }
            Err(fault) => Err(fault),
        }
    }

    /// Drops nodes below these counts, and answers the base.
    pub(crate) fn trim(&mut self, by: u8, counts: Counts) -> Result<Counts, AllocError>
        requires maker { by < (column_seen self.old.seat).size.clients }
        ensures tag { tag_of self.new ≡ tag_of self.old }
        ensures base { IfOk result (λ base. base ≡ base_of self.new.column) }
        ensures ok { OnOk result (Gains self.old self.new (told_event by (Trim counts))) }
        ensures err { OnErr result (Stays self.old self.new) }
    {
        match self.column.trim(by, counts) {
            Ok((_, base)) => {
                let _few = self.column.journal().len();
                Ok(base)
            }
            Err(fault) => Err(fault),
        }
    }
}
