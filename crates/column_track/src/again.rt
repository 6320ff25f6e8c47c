// One event more of a journal, where it may come.
ghost use Rattle.std.specs.Prelude.{◌≡◌, IfOk, false, Some};
ghost use Rattle.log_node.specs.Standings.{Standing, open_entry};
ghost use Rattle.col_core.specs.declared.Event.TheVariants as events;
ghost use Rattle.col_core.specs.History.{entries, has_entered};
ghost use Rattle.column_track.specs.Doing.{Goes, may_settle};

use crate::nodes::{items_with, node_of};
use column::{Column, ColumnFault, Given};
use log_node::{At, Counts, Head, Id, MAX_STAMP, Outcome};
use std::alloc::{AllocError, Global};

/// An id enters as final, as an event of a journal says.
pub(crate) fn single_again(
    alloc: Global,
    column: &mut Column,
    by: u8,
    id: Id,
    floor: u64,
    wants: Counts,
    stamp: u64,
) -> Result<bool, AllocError>
    requires colour { column.old.colour ≡ 0 }
    requires fresh { has_entered id column.old.journal ≡ false }
    ensures { IfOk result (Goes column.old column.new by (events.Single id floor wants) stamp) }
{
    if floor > MAX_STAMP {
        return Ok(false);
    }
    let node = node_of(alloc, column.region(), id, floor, wants)?;
    match column.single(by, node) {
        Ok((_, given)) => Ok(given == stamp),
        Err(ColumnFault::StampEnd { .. }) => Ok(false),
        Err(ColumnFault::NoMemory) => Err(AllocError),
    }
}

/// An id enters as open, as an event of a journal says.
pub(crate) fn propose_again(
    alloc: Global,
    column: &mut Column,
    by: u8,
    id: Id,
    floor: u64,
    wants: Counts,
    stamp: u64,
) -> Result<bool, AllocError>
    requires colour { column.old.colour ≡ 0 }
    requires fresh { has_entered id column.old.journal ≡ false }
    ensures { IfOk result (Goes column.old column.new by (events.Propose id floor wants) stamp) }
{
    if floor > MAX_STAMP {
        return Ok(false);
    }
    let node = node_of(alloc, column.region(), id, floor, wants)?;
    match column.propose(by, node) {
        Ok((_, given)) => Ok(given == stamp),
        Err(ColumnFault::StampEnd { .. }) => Ok(false),
        Err(ColumnFault::NoMemory) => Err(AllocError),
    }
}

// Whether an id that was proposed under a stamp, if it was, may be settled with this outcome.
fn may_settle(outcome: Outcome, proposed: Option<u64>) -> bool
    ensures { result ≡ may_settle outcome proposed }
{
    match outcome {
        Outcome::Open => false,
        Outcome::Gone(_) => true,
        Outcome::Final(stamp) => match proposed {
            Some(least) => least <= stamp && stamp <= MAX_STAMP,
            None => false,
        },
    }
}

/// An id that was proposed under a stamp, if it was, is settled, as an event of a journal says.
pub(crate) fn settle_again(
    column: &mut Column,
    by: u8,
    id: Id,
    outcome: Outcome,
    proposed: Option<u64>,
) -> bool
    requires { (e : Standing) → open_entry id (entries column.old.journal) ≡ Some e → proposed ≡ Some e.key.stamp }
    ensures { Goes column.old column.new by (events.Settle id outcome) 0 result }
{
    if !may_settle(outcome, proposed) {
        return false;
    }
    match column.settle(by, id, outcome) {
        At::Event(_) => true,
        At::Look(_) => false,
    }
}

/// The clock is raised, as an event of a journal says.
pub(crate) fn raise_again(column: &mut Column, by: u8, to: u64) -> Result<bool, AllocError>
    ensures { IfOk result (Goes column.old column.new by (events.Raise to) 0) }
{
    if to > MAX_STAMP || to <= column.clock() {
        return Ok(false);
    }
    column.raise(by, to)?;
    Ok(true)
}

/// The line is given to a region, as an event of a journal says.
pub(crate) fn give_again(
    column: &mut Column,
    by: u8,
    regions: u8,
    region: u8,
    from: u64,
) -> Result<bool, AllocError>
    requires { column.old.regions ≡ regions }
    ensures { IfOk result (Goes column.old column.new by (events.Give region from) 0) }
{
    if region == column.region() || region >= regions || from > column.line().len() as u64 {
        return Ok(false);
    }
    column.note(by, region, from)?;
    Ok(true)
}

/// Nodes of a region's chain are carried, as an event of a journal says.
pub(crate) fn carry_again(
    alloc: Global,
    column: &mut Column,
    by: u8,
    regions: u8,
    region: u8,
    start: u64,
    heads: &[Head],
) -> Result<bool, AllocError>
    requires { column.old.regions ≡ regions }
    ensures { IfOk result (Goes column.old column.new by (events.Carry region start heads.now) 0) }
{
    column.agrees();
    if region == column.region() || region >= regions || heads.is_empty() {
        return Ok(false);
    }
    if start != column.held().of_region(region) {
        return Ok(false);
    }
    let items = items_with(alloc, heads)?;
    column.carry(alloc, by, region, &Given { start, items })?;
    Ok(true)
}

/// The base is raised, as an event of a journal says.
pub(crate) fn trim_again(column: &mut Column, by: u8, counts: Counts) -> Result<bool, AllocError>
    ensures { IfOk result (Goes column.old column.new by (events.Trim counts) 0) }
{
    column.trim(by, counts)?;
    Ok(true)
}
