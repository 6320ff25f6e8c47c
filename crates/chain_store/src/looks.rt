// Calls on one column that change nothing, each under one turn.
ghost use Rattle.std.specs.Prelude.{◌≡◌, IfOk, IfSome};
ghost use Rattle.std.specs.List.{position};
ghost use Rattle.log_node.specs.Order.{same_key};
ghost use Rattle.col_core.specs.History.{clock, line};
ghost use Rattle.col_core.specs.Cuts.{held};
ghost use Rattle.turn_cell.specs.Cells.{seen};
ghost use Rattle.chain_store.specs.Histories.{entries_in};
ghost use Rattle.chain_store.specs.Moves.{LooksAt};
ghost use Rattle.chain_store.specs.Looking.{IsLooked, ShowsOn};
ghost use Rattle.chain_store.specs.Columns.{Stands, tag_of};
ghost use Rattle.chain_store.specs.Passes.{HasTurnOf, IsHolder, SeesMore, ShowsHistory, dated_in, tag_in};

use crate::seated::Seated;
use crate::turns::{begin, begin_now, end};
use col_core::View;
use column::Column;
use log_node::{At, Counts, Key};
use std::alloc::{AllocError, Global};
use std::sync::Wait;
use turn_cell::{Cell, Pass, Turn};

// What a reader with these counts sees, at a turn that then ends.
fn view_at(
    alloc: Global,
    turn: Turn<Seated>,
    pass: &mut Pass<Seated>,
    by: u8,
    from: Counts,
) -> Result<View, AllocError>
    requires turn { HasTurnOf turn.cell.now by pass.old }
    requires value { Stands turn.value.value (seen pass.old) }
    requires tag { tag_of turn.value.value ≡ tag_in turn.cell.now }
    ensures pass { IsHolder turn.entry.cell.now by pass.new × (seen pass.new ≡ seen pass.old) }
    ensures view { IfOk result (λ view. ShowsHistory (tag_in turn.entry.cell.now) (seen pass.new) from view) }
{
    let _ = by;
    let view = turn.value.column.look(alloc, from);
    end(turn, pass);
    view
}

/// What a reader with these counts sees. Waits for the turn.
pub fn look_in<R: Wait>(
    rt: &R,
    alloc: Global,
    cell: &Cell<Seated>,
    pass: &mut Pass<Seated>,
    by: u8,
    from: Counts,
) -> Result<View, AllocError>
    requires pass { IsHolder cell.now by pass.old }
    ensures pass { IsHolder cell.now by pass.new × SeesMore by (seen pass.old) (seen pass.new) }
    ensures view { IfOk result (λ view. ShowsHistory (tag_in cell.now) (seen pass.new) from view) }
{
    let turn = begin(rt, cell, pass, by);
    view_at(alloc, turn, pass, by, from)
}

/// The same, if the turn is free just now; does not wait.
pub(crate) fn look_now(
    alloc: Global,
    cell: &Cell<Seated>,
    pass: &mut Pass<Seated>,
    by: u8,
    from: Counts,
) -> Option<Result<View, AllocError>>
    requires pass { IsHolder cell.now by pass.old }
    ensures pass { IsHolder cell.now by pass.new × SeesMore by (seen pass.old) (seen pass.new) }
    ensures view { IfSome result (λ r. IfOk r (λ view. ShowsHistory (tag_in cell.now) (seen pass.new) from view)) }
{
    match begin_now(cell, pass, by) {
        Some(turn) => Some(view_at(alloc, turn, pass, by, from)),
        None => None,
    }
}

/// What a look shows that goes on from counts.
#[derive(Drop)]
pub enum Looked {
    /// The column from there on.
    On(View),
    /// Nodes that come next are trimmed: all below this base are.
    Behind { base: Counts },
}

// Nodes are looked at only where the counts are not behind the base.
fn looked_on(column: &Column, alloc: Global, from: Counts) -> Result<Looked, AllocError>
    ensures { IfOk result (IsLooked column.now from) }
{
    let base = column.base();
    if !base.is_within(from) {
        return Ok(Looked::Behind { base });
    }
    Ok(Looked::On(column.look(alloc, from)?))
}

// What a reader sees who goes on from these counts, at a turn that then ends.
fn looked_at(
    alloc: Global,
    turn: Turn<Seated>,
    pass: &mut Pass<Seated>,
    by: u8,
    from: Counts,
) -> Result<Looked, AllocError>
    requires turn { HasTurnOf turn.cell.now by pass.old }
    requires value { Stands turn.value.value (seen pass.old) }
    requires tag { tag_of turn.value.value ≡ tag_in turn.cell.now }
    ensures pass { IsHolder turn.entry.cell.now by pass.new × (seen pass.new ≡ seen pass.old) }
    ensures looked { IfOk result (ShowsOn (tag_in turn.entry.cell.now) (seen pass.new) from) }
{
    let _ = by;
    let looked = looked_on(&turn.value.column, alloc, from);
    end(turn, pass);
    looked
}

/// What a reader sees who goes on from these counts; behind the base that is the base alone, whatever the column has above
/// it. Waits for the turn.
pub fn look_on_in<R: Wait>(
    rt: &R,
    alloc: Global,
    cell: &Cell<Seated>,
    pass: &mut Pass<Seated>,
    by: u8,
    from: Counts,
) -> Result<Looked, AllocError>
    requires pass { IsHolder cell.now by pass.old }
    ensures pass { IsHolder cell.now by pass.new × SeesMore by (seen pass.old) (seen pass.new) }
    ensures looked { IfOk result (ShowsOn (tag_in cell.now) (seen pass.new) from) }
{
    let turn = begin(rt, cell, pass, by);
    looked_at(alloc, turn, pass, by, from)
}

/// The same, if the turn is free just now; does not wait.
pub(crate) fn look_on_now(
    alloc: Global,
    cell: &Cell<Seated>,
    pass: &mut Pass<Seated>,
    by: u8,
    from: Counts,
) -> Option<Result<Looked, AllocError>>
    requires pass { IsHolder cell.now by pass.old }
    ensures pass { IsHolder cell.now by pass.new × SeesMore by (seen pass.old) (seen pass.new) }
    ensures looked { IfSome result (λ r. IfOk r (ShowsOn (tag_in cell.now) (seen pass.new) from)) }
{
    match begin_now(cell, pass, by) {
        Some(turn) => Some(looked_at(alloc, turn, pass, by, from)),
        None => None,
    }
}

/// The position of a key in the line, counted from 0; `None` exactly where it is not in the line. Waits for the turn.
pub fn place_in<R: Wait>(
    rt: &R,
    cell: &Cell<Seated>,
    pass: &mut Pass<Seated>,
    by: u8,
    key: Key,
) -> (At, Option<u64>)
    requires pass { IsHolder cell.now by pass.old }
    ensures pass { IsHolder cell.now by pass.new }
    ensures look { LooksAt by (seen pass.old) (seen pass.new) result.0 }
    ensures place { result.1 ≡ position (λ k. same_key k key) (line (entries_in (seen pass.new))) }
{
    let turn = begin(rt, cell, pass, by);
    let place = turn.value.column.place(key);
    (end(turn, pass), place)
}

/// The clock. Waits for the turn.
pub fn clock_in<R: Wait>(rt: &R, cell: &Cell<Seated>, pass: &mut Pass<Seated>, by: u8) -> (At, u64)
    requires pass { IsHolder cell.now by pass.old }
    ensures pass { IsHolder cell.now by pass.new }
    ensures look { LooksAt by (seen pass.old) (seen pass.new) result.0 }
    ensures clock { result.1 ≡ clock (entries_in (seen pass.new)) }
{
    let turn = begin(rt, cell, pass, by);
    let clock = turn.value.column.clock();
    (end(turn, pass), clock)
}

/// How many nodes of each region's chain are here. Waits for the turn.
pub fn held_in<R: Wait>(
    rt: &R,
    cell: &Cell<Seated>,
    pass: &mut Pass<Seated>,
    by: u8,
) -> (At, Counts)
    requires pass { IsHolder cell.now by pass.old }
    ensures pass { IsHolder cell.now by pass.new }
    ensures look { LooksAt by (seen pass.old) (seen pass.new) result.0 }
    ensures held { result.1 ≡ held (tag_in cell.now).region (dated_in (tag_in cell.now) (seen pass.new)) }
{
    let turn = begin(rt, cell, pass, by);
    let held = turn.value.column.held();
    (end(turn, pass), held)
}
