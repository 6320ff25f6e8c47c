// The end of a region whose holds have all come back.
ghost use Rattle.std.specs.Prelude.{◌≡◌, ◌<◌, length, map, IfOk};
ghost use Rattle.chain_store.specs.Closings.{HaveOneMore, AllHold, AreClosed, Gathered};
ghost use Rattle.chain_store.specs.Closing.{AreHoldsOf, Closed};
ghost use Rattle.chain_store.specs.Desks.{HasDesks};

use crate::closed::{ClosedRegion, Holds};
use crate::ends::close_column;
use crate::hold::{ColumnPasses, Hold};
use crate::read_view::desk::{Desk, Share};
use crate::region::Region;
use crate::seated::Seated;
use column::Column;
use ring_ends::Rings;
use stamp_board::{ColumnSeat, Seat};
use std::alloc::{AllocError, Global};
use std::sync::Wait;
use turn_cell::{Cell, Pass};

// The end of the columns' copies, each by a client's desk: those of the last colour first.
fn close_shares<R: Wait>(rt: &R, mut shares: Vec<Share>, desks: &mut Vec<Desk>)
    requires { HasDesks shares.items desks.old.items }
{
    while let Some(share) = shares.pop() {
        match desks.pop() {
            Some(desk) => share.close(rt, desk),
            None => unreachable!(),
        }
    }
}

// The passes and the seats of the holds.
fn split_holds(
    alloc: Global,
    holds: Vec<Hold>,
) -> Result<(Vec<ColumnPasses>, Vec<Seat>), AllocError>
    ensures { IfOk result (λ r. (r.0.items ≡ map (λ h. h.passes) holds.items)
        × (r.1.items ≡ map (λ h. h.seat) holds.items)) }
{
    let mut passes = Vec::new(alloc);
    let mut seats = Vec::new(alloc);
    for hold in holds {
        let Hold {
            passes: own,
            seat,
            next: _,
            desks: _,
        } = hold;
        passes.push(own)?;
        seats.push(seat)?;
    }
    Ok((passes, seats))
}

// The last pass of each client.
fn gather(alloc: Global, clients: &mut Vec<ColumnPasses>) -> Result<Vec<Pass<Seated>>, AllocError>
    requires { HaveOneMore clients.old.items }
    ensures { IfOk result (λ passes. Gathered clients.old.items clients.new.items passes.items (length clients.old.items)) }
{
    let mut passes = Vec::new(alloc);
    for i in 0..clients.len() {
        let client = &mut clients[i];
        match client.items.pop() {
            Some(pass) => passes.push(pass)?,
            None => unreachable!(),
        }
    }
    Ok(passes)
}

// The columns, once all passes of each have met: the last colour first.
fn close_columns<R: Wait>(
    rt: &R,
    alloc: Global,
    mut cells: Vec<Cell<Seated>>,
    mut clients: Vec<ColumnPasses>,
) -> Result<Vec<Seated>, AllocError>
    requires some { 0 < length clients.items }
    requires passes { AllHold cells.items clients.items }
    ensures count { IfOk result (λ closed. length closed.items ≡ length cells.items) }
    ensures closed { IfOk result (λ closed. AreClosed cells.items clients.items closed.items) }
{
    let mut closed = Vec::new(alloc);
    while let Some(cell) = cells.pop() {
        let passes = gather(alloc, &mut clients)?;
        closed.insert(0, close_column(rt, cell, passes.into()))?;
    }
    Ok(closed)
}

// The columns, their ends of rings and their seats.
fn split_columns(
    alloc: Global,
    closed: Vec<Seated>,
) -> Result<(Vec<Column>, Vec<Rings>, Vec<ColumnSeat>), AllocError>
    ensures { IfOk result (λ r. (r.0.items ≡ map (λ s. s.column) closed.items)
        × (r.1.items ≡ map (λ s. s.rings) closed.items) × (r.2.items ≡ map (λ s. s.seat) closed.items)) }
{
    let mut columns = Vec::new(alloc);
    let mut ends = Vec::new(alloc);
    let mut seats = Vec::new(alloc);
    for seated in closed {
        let Seated {
            column,
            rings,
            seat,
            entered: _,
        } = seated;
        columns.push(column)?;
        ends.push(rings)?;
        seats.push(seat)?;
    }
    Ok((columns, ends, seats))
}

impl Region {
    /// The end of the region, once all clients' holds have come back. Waits for each column's turn. Where memory is
    /// refused, the region and its holds are gone.
    pub fn close<R: Wait>(
        self,
        rt: &R,
        alloc: Global,
        holds: Holds,
    ) -> Result<ClosedRegion, AllocError>
        requires holds { AreHoldsOf self holds }
        ensures { IfOk result (Closed self holds) }
    {
        let Region {
            number: _,
            regions: _,
            board,
            columns,
            shares,
        } = self;
        let mut holds = holds.into_vec();
        close_shares(rt, shares, &mut holds[0].desks);
        let (clients, seats) = split_holds(alloc, holds)?;
        let closed = close_columns(rt, alloc, columns, clients)?;
        let (columns, ends, column_seats) = split_columns(alloc, closed)?;
        let rows = board.close(alloc, seats.into(), column_seats.into())?;
        Ok(ClosedRegion {
            columns: columns.into(),
            rows,
            ends,
        })
    }
}
