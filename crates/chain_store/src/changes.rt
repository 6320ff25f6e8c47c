// Calls on one column that raise, give, feed, drain, carry and trim, each under one turn.
ghost use Rattle.std.specs.Prelude.{◌≡◌, ◌≢◌, ◌<◌, ◌≤◌, Ok, None, IfOk, IfSome, OnErr};
ghost use Rattle.turn_cell.specs.Cells.{seen};
ghost use Rattle.chain_store.specs.Moves.{RaisesAt, GivesAt, CarriesAt, WaitsAt, TrimsAt, held_in};
ghost use Rattle.chain_store.specs.Passes.{IsHolder, SeesMore, tag_in};

use crate::seated::Seated;
use crate::turns::{begin, end};
use log_node::{At, Counts, MAX_STAMP};
use std::alloc::AllocError;
use std::sync::Wait;
use turn_cell::{Cell, Pass};

/// Raises the clock. Waits for the turn.
pub fn raise_in<R: Wait>(
    rt: &R,
    cell: &Cell<Seated>,
    pass: &mut Pass<Seated>,
    by: u8,
    to: u64,
) -> Result<At, AllocError>
    requires pass { IsHolder cell.now by pass.old }
    requires maker { by < (tag_in cell.now).size.clients }
    requires to { to ≤ MAX_STAMP }
    ensures pass { IsHolder cell.now by pass.new }
    ensures ok { IfOk result (RaisesAt by to (seen pass.old) (seen pass.new)) }
    ensures err { OnErr result (SeesMore by (seen pass.old) (seen pass.new)) }
{
    let mut turn = begin(rt, cell, pass, by);
    match turn.value.raise(by, to) {
        Ok(_event) => Ok(end(turn, pass)),
        Err(fault) => {
            end(turn, pass);
            Err(fault)
        }
    }
}

/// Notes that another region has asked past a number, and answers the line's length. Waits for the turn.
pub fn give_in<R: Wait>(
    rt: &R,
    cell: &Cell<Seated>,
    pass: &mut Pass<Seated>,
    by: u8,
    region: u8,
    from: u64,
) -> Result<(At, u64), AllocError>
    requires pass { IsHolder cell.now by pass.old }
    requires maker { by < (tag_in cell.now).size.clients }
    requires other { region ≢ (tag_in cell.now).region }
    requires region { region < (tag_in cell.now).regions }
    ensures pass { IsHolder cell.now by pass.new }
    ensures ok { IfOk result (λ r. GivesAt by region from (seen pass.old) (seen pass.new) r.0 r.1) }
    ensures err { OnErr result (SeesMore by (seen pass.old) (seen pass.new)) }
{
    let mut turn = begin(rt, cell, pass, by);
    match turn.value.give(by, region, from) {
        Ok(lined) => Ok((end(turn, pass), lined)),
        Err(fault) => {
            end(turn, pass);
            Err(fault)
        }
    }
}

/// Sends own nodes to another region until its ring is full or none is left. Waits for the turn.
pub fn feed_in<R: Wait>(
    rt: &R,
    cell: &Cell<Seated>,
    pass: &mut Pass<Seated>,
    by: u8,
    region: u8,
) -> Result<(), AllocError>
    requires pass { IsHolder cell.now by pass.old }
    requires other { region ≢ (tag_in cell.now).region }
    requires region { region < (tag_in cell.now).regions }
    ensures pass { IsHolder cell.now by pass.new }
    ensures sees { SeesMore by (seen pass.old) (seen pass.new) }
{
    let mut turn = begin(rt, cell, pass, by);
    let fed = turn.value.feed(region);
    end(turn, pass);
    fed
}

/// Receives what another region sent, and answers how many nodes of that region are held or received. Waits for the turn.
pub fn drain_in<R: Wait>(
    rt: &R,
    cell: &Cell<Seated>,
    pass: &mut Pass<Seated>,
    by: u8,
    region: u8,
) -> Result<u64, AllocError>
    requires pass { IsHolder cell.now by pass.old }
    requires other { region ≢ (tag_in cell.now).region }
    requires region { region < (tag_in cell.now).regions }
    ensures pass { IsHolder cell.now by pass.new }
    ensures sees { SeesMore by (seen pass.old) (seen pass.new) }
    ensures count { IfOk result (λ n. held_in (tag_in cell.now) (seen pass.new) region ≤ n) }
{
    let mut turn = begin(rt, cell, pass, by);
    let there = turn.value.drain(region);
    end(turn, pass);
    there
}

/// Takes over what was received from another region, and answers how many nodes that were; `None`, and nothing changes,
/// where fewer than so many of that region are held or received. Waits for the turn.
pub fn carry_in<R: Wait>(
    rt: &R,
    cell: &Cell<Seated>,
    pass: &mut Pass<Seated>,
    by: u8,
    region: u8,
    least: u64,
) -> Result<Option<(At, u64)>, AllocError>
    requires pass { IsHolder cell.now by pass.old }
    requires maker { by < (tag_in cell.now).size.clients }
    requires other { region ≢ (tag_in cell.now).region }
    requires region { region < (tag_in cell.now).regions }
    ensures pass { IsHolder cell.now by pass.new }
    ensures ok { IfOk result (λ carried. IfSome carried (λ r.
        CarriesAt (tag_in cell.now) by region least (seen pass.old) (seen pass.new) r.0 r.1)) }
    ensures none { result ≡ Ok None → WaitsAt (tag_in cell.now) by region least (seen pass.old) (seen pass.new) }
    ensures err { OnErr result (SeesMore by (seen pass.old) (seen pass.new)) }
{
    let mut turn = begin(rt, cell, pass, by);
    match turn.value.carry(by, region, least) {
        Ok(Some(count)) => Ok(Some((end(turn, pass), count))),
        Ok(None) => {
            end(turn, pass);
            Ok(None)
        }
        Err(fault) => {
            end(turn, pass);
            Err(fault)
        }
    }
}

/// Drops nodes below these counts that every other region has asked past, and answers the base. Waits for the turn.
pub fn trim_in<R: Wait>(
    rt: &R,
    cell: &Cell<Seated>,
    pass: &mut Pass<Seated>,
    by: u8,
    counts: Counts,
) -> Result<(At, Counts), AllocError>
    requires pass { IsHolder cell.now by pass.old }
    requires maker { by < (tag_in cell.now).size.clients }
    ensures pass { IsHolder cell.now by pass.new }
    ensures ok { IfOk result (λ r. TrimsAt (tag_in cell.now) by counts (seen pass.old) (seen pass.new) r.0 r.1) }
    ensures err { OnErr result (SeesMore by (seen pass.old) (seen pass.new)) }
{
    let mut turn = begin(rt, cell, pass, by);
    match turn.value.trim(by, counts) {
        Ok(base) => Ok((end(turn, pass), base)),
        Err(fault) => {
            end(turn, pass);
            Err(fault)
        }
    }
}
