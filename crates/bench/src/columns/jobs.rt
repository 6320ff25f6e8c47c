// Threads that append at columns under turns.
ghost use Rattle.std.specs.Prelude.{◌<◌, ◌^◌, IfOk};
ghost use Rattle.chain_store.specs.Ends.{AreNewHolders};
ghost use Rattle.bench.specs.Jobs.{IsBenchColumn, IsJob, AreJobs};

use crate::columns::nodes::node;
use chain_store::{Seated, open_column, single_in};
use log_node::{ListOf, Shape};
use ring_ends::Rings;
use stamp_board::Board;
use std::alloc::{AllocError, Global};
use std::sync::Wait;
use std::thread;
use std::thread::Threads;
use turn_cell::{Cell, Pass, Passes};

/// A column, and the pass of a client that appends there.
#[derive(Drop)]
pub struct Job<'a> {
    pub cell: &'a Cell<Seated>,
    pub by: u8,
    pub pass: Pass<Seated>,
}

// The column of the region 0 and the colour 0, with a pass for each of four clients.
fn open(alloc: Global) -> Result<(Cell<Seated>, Passes<Seated>), AllocError>
    ensures column { IfOk result (λ r. IsBenchColumn r.0) }
    ensures passes { IfOk result (λ r. AreNewHolders r.0 4 r.1) }
{
    let (board, _seats, columns) = Board::open(alloc, 4, 1, 1)?;
    let shape = Shape {
        regions: 1,
        colours: 1,
        homes: ListOf::new(alloc),
        rows: 1,
    };
    let mut columns = columns.into_vec();
    let Some(seat) = columns.pop() else {
        unreachable!()
    };
    let rings = Rings {
        sends: Vec::new(alloc),
        receives: Vec::new(alloc),
    };
    open_column(alloc, &board, seat, 0, 0, &shape, rings, 4)
}

// So many jobs more, each at the column.
fn hire<'a>(
    cell: &'a Cell<Seated>,
    passes: Passes<Seated>,
    most: u8,
    jobs: &mut Vec<Job<'a>>,
) -> Result<(), AllocError>
    requires column { IsBenchColumn cell.now }
    requires passes { AreNewHolders cell.now 4 passes }
    requires jobs { AreJobs jobs.old.items }
    ensures { IfOk result (λ _. AreJobs jobs.new.items) }
{
    let mut passes = passes.into_vec();
    for _ in 0..most {
        let Some(pass) = passes.pop() else {
            return Ok(());
        };
        let by = passes.len() as u8;
        jobs.push(Job { cell, by, pass })?;
    }
    Ok(())
}

// Appends so many nodes, and says how many entered.
fn append_all<R: Wait>(rt: &R, alloc: Global, job: Job, appends: u64) -> u64
    requires job { IsJob job }
    requires appends { appends < 2 ^ 63 }
{
    let Job { cell, by, mut pass } = job;
    let mut entered = 0u64;
    for count in 0..appends {
        if let Ok(node) = node(alloc, by, count) {
            if single_in(rt, cell, &mut pass, by, &node).is_ok() {
                entered = entered.wrapping_add(1);
            }
        }
    }
    entered
}

fn append_beside<R: Threads + Wait + Sync>(
    rt: &R,
    alloc: Global,
    jobs: Vec<Job>,
    appends: u64,
) -> Result<u64, AllocError>
    requires jobs { AreJobs jobs.items }
    requires appends { appends < 2 ^ 63 }
{
    let entered = thread::map_vec(
        rt,
        jobs,
        &|job: Job| -> u64
            requires { IsJob job × (appends < 2 ^ 63) }
        { append_all(rt, alloc, job, appends) },
    )?;
    let mut all = 0u64;
    for count in &entered {
        all = all.wrapping_add(*count);
    }
    Ok(all)
}

/// Threads that each append this many nodes, at one column or each at its own. Says how many entered.
pub fn over_turns<R: Threads + Wait + Sync>(
    rt: &R,
    alloc: Global,
    threads: u8,
    shared: bool,
    appends: u64,
) -> Result<u64, AllocError>
    requires { appends < 2 ^ 63 }
{
    let (first, first_passes) = open(alloc)?;
    if shared {
        let mut jobs = Vec::new(alloc);
        hire(&first, first_passes, threads, &mut jobs)?;
        return append_beside(rt, alloc, jobs, appends);
    }
    let (second, second_passes) = open(alloc)?;
    let (third, third_passes) = open(alloc)?;
    let (fourth, fourth_passes) = open(alloc)?;
    let mut jobs = Vec::new(alloc);
    hire(&first, first_passes, u8::from(0 < threads), &mut jobs)?;
    hire(&second, second_passes, u8::from(1 < threads), &mut jobs)?;
    hire(&third, third_passes, u8::from(2 < threads), &mut jobs)?;
    hire(&fourth, fourth_passes, u8::from(3 < threads), &mut jobs)?;
    append_beside(rt, alloc, jobs, appends)
}
