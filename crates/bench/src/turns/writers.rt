//! Writers that take turns at a cell, and the same loop over a lock.
ghost use Rattle.std.specs.Prelude.{◌≡◌, ◌<◌, ◌≤◌, IfOk, length};
ghost use Rattle.turn_cell.specs.Cells.{AreReady, AreNewPasses};
ghost use Rattle.bench.specs.Writers.{no_tag, IsWriter, AreWriters};

use crate::turns::tally::Tally;
use std::alloc::{AllocError, Global};
use std::sync::{Mutex, Wait};
use std::thread;
use std::thread::Threads;
use turn_cell::{Cell, Pass, Passes};

/// What a thread does under each of its turns.
#[derive(Clone, Copy, PartialEq, Eq)]
pub enum Work {
    /// It only has the value.
    Look,
    /// It adds an entry.
    Add,
}

/// What each thread does, and how often.
#[derive(Clone, Copy)]
pub struct Load {
    pub work: Work,
    pub turns: u64,
}

/// A pass, and its number.
#[derive(Drop)]
pub struct Writer<P> {
    pub by: u8,
    pub pass: Pass<Tally<P>>,
}

impl<P> Writer<P> {
    /// Takes the turn, does the work, and ends the turn.
    fn write<R: Wait>(&mut self, rt: &R, cell: &Cell<Tally<P>>, work: Work)
        requires { IsWriter cell.now self.old }
        ensures { IsWriter cell.now self.new }
    {
        let mut turn = cell.take(rt, &mut self.pass);
        if work == Work::Add && turn.value.add(self.by) {
            turn.put(&mut self.pass);
        } else {
            turn.put(&mut self.pass);
        }
    }
}

fn write_all<P, R: Wait>(
    rt: &R,
    cell: &Cell<Tally<P>>,
    mut writer: Writer<P>,
    load: Load,
) -> Writer<P>
    requires { IsWriter cell.now writer }
    ensures { IsWriter cell.now result }
{
    for _ in 0..load.turns {
        writer.write(rt, cell, load.work);
    }
    writer
}

fn hire<P>(
    alloc: Global,
    cell: &Cell<Tally<P>>,
    passes: Passes<Tally<P>>,
) -> Result<Vec<Writer<P>>, AllocError>
    requires { AreNewPasses no_tag cell.now (length passes) passes × (length passes ≤ 255) }
    ensures writers { IfOk result (λ ws. AreWriters cell.now ws.items) }
    ensures count { IfOk result (λ ws. length ws.items ≡ length passes) }
{
    let mut passes = passes.into_vec();
    let mut writers = Vec::new(alloc);
    while let Some(pass) = passes.pop() {
        let by = passes.len() as u8;
        writers.push(Writer { by, pass })?;
    }
    Ok(writers)
}

fn dismiss<P>(
    alloc: Global,
    cell: &Cell<Tally<P>>,
    mut writers: Vec<Writer<P>>,
) -> Result<Passes<Tally<P>>, AllocError>
    requires { AreWriters cell.now writers.items }
    ensures ready { IfOk result (λ ps. AreReady no_tag cell.now ps) }
    ensures count { IfOk result (λ ps. length ps ≡ length writers.items) }
{
    let mut passes = Passes::new(alloc);
    while let Some(writer) = writers.pop() {
        let Writer { by: _, pass } = writer;
        passes.push(pass)?;
    }
    Ok(passes)
}

fn write_beside<P: Send + Sync, R: Threads + Wait + Sync>(
    rt: &R,
    cell: &Cell<Tally<P>>,
    writers: Vec<Writer<P>>,
    load: Load,
) -> Result<Vec<Writer<P>>, AllocError>
    requires { AreWriters cell.now writers.items }
    ensures writers { IfOk result (λ ws. AreWriters cell.now ws.items) }
    ensures count { IfOk result (λ ws. length ws.items ≡ length writers.items) }
{
    thread::map_vec(
        rt,
        writers,
        &|writer: Writer<P>| -> Writer<P>
            requires { IsWriter cell.now writer }
            ensures { IsWriter cell.entry.now result }
        { write_all(rt, cell, writer, load) },
    )
}

/// Threads that each take this many turns at one cell. The answer is how many entries its value has at the end.
pub fn over_cell<P: Drop + Send + Sync, R: Threads + Wait + Sync>(
    rt: &R,
    alloc: Global,
    ballast: P,
    threads: u8,
    load: Load,
) -> Result<u64, AllocError>
    requires { 0 < threads }
{
    let (cell, passes) = Cell::open(alloc, Tally::new(ballast), threads)?;
    let writers = hire(alloc, &cell, passes)?;
    let writers = write_beside(rt, &cell, writers, load)?;
    let passes = dismiss(alloc, &cell, writers)?;
    Ok(cell.close_all(rt, passes).count)
}

/// The same over a lock of std.
pub fn over_lock<P: Drop + Send + Sync, R: Threads + Wait + Sync>(
    rt: &R,
    alloc: Global,
    ballast: P,
    threads: u8,
    load: Load,
) -> Result<u64, AllocError> {
    let lock = Mutex::new(Tally::new(ballast));
    let mut numbers = Vec::new(alloc);
    for by in 0..threads {
        numbers.push(by)?;
    }
    thread::map_vec(rt, numbers, &|by: u8| lock_all(rt, &lock, by, load))?;
    Ok(lock.into_inner().count)
}

fn lock_all<P, R: Wait>(rt: &R, lock: &Mutex<Tally<P>>, by: u8, load: Load) {
    for _ in 0..load.turns {
        let mut tally = lock.lock(rt);
        if load.work == Work::Add {
            tally.add(by);
        }
    }
}
