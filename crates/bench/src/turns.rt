//! Turns at a cell beside a lock of std: one, two and four threads that share one value, a small and a great one.

mod tally;
mod writers;

use std::alloc::Global;
use std::io;
use std::rt::Clock;
use std::sync::Wait;
use std::thread::Threads;
use std::time::{Duration, Instant};
use writers::{Load, Work, over_cell, over_lock};

const TURNS: u64 = 500;

const THREADS: [u8; 3] = [1, 2, 4];

const KINDS: [(&str, Work); 2] = [("look", Work::Look), ("add", Work::Add)];

// A value of 24 bytes, and one as great as a column with its seat.
const SMALL: () = ();

const GREAT: [u64; 35] = [0; 35];

// What comes of some turns at a value of this size.
fn count_at<P: Copy + Drop + Send + Sync, R: Threads + Wait + Print + Sync>(
    rt: &R,
    alloc: Global,
    size: &str,
    ballast: P,
) -> io::Result<()> {
    for (name, work) in KINDS {
        for threads in THREADS {
            let load = Load { work, turns: TURNS };
            let cell = over_cell(rt, alloc, ballast, threads, load)?;
            let lock = over_lock(rt, alloc, ballast, threads, load)?;
            println!(rt; "{size} {name} threads {threads} entries cell {cell} lock {lock}")?;
        }
    }
    Ok(())
}

// How long turns at a value of this size take.
fn measure_at<P: Copy + Drop + Send + Sync, R: Threads + Wait + Print + Clock + Sync>(
    rt: &R,
    alloc: Global,
    size: &str,
    ballast: P,
    turns: u64,
) -> io::Result<()> {
    for (name, work) in KINDS {
        for threads in THREADS {
            let load = Load { work, turns };
            let start = Instant::now(rt)?;
            over_cell(rt, alloc, ballast, threads, load)?;
            let cell = start.elapsed(rt)?;
            let start = Instant::now(rt)?;
            over_lock(rt, alloc, ballast, threads, load)?;
            let lock = start.elapsed(rt)?;
            println!(rt; "{size} {name} threads {threads}")?;
            report(rt, "cell", threads, turns, cell)?;
            report(rt, "lock", threads, turns, lock)?;
        }
    }
    Ok(())
}

fn report<R: Print>(rt: &R, name: &str, threads: u8, turns: u64, time: Duration) -> io::Result<()> {
    let all = threads as u128 * turns as u128;
    let nanos = time.as_nanos();
    let each = nanos.checked_div(all).unwrap_or(0);
    let rate = (all * 1_000_000_000).checked_div(nanos).unwrap_or(0);
    println!(rt; "  {name} {each} ns a turn, {rate} turns a second")
}

/// Says how many entries some turns of each thread leave.
pub fn count<R: Threads + Wait + Print + Sync>(rt: &R, alloc: Global) -> io::Result<()> {
    count_at(rt, alloc, "small", SMALL)?;
    count_at(rt, alloc, "great", GREAT)
}

/// Says how long a turn takes where each thread takes so many.
pub fn measure<R: Threads + Wait + Print + Clock + Sync>(
    rt: &R,
    alloc: Global,
    turns: u64,
) -> io::Result<()> {
    measure_at(rt, alloc, "small", SMALL, turns)?;
    measure_at(rt, alloc, "great", GREAT, turns)
}
