//! Appends of one colour at columns under turns, beside the same at columns behind a lock of std: one, two and four
//! threads at one column, and each at a column of its own.

ghost use Rattle.std.specs.Prelude.{◌<◌, ◌^◌};

mod jobs;
mod locked;
mod nodes;

use jobs::over_turns;
use locked::over_locks;
use std::alloc::Global;
use std::io;
use std::rt::Clock;
use std::sync::Wait;
use std::thread::Threads;
use std::time::{Duration, Instant};

const APPENDS: u64 = 500;

const THREADS: [u8; 3] = [1, 2, 4];

const SHARED: [(&str, bool); 2] = [("one column", true), ("a column each", false)];

/// Says how many of some appends of each thread entered.
pub fn count<R: Threads + Wait + Print + Sync>(rt: &R, alloc: Global) -> io::Result<()> {
    for (name, shared) in SHARED {
        for threads in THREADS {
            let turns = over_turns(rt, alloc, threads, shared, APPENDS)?;
            let locks = over_locks(rt, alloc, threads, shared, APPENDS)?;
            println!(rt; "{name} threads {threads} entered turns {turns} locks {locks}")?;
        }
    }
    Ok(())
}

/// Says how long an append takes where each thread appends so many nodes.
pub fn measure<R: Threads + Wait + Print + Clock + Sync>(
    rt: &R,
    alloc: Global,
    appends: u64,
) -> io::Result<()>
    requires { appends < 2 ^ 63 }
{
    for (name, shared) in SHARED {
        for threads in THREADS {
            let start = Instant::now(rt)?;
            over_turns(rt, alloc, threads, shared, appends)?;
            let turns = start.elapsed(rt)?;
            let start = Instant::now(rt)?;
            over_locks(rt, alloc, threads, shared, appends)?;
            let locks = start.elapsed(rt)?;
            println!(rt; "{name} threads {threads}")?;
            report(rt, "turns", threads, appends, turns)?;
            report(rt, "locks", threads, appends, locks)?;
        }
    }
    Ok(())
}

fn report<R: Print>(
    rt: &R,
    name: &str,
    threads: u8,
    appends: u64,
    time: Duration,
) -> io::Result<()> {
    let all = threads as u128 * appends as u128;
    let each = time.as_nanos().checked_div(all).unwrap_or(0);
    println!(rt; "  {name} {each} ns an append")
}
