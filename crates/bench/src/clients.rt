//! Clients of one region append, to one colour and to two, on one thread and on four; then a client of another region pulls
//! the first colour, and syncs it.

ghost use Rattle.std.specs.Prelude.{◌≤◌};

pub mod jobs;

use jobs::{append_beside, open, played, pulled};
use std::alloc::Global;
use std::io;
use std::rt::Clock;
use std::sync::Wait;
use std::thread::Threads;
use std::time::{Duration, Instant};

const APPENDS: u64 = 100;

const THREADS: [u8; 2] = [1, 4];

// Whether nodes are appended to both colours.
const COLOURS: [(&str, bool); 2] = [("one colour", false), ("two colours", true)];

// How many nodes were pulled and played, and how long all appends, the pull and the sync took.
#[derive(Clone, Copy)]
struct Done {
    pulled: u64,
    played: u64,
    appends: Duration,
    pull: Duration,
    sync: Duration,
}

// This many clients append this many nodes each, to the first colour or to both; another pulls and syncs.
fn bench<R: Threads + Wait + Clock + Sync>(
    rt: &R,
    alloc: Global,
    threads: u8,
    both: bool,
    appends: u64,
) -> io::Result<Done>
    requires { threads ≤ 4 }
{
    let (store, mut clients, mut away) = open(alloc, threads)?;
    let start = Instant::now(rt)?;
    append_beside(rt, alloc, &store, clients.as_mut_slice(), both, appends);
    let appends = start.elapsed(rt)?;
    let start = Instant::now(rt)?;
    let pulled = pulled(rt, alloc, &store, &mut away);
    let pull = start.elapsed(rt)?;
    let start = Instant::now(rt)?;
    let played = played(rt, alloc, &store, &mut away);
    let sync = start.elapsed(rt)?;
    Ok(Done {
        pulled,
        played,
        appends,
        pull,
        sync,
    })
}

// What each of this many took of the time, in nanoseconds.
fn each(time: Duration, many: u64) -> u128 {
    time.as_nanos().checked_div(many as u128).unwrap_or(0)
}

/// Says how many of the nodes that clients append are pulled and played.
pub fn count<R: Threads + Wait + Print + Clock + Sync>(rt: &R, alloc: Global) -> io::Result<()> {
    for (name, both) in COLOURS {
        for threads in THREADS {
            let done = bench(rt, alloc, threads, both, APPENDS)?;
            println!(rt;
                "{name} threads {threads} pulled {} played {}",
                done.pulled, done.played
            )?;
        }
    }
    Ok(())
}

/// Says how long each append, each node of the pull and each node of the sync takes, where each client appends so many nodes;
/// to two colours it appends at most as many as it has rows.
pub fn measure<R: Threads + Wait + Print + Clock + Sync>(
    rt: &R,
    alloc: Global,
    appends: u64,
) -> io::Result<()> {
    for (name, both) in COLOURS {
        for threads in THREADS {
            let done = bench(rt, alloc, threads, both, appends)?;
            let append = each(done.appends, done.pulled);
            let pull = each(done.pull, done.pulled);
            let sync = each(done.sync, done.played);
            println!(rt;
                "{name} threads {threads} append {append} pull {pull} sync {sync} ns a node"
            )?;
        }
    }
    Ok(())
}
