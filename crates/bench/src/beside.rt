//! One client appends to a colour without pause, and three others sync it meanwhile: how many syncs there are, and how long
//! one takes.

ghost use Rattle.std.specs.List.{All};
ghost use Rattle.log_client.specs.Clients.{IsClient};
ghost use Rattle.bench.specs.Stores.{IsBench};

use crate::clients::jobs::{append_all, open, played, pulled};
use log_client::{Client, Store};
use std::alloc::Global;
use std::rt::Clock;
use std::sync::atomic::{AtomicBool, Ordering};
use std::sync::{Mutex, Wait};
use std::thread::Threads;
use std::time::Instant;
use std::{io, thread};

const APPENDS: u64 = 100;

// How many clients there are: the first appends.
const CLIENTS: u8 = 4;

// How often a client syncs at most.
const MOST: u32 = 100_000_000;

/// What clients beside one another share: whether the appends have ended, and how long each sync took, in nanoseconds.
#[derive(Drop)]
struct Beside {
    ended: AtomicBool,
    times: Mutex<Vec<u32>>,
}

// Syncs the first colour once, and says how long it took.
fn timed<R: Wait + Clock>(
    rt: &R,
    alloc: Global,
    store: &Store,
    client: &mut Client,
) -> io::Result<u32>
    requires store { IsBench store.now }
    requires client { IsClient store.now client.old }
    ensures { IsClient store.now client.new }
{
    let start = Instant::now(rt)?;
    played(rt, alloc, store, client);
    let time = start.elapsed(rt)?.as_nanos();
    Ok(u32::try_from(time).unwrap_or(u32::MAX))
}

// Syncs the first colour until the appends have ended, and notes how long each sync took.
fn sync_all<R: Wait + Clock>(
    rt: &R,
    alloc: Global,
    store: &Store,
    client: &mut Client,
    ended: &AtomicBool,
    times: &mut Vec<u32>,
) -> io::Result<()>
    requires store { IsBench store.now }
    requires client { IsClient store.now client.old }
{
    for _ in 0..MOST {
        times.push(timed(rt, alloc, store, client)?)?;
        if ended.load(Ordering::SeqCst) {
            return Ok(());
        }
    }
    Ok(())
}

// The first client appends this many nodes; each other one syncs meanwhile.
fn act<R: Wait + Clock>(
    rt: &R,
    alloc: Global,
    store: &Store,
    place: usize,
    client: &mut Client,
    appends: u64,
    beside: &Beside,
)
    requires store { IsBench store.now }
    requires client { IsClient store.now client.old }
{
    if place == 0 {
        append_all(rt, alloc, store, client, false, appends);
        beside.ended.store(true, Ordering::SeqCst);
        return;
    }
    let mut times = Vec::new(alloc);
    let _ = sync_all(rt, alloc, store, client, &beside.ended, &mut times);
    let _ = beside.times.lock(rt).append(&mut times);
}

// All clients act, each on a thread of its own.
fn act_beside<R: Threads + Wait + Clock + Sync>(
    rt: &R,
    alloc: Global,
    store: &Store,
    clients: &mut [Client],
    appends: u64,
    beside: &Beside,
)
    requires store { IsBench store.now }
    requires clients { All (IsClient store.now) clients.old }
{
    thread::for_each_mut(
        rt,
        clients,
        usize::from(CLIENTS),
        &|place: usize, client: &mut Client|
            requires { IsBench store.now × IsClient store.now client.now }
        { act(rt, alloc, store, place, client, appends, beside) },
    );
}

// How many nodes were pulled and played of those that were appended, and how long each sync took meanwhile.
fn bench<R: Threads + Wait + Clock + Sync>(
    rt: &R,
    alloc: Global,
    appends: u64,
) -> io::Result<(u64, u64, Vec<u32>)> {
    let (store, mut clients, mut away) = open(alloc, CLIENTS)?;
    let beside = Beside {
        ended: AtomicBool::new(false),
        times: Mutex::new(Vec::new(alloc)),
    };
    act_beside(rt, alloc, &store, clients.as_mut_slice(), appends, &beside);
    let pulled = pulled(rt, alloc, &store, &mut away);
    let played = played(rt, alloc, &store, &mut away);
    Ok((pulled, played, beside.times.into_inner()))
}

/// Says how many of the nodes that one client appends beside the others' syncs are pulled and played.
pub fn count<R: Threads + Wait + Print + Clock + Sync>(rt: &R, alloc: Global) -> io::Result<()> {
    let (pulled, played, _) = bench(rt, alloc, APPENDS)?;
    println!(rt; "one appends, three sync: pulled {pulled} played {played}")
}

/// Says how many syncs there were beside so many appends, and how long one took: in the middle, and at most.
pub fn measure<R: Threads + Wait + Print + Clock + Sync>(
    rt: &R,
    alloc: Global,
    appends: u64,
) -> io::Result<()> {
    let start = Instant::now(rt)?;
    let (pulled, _, mut times) = bench(rt, alloc, appends)?;
    let all = start.elapsed(rt)?.as_micros();
    times.sort_unstable();
    let syncs = times.len();
    let middle = times.get(syncs / 2).copied().unwrap_or(0);
    let most = times.last().copied().unwrap_or(0);
    println!(rt;
        "one appends, three sync: {pulled} appends and {syncs} syncs in {all} us, a sync {middle} ns, at most {most}"
    )
}
