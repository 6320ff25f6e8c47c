// Calls at each item of a list, on threads.
ghost use Rattle.std.specs.Prelude.{◌+◌, ◌^◌, ◌<◌, length};
ghost use Rattle.std.specs.Thread.{IsSync, IsSend};
ghost use Rattle.std.specs.Fork.{AcceptsAt, ChangesAt, AcceptsEach, ChangesEach};
ghost use Rattle.fork_join.specs.Places.{AcceptsFrom, ChangesFrom};

use std::thread;
use std::thread::Threads;

fn at_one<T, F: Fn(usize, &mut T)>(f: &F, place: usize, item: &mut T)
    requires { AcceptsAt F.Fn f.now place item.old }
    ensures { ChangesAt F.Fn f.now place item.old item.new }
{
    f(place, item);
}

// Calls f at each item, one after another; the first stands at place `base`.
fn in_turn<T, F: Fn(usize, &mut T)>(items: &mut [T], base: usize, f: &F)
    requires room { base + length items.old < 2 ^ 64 }
    requires accepts { AcceptsFrom F.Fn f.now base items.old }
    ensures { ChangesFrom F.Fn f.now base items.old items.new }
{
    for place in 0..items.len() {
        at_one(f, base + place, &mut items[place]);
    }
}

// Calls f at each item, in shares of so many items, each on a thread of its own. This thread makes them, and has no share. The
// list is the last parameter because the borrow checker does not cover a closure that reads a captured `&` after it lends a
// captured `&mut`.
#[cycle(shares)]
fn in_shares<R: Threads + Sync, T: Send, F: Fn(usize, &mut T) + Sync>(
    rt: &R,
    f: &F,
    base: usize,
    size: usize,
    items: &mut [T],
)
    requires size { 0 < size }
    requires room { base + length items.old < 2 ^ 64 }
    requires accepts { AcceptsFrom F.Fn f.now base items.old }
    ensures { ChangesFrom F.Fn f.now base items.old items.new }
{
    if items.is_empty() {
        return;
    }
    let end = size.min(items.len());
    let (first, others) = items.split_at_mut(end);
    first_beside_others(rt, f, size, base, first, base + end, others);
}

// The first share on a thread of its own, and the others on theirs.
#[cycle(shares)]
fn first_beside_others<R: Threads + Sync, T: Send, F: Fn(usize, &mut T) + Sync>(
    rt: &R,
    f: &F,
    size: usize,
    base: usize,
    first: &mut [T],
    next: usize,
    others: &mut [T],
)
    requires size { 0 < size }
    requires first_room { base + length first.old < 2 ^ 64 }
    requires first { AcceptsFrom F.Fn f.now base first.old }
    requires others_room { next + length others.old < 2 ^ 64 }
    requires others { AcceptsFrom F.Fn f.now next others.old }
    ensures first { ChangesFrom F.Fn f.now base first.old first.new }
    ensures others { ChangesFrom F.Fn f.now next others.old others.new }
{
    let mut one = ||
        requires { IsSync F.row × IsSend T.row × (base + length first.now < 2 ^ 64) × AcceptsFrom F.Fn f.now base first.now }
        ensures { ChangesFrom F.Fn f.entry.now base first.entry.now first.exit.now }
    { in_turn(first, base, f) };
    let mut rest = ||
        requires { IsSync R.row × IsSync F.row × IsSend T.row × (0 < size) × (next + length others.now < 2 ^ 64) × AcceptsFrom F.Fn f.now next others.now }
        ensures { ChangesFrom F.Fn f.entry.now next others.entry.now others.exit.now }
    { in_shares(rt, f, next, size, others) };
    thread::join_mut(rt, &mut one, &mut rest);
}

/// Calls `f(place, &mut items[place])` at each item, on at most that many threads; where no thread can be made, here. All
/// threads are made by the calling one, which has no share of the items and waits: a thread that works behind one that it made
/// may keep the processor on which the other was put. Where one thread is enough, the calling one does all.
pub fn for_each_mut<R: Threads + Sync, T: Send, F: Fn(usize, &mut T) + Sync>(
    rt: &R,
    items: &mut [T],
    threads: usize,
    f: &F,
)
    requires threads { 0 < threads }
    requires accepts { AcceptsEach F.Fn f.now items.old }
    ensures { ChangesEach F.Fn f.now items.old items.new }
{
    let size = items.len().div_ceil(threads);
    if size < items.len() {
        in_shares(rt, f, 0, size, items);
    } else {
        in_turn(items, 0, f);
    }
}
