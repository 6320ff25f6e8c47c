//! Two stalls, each in a region of its own, count the cups of tea and coffee that both have sold. They sell at the same time,
//! on a thread each; what the other one has sold a stall learns when it fetches it.
#![tactic(auto)]

mod counter;
mod shop;
mod stall;

ghost use Rattle.std.specs.Prelude.{◌<◌};
ghost use Rattle.std.specs.List.{All};
ghost use Rattle.example_stalls.specs.Stalls.{IsShop, IsStall};

use log_client::Store;
use shop::{open, sell_beside};
use stall::Stall;
use std::alloc::Global;
use std::io;
use std::sync::Wait;

// Says what the stall then counts.
fn say_totals<R: Wait + Print>(
    rt: &R,
    alloc: Global,
    store: &Store,
    name: &str,
    stall: &mut Stall,
) -> io::Result<()>
    requires shop { IsShop store.now }
    requires stall { IsStall store.now stall.old }
    ensures { IsStall store.now stall.new }
{
    match stall.totals(rt, alloc, store) {
        Ok(totals) => println!(rt; "{name} counts tea {} coffee {}", totals.tea, totals.coffee),
        Err(_) => println!(rt; "{name} does not count"),
    }
}

// The stall fetches what another region has sold.
fn fetch<R: Wait + Print>(
    rt: &R,
    alloc: Global,
    store: &Store,
    name: &str,
    stall: &mut Stall,
    from: u8,
) -> io::Result<()>
    requires shop { IsShop store.now }
    requires stall { IsStall store.now stall.old }
    requires from { from < 2 }
    ensures { IsStall store.now stall.new }
{
    match stall.fetch(rt, alloc, store, from) {
        Ok(new) => println!(rt; "{name} fetches {new}"),
        Err(_) => println!(rt; "{name} fetches nothing"),
    }
}

// The stall at this place counts, and before it fetches what the other region has sold where it is to.
fn one_counts<R: Wait + Print>(
    rt: &R,
    alloc: Global,
    store: &Store,
    place: usize,
    stall: &mut Stall,
    fetches: bool,
) -> io::Result<()>
    requires shop { IsShop store.now }
    requires stall { IsStall store.now stall.old }
    ensures { IsStall store.now stall.new }
{
    let (name, other) = if place == 0 {
        ("north", 1)
    } else {
        ("south", 0)
    };
    if fetches {
        fetch(rt, alloc, store, name, stall, other)?;
    }
    say_totals(rt, alloc, store, name, stall)
}

// The stalls count, one after another.
fn each_counts<R: Wait + Print>(
    rt: &R,
    alloc: Global,
    store: &Store,
    stalls: &mut [Stall],
    fetches: bool,
) -> io::Result<()>
    requires shop { IsShop store.now }
    requires stalls { All (IsStall store.now) stalls.old }
    ensures { All (IsStall store.now) stalls.new }
{
    for place in 0..stalls.len() {
        one_counts(rt, alloc, store, place, &mut stalls[place], fetches)?;
    }
    Ok(())
}

// The stall drops what all have, and then says what its own region has sold.
fn tidy<R: Wait + Print>(rt: &R, alloc: Global, store: &Store, stall: &mut Stall) -> io::Result<()>
    requires shop { IsShop store.now }
    requires stall { IsStall store.now stall.old }
    ensures { IsStall store.now stall.new }
{
    match stall.forget(rt, store) {
        Ok(base) => println!(rt;
            "north forgets {} of north and {} of south",
            base.of_region(0),
            base.of_region(1)
        )?,
        Err(_) => println!(rt; "north forgets nothing")?,
    }
    match stall.own_cups(rt, alloc, store) {
        Ok(read) => println!(rt;
            "north has sold {} cups up to stamp {}",
            read.items.len(),
            read.stamp
        ),
        Err(_) => println!(rt; "north does not read"),
    }
}

fn main(rt: HostRuntime) -> io::Result<()> {
    let alloc = rt.alloc();
    let (store, mut opened) = open(alloc)?;
    let stalls = opened.as_mut_slice();
    sell_beside(&rt, alloc, &store, stalls, 12);
    each_counts(&rt, alloc, &store, stalls, false)?;
    each_counts(&rt, alloc, &store, stalls, true)?;
    // To fetch once more tells the other region what is held: so it may forget.
    each_counts(&rt, alloc, &store, stalls, true)?;
    if stalls.is_empty() {
        return Ok(());
    }
    tidy(&rt, alloc, &store, &mut stalls[0])
}
