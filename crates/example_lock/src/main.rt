//! A lock service over the log: who asks waits behind those who asked before, and the stamp of the ask is the fencing token.
#![tactic(auto)]

mod desk;
mod folded;

ghost use Rattle.std.specs.Prelude.{◌<◌, IfOk, IfSome};
ghost use Rattle.std.specs.List.{All};
ghost use Rattle.log_client.specs.Clients.{IsClient};
ghost use Rattle.example_lock.specs.Desks.{IsDesk};

use desk::Desk;
use log_client::{Client, Store};
use log_node::{ListOf, Shape};
use std::alloc::{AllocError, Global};
use std::sync::Wait;
use std::thread::Threads;
use std::{io, thread};

// A store of one region and one colour, with three clients.
fn open(alloc: Global) -> Result<(Store, Vec<Client>), AllocError>
    ensures colour { IfOk result (λ r. 0 < r.0.size.colours) }
    ensures clients { IfOk result (λ r. All (IsClient r.0) r.1.items) }
{
    let mut homes = ListOf::new(alloc);
    homes.push(0)?;
    homes.push(0)?;
    homes.push(0)?;
    let shape = Shape {
        regions: 1,
        colours: 1,
        homes,
        rows: 1,
    };
    let (store, clients) = Store::open(alloc, &shape)?;
    Ok((store, clients.into_vec()))
}

// A desk of the last client, if one is left.
fn next_desk(alloc: Global, store: &Store, clients: &mut Vec<Client>) -> Option<Desk>
    requires colour { 0 < store.now.size.colours }
    requires clients { All (IsClient store.now) clients.old.items }
    ensures clients { All (IsClient store.now) clients.new.items }
    ensures desk { IfSome result (IsDesk store.now) }
{
    Some(Desk::open(alloc, clients.pop()?))
}

// Looks until the ticket with this token holds; false where it never will, or a look is refused.
fn wait_for<R: Wait>(rt: &R, alloc: Global, store: &Store, desk: &mut Desk, token: u64) -> bool
    requires { IsDesk store.now desk.old }
    ensures { IsDesk store.now desk.new }
{
    for _ in rt.forever() {
        match desk.holder(rt, alloc, store) {
            Ok(Some(ticket)) => {
                if ticket.token == token {
                    return true;
                }
            }
            Ok(None) => return false,
            Err(_) => return false,
        }
    }
    unreachable!()
}

// Takes the lock and leaves it, that many times; answers how often it held.
fn take_turns<R: Wait>(rt: &R, alloc: Global, store: &Store, mut desk: Desk, turns: u32) -> u64
    requires { IsDesk store.now desk }
{
    let mut held = 0;
    for _turn in 0..turns {
        let Ok(place) = desk.ask(rt, alloc, store) else {
            return held;
        };
        if wait_for(rt, alloc, store, &mut desk, place.token) {
            held += 1;
        }
        let _left = desk.leave(rt, alloc, store);
    }
    held
}

// Two desks take turns, each on a thread of its own; answers how often each of them held.
fn take_turns_beside<R: Threads + Wait + Sync>(
    rt: &R,
    alloc: Global,
    store: &Store,
    ann: Desk,
    bob: Desk,
    turns: u32,
) -> Result<(u64, u64), AllocError>
    requires ann { IsDesk store.now ann }
    requires bob { IsDesk store.now bob }
{
    thread::scope(
        thread::scope_env(),
        rt,
        move |scope| -> Result<(u64, u64), AllocError>
            requires { IsDesk store.now ann × IsDesk store.now bob }
        {
            let first = scope.spawn(move || take_turns(rt, alloc, store, ann, turns))?;
            let second = scope.spawn(move || take_turns(rt, alloc, store, bob, turns))?;
            Ok((first.join(rt), second.join(rt)))
        },
    )
}

// Asks, and says how many are before.
fn say_ask<R: Wait + Print>(
    rt: &R,
    alloc: Global,
    store: &Store,
    name: &str,
    desk: &mut Desk,
) -> io::Result<()>
    requires { IsDesk store.now desk.old }
    ensures { IsDesk store.now desk.new }
{
    match desk.ask(rt, alloc, store) {
        Ok(place) => println!(rt; "{name} asks: {} before", place.before),
        Err(_) => println!(rt; "{name} asks: refused"),
    }
}

// Looks, and says which client holds.
fn say_holder<R: Wait + Print>(
    rt: &R,
    alloc: Global,
    store: &Store,
    name: &str,
    desk: &mut Desk,
) -> io::Result<()>
    requires { IsDesk store.now desk.old }
    ensures { IsDesk store.now desk.new }
{
    match desk.holder(rt, alloc, store) {
        Ok(Some(ticket)) => println!(rt; "{name} looks: client {} holds", ticket.client),
        Ok(None) => println!(rt; "{name} looks: free"),
        Err(_) => println!(rt; "{name} looks: refused"),
    }
}

fn main(rt: HostRuntime) -> io::Result<()> {
    let alloc = rt.alloc();
    let (store, mut clients) = open(alloc)?;
    let Some(mut cyd) = next_desk(alloc, &store, &mut clients) else {
        return Ok(());
    };
    let Some(mut bob) = next_desk(alloc, &store, &mut clients) else {
        return Ok(());
    };
    let Some(mut ann) = next_desk(alloc, &store, &mut clients) else {
        return Ok(());
    };
    say_ask(&rt, alloc, &store, "ann", &mut ann)?;
    say_ask(&rt, alloc, &store, "bob", &mut bob)?;
    say_holder(&rt, alloc, &store, "cyd", &mut cyd)?;
    let _left = ann.leave(&rt, alloc, &store);
    say_holder(&rt, alloc, &store, "cyd", &mut cyd)?;
    let _left = bob.leave(&rt, alloc, &store);
    let (first, second) = take_turns_beside(&rt, alloc, &store, ann, bob, 5)?;
    println!(rt; "ann has held {first} times more, bob {second}")?;
    say_holder(&rt, alloc, &store, "cyd", &mut cyd)
}
