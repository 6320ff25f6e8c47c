// The shop: a store of two regions, and a stall in each.
ghost use Rattle.std.specs.Prelude.{◌≡◌, ◌<◌, length, IfOk};
ghost use Rattle.std.specs.List.{All};
ghost use Rattle.example_stalls.specs.Stalls.{IsShop, IsStall};

use crate::stall::{Drink, Stall};
use log_client::Store;
use log_node::{ListOf, Shape};
use std::alloc::{AllocError, Global};
use std::sync::Wait;
use std::thread;
use std::thread::Threads;

/// Two regions of one colour, and the stalls of both.
pub fn open(alloc: Global) -> Result<(Store, Vec<Stall>), AllocError>
    ensures shop { IfOk result (λ r. IsShop r.0) }
    ensures stalls { IfOk result (λ r. All (IsStall r.0) r.1.items) }
{
    let mut homes = ListOf::new(alloc);
    homes.push(0)?;
    homes.push(1)?;
    let shape = Shape {
        regions: 2,
        colours: 1,
        homes,
        rows: 1,
    };
    let (store, clients) = Store::open(alloc, &shape)?;
    let mut stalls = Vec::new(alloc);
    for client in clients.into_vec() {
        stalls.push(Stall::open(alloc, client)?)?;
    }
    Ok((store, stalls))
}

// The stall sells this many cups, every third of which is coffee. A cup that is refused is not sold.
fn sell_all<R: Wait>(rt: &R, alloc: Global, store: &Store, stall: &mut Stall, cups: u32)
    requires shop { IsShop store.now }
    requires stall { IsStall store.now stall.old }
    ensures { IsStall store.now stall.new }
{
    for cup in 0..cups {
        let drink = if cup % 3 == 2 {
            Drink::Coffee
        } else {
            Drink::Tea
        };
        let _sold = stall.sell(rt, alloc, store, drink);
    }
}

/// All stalls sell this many cups, each on a thread of its own; where no thread can be made, one after another.
pub fn sell_beside<R: Threads + Wait + Sync>(
    rt: &R,
    alloc: Global,
    store: &Store,
    stalls: &mut [Stall],
    cups: u32,
)
    requires shop { IsShop store.now }
    requires stalls { All (IsStall store.now) stalls.old }
    ensures stalls { All (IsStall store.now) stalls.new }
    ensures many { length stalls.new ≡ length stalls.old }
{
    let threads = stalls.len();
    if threads == 0 {
        return;
    }
    thread::for_each_mut(
        rt,
        stalls,
        threads,
        &|_place: usize, stall: &mut Stall|
            requires { IsShop store.now × IsStall store.now stall.now }
            ensures { IsStall store.entry.now stall.exit.now }
        { sell_all(rt, alloc, store, stall, cups) },
    );
}
