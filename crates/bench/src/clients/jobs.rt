// What clients of a store do that is measured.
ghost use Rattle.std.specs.Prelude.{◌≡◌, ◌<◌, ◌+◌, IfOk, length};
ghost use Rattle.std.specs.List.{All};
ghost use Rattle.log_node.specs.declared.limits.TheConstants.{MAX_CLIENTS};
ghost use Rattle.log_client.specs.Appends.{AreColoursOf};
ghost use Rattle.log_client.specs.Clients.{IsClient};
ghost use Rattle.bench.specs.Stores.{IsBench};

use fuzzy_io::OpenGate;
use log_client::{Client, Store};
use log_node::{Colours, ListOf, MAX_CLIENTS, MAX_ROWS, Shape, Text};
use std::alloc::{AllocError, Global};
use std::sync::Wait;
use std::thread;
use std::thread::Threads;

// So many clients of the first region, and one of the second behind them.
fn homes(alloc: Global, clients: u8) -> Result<ListOf<u8>, AllocError>
    ensures { IfOk result (λ homes. (length homes ≡ clients + 1) × All (λ home. home < 2) homes) }
{
    let mut homes = ListOf::new(alloc);
    for _ in 0..clients {
        homes.push(0)?;
    }
    homes.push(1)?;
    Ok(homes)
}

/// Two regions of two colours, with this many clients of the first and then one of the second, each with all the rows that
/// there may be.
pub fn open(alloc: Global, clients: u8) -> Result<(Store, Vec<Client>, Client), AllocError>
    requires few { clients < MAX_CLIENTS }
    ensures store { IfOk result (λ r. IsBench r.0) }
    ensures clients { IfOk result (λ r. All (IsClient r.0) r.1.items) }
    ensures away { IfOk result (λ r. IsClient r.0 r.2) }
{
    let shape = Shape {
        regions: 2,
        colours: 2,
        homes: homes(alloc, clients)?,
        rows: MAX_ROWS,
    };
    let (store, clients) = Store::open(alloc, &shape)?;
    let mut clients = clients.into_vec();
    match clients.pop() {
        Some(away) => Ok((store, clients, away)),
        None => unreachable!(),
    }
}

// The set of the first colour, or of both.
fn colours_of(both: bool) -> Colours
    ensures { (s : Store) → IsBench s → AreColoursOf s result }
{
    if both {
        return Colours::of(&[0, 1]);
    }
    Colours::of(&[0])
}

// The client appends a node to the first colour or to both.
fn append_one<R: Wait>(rt: &R, alloc: Global, store: &Store, client: &mut Client, both: bool)
    requires store { IsBench store.now }
    requires client { IsClient store.now client.old }
    ensures { IsClient store.now client.new }
{
    let colours = colours_of(both);
    let Ok(text) = Text::copied(alloc, b"text") else {
        return;
    };
    let _answer = client.append(rt, alloc, store, &OpenGate, colours, text, None);
}

/// The client appends this many nodes to the first colour or to both.
pub fn append_all<R: Wait>(
    rt: &R,
    alloc: Global,
    store: &Store,
    client: &mut Client,
    both: bool,
    appends: u64,
)
    requires store { IsBench store.now }
    requires client { IsClient store.now client.old }
    ensures { IsClient store.now client.new }
{
    for _ in 0..appends {
        append_one(rt, alloc, store, client, both);
    }
}

/// The clients append this many nodes each, to the first colour or to both, each on a thread of its own.
pub fn append_beside<R: Threads + Wait + Sync>(
    rt: &R,
    alloc: Global,
    store: &Store,
    clients: &mut [Client],
    both: bool,
    appends: u64,
)
    requires store { IsBench store.now }
    requires clients { All (IsClient store.now) clients.old }
{
    let threads = clients.len();
    if threads == 0 {
        return;
    }
    thread::for_each_mut(
        rt,
        clients,
        threads,
        &|_place: usize, client: &mut Client|
            requires { IsBench store.now × IsClient store.now client.now }
        { append_all(rt, alloc, store, client, both, appends) },
    );
}

/// The client pulls the first colour from the first region. Says how many nodes it brought.
pub fn pulled<R: Wait>(rt: &R, alloc: Global, store: &Store, client: &mut Client) -> u64
    requires store { IsBench store.now }
    requires client { IsClient store.now client.old }
    ensures { IsClient store.now client.new }
{
    match client.pull(rt, store, 0, 0) {
        Ok(pulled) => pulled.nodes,
        Err(_) => 0,
    }
}

/// The client syncs the first colour. Says how many nodes it played.
pub fn played<R: Wait>(rt: &R, alloc: Global, store: &Store, client: &mut Client) -> u64
    requires store { IsBench store.now }
    requires client { IsClient store.now client.old }
    ensures { IsClient store.now client.new }
{
    match client.sync(rt, alloc, store, 0) {
        Ok(synced) => synced.count,
        Err(_) => 0,
    }
}
