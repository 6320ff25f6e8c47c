// What a client's append to the first colour finds that may only stand next: its own node and another's that it has not played, and
// an entry that is open.
ghost use Rattle.log_client.specs.Clients.{IsClient};
ghost use Rattle.tests_clients.specs.Stores.{IsSmall};

use crate::tests::clients::append;
use crate::tests::made::opened;
use crate::tests::shown::stands_at;
use column::OnlyFault;
use fuzzy_io::OpenGate;
use log_client::{Client, Store};
use log_node::{Colours, Text};
use std::alloc::Global;
use std::process::Abort;
use std::sync::Wait;
use std::test::Fail;

// It stands under the stamp, by this event, at the position with the same number.
fn stands_next<R: Wait + Abort>(
    rt: &R,
    alloc: Global,
    store: &Store,
    client: &mut Client,
    stamp: u64,
    place: u64,
) -> Result<(), Fail>
    requires store { IsSmall store.now }
    requires client { IsClient store.now client.old }
    ensures client { IsClient store.now client.new }
{
    let text = Text::copied(alloc, b"next")?;
    let appended = client.only(rt, alloc, store, 0, text)?;
    stands_at(rt, &appended, stamp, None, &[(0, place, place)]);
    Ok(())
}

// It finds so long a line, so many open entries, after so many events.
fn finds_moved<R: Wait + Abort>(
    rt: &R,
    alloc: Global,
    store: &Store,
    client: &mut Client,
    moved: (u64, u64, u64),
) -> Result<(), Fail>
    requires store { IsSmall store.now }
    requires client { IsClient store.now client.old }
    ensures client { IsClient store.now client.new }
{
    let text = Text::copied(alloc, b"next")?;
    let (length, waiting, events) = moved;
    let told = OnlyFault::Moved {
        length,
        waiting,
        events,
    };
    let answer = client.only(rt, alloc, store, 0, text);
    assert!(rt; matches!(answer, Err(fault) if fault == told));
    Ok(())
}

// The client leaves its append to both colours open in the first.
fn leaves_open<R: Wait>(
    rt: &R,
    alloc: Global,
    store: &Store,
    client: &mut Client,
) -> Result<(), Fail>
    requires store { IsSmall store.now }
    requires client { IsClient store.now client.old }
    ensures client { IsClient store.now client.new }
{
    let text = Text::copied(alloc, b"open")?;
    let both = Colours::of(&[0, 1]);
    let _stopped = client.append(rt, alloc, store, &OpenGate, both, text, Some(2));
    Ok(())
}

// Of two clients the first appends so, before and behind what the second does.
fn stand_next<R: Wait + Abort>(
    rt: &R,
    alloc: Global,
    store: &Store,
    one: &mut Client,
    two: &mut Client,
) -> Result<(), Fail>
    requires store { IsSmall store.now }
    requires clients { IsClient store.now one.old × IsClient store.now two.old }
{
    stands_next(rt, alloc, store, one, 1, 0)?;
    finds_moved(rt, alloc, store, one, (1, 0, 1))?;
    one.sync(rt, alloc, store, 0)?;
    append(rt, alloc, store, two, b"two")?;
    finds_moved(rt, alloc, store, one, (2, 0, 2))?;
    one.sync(rt, alloc, store, 0)?;
    stands_next(rt, alloc, store, one, 3, 2)?;
    leaves_open(rt, alloc, store, two)?;
    one.sync(rt, alloc, store, 0)?;
    finds_moved(rt, alloc, store, one, (3, 1, 4))
}

#[test]
fn one_stands_only_where_nothing_came_between(rt: HostRuntime) -> Result<(), Fail> {
    let (store, mut one, mut two) = opened(rt.alloc())?;
    stand_next(&rt, rt.alloc(), &store, &mut one, &mut two)
}
