// What clients tell one another, trims by a snapshot of another column or by an older one, and raises.
ghost use Rattle.std.specs.Prelude.{◌≡◌};
ghost use Rattle.log_client.specs.Clients.{IsClient};
ghost use Rattle.tests_clients.specs.Stores.{IsSmall};

use crate::tests::made::opened;
use append_core::MultiFault;
use column::OnlyFault;
use fuzzy_io::OpenGate;
use log_client::{Client, Store, TrimFault};
use log_node::{At, Colours, MAX_STAMP, Text};
use playback::Snapshot;
use std::alloc::Global;
use std::process::Abort;
use std::sync::Wait;
use std::test::Fail;

/// The client appends a text to the first colour.
pub(crate) fn append<R: Wait>(
    rt: &R,
    alloc: Global,
    store: &Store,
    client: &mut Client,
    text: &[u8],
) -> Result<(), Fail>
    requires store { IsSmall store.now }
    requires client { IsClient store.now client.old }
    ensures client { IsClient store.now client.new }
{
    let text = Text::copied(alloc, text)?;
    let first = Colours::of(&[0]);
    client.append(rt, alloc, store, &OpenGate, first, text, None)?;
    Ok(())
}

// The first client appends and tells the second, which syncs and has then played the node.
fn told<R: Wait + Abort>(
    rt: &R,
    alloc: Global,
    store: &Store,
    one: &mut Client,
    two: &mut Client,
) -> Result<(), Fail>
    requires store { IsSmall store.now }
    requires clients { IsClient store.now one.old × IsClient store.now two.old }
{
    append(rt, alloc, store, one, b"one")?;
    let note = one.tell(alloc, store)?;
    two.hear(store, note);
    let synced = two.sync(rt, alloc, store, 0)?;
    assert_eq!(rt; (synced.events, synced.count), (1, 1));
    assert_eq!(rt; two.played(0).len(), 1);
    Ok(())
}

#[test]
fn a_client_that_was_told_plays_what_the_teller_saw(rt: HostRuntime) -> Result<(), Fail> {
    let (store, mut one, mut two) = opened(rt.alloc())?;
    told(&rt, rt.alloc(), &store, &mut one, &mut two)
}

// The client trims by the snapshot, which is an event at the place, and its own nodes up to the base are then dropped.
fn trims<R: Wait + Abort>(
    rt: &R,
    store: &Store,
    client: &mut Client,
    snapshot: &Snapshot,
    wanted: (At, u64),
) -> Result<(), Fail>
    requires store { IsSmall store.now }
    requires client { IsClient store.now client.old }
    ensures client { IsClient store.now client.new }
{
    let (at, base) = client.trim(rt, store, 0, snapshot)?;
    assert_eq!(rt; (at, base.of_region(0)), wanted);
    Ok(())
}

// The client syncs behind each of two appends, and trims by the snapshot of the first sync and then by that of the second.
fn trims_by_each<R: Wait + Abort>(
    rt: &R,
    alloc: Global,
    store: &Store,
    client: &mut Client,
) -> Result<(), Fail>
    requires store { IsSmall store.now }
    requires client { IsClient store.now client.old }
{
    append(rt, alloc, store, client, b"one")?;
    let first = client.sync(rt, alloc, store, 0)?;
    append(rt, alloc, store, client, b"two")?;
    let second = client.sync(rt, alloc, store, 0)?;
    trims(rt, store, client, &first.snapshot, (At::Event(2), 1))?;
    trims(rt, store, client, &second.snapshot, (At::Event(3), 2))
}

#[test]
fn a_trim_by_an_older_snapshot_drops_what_that_one_has(rt: HostRuntime) -> Result<(), Fail> {
    let (store, mut one, _two) = opened(rt.alloc())?;
    trims_by_each(&rt, rt.alloc(), &store, &mut one)
}

#[test]
fn a_snapshot_of_another_colour_trims_nothing(rt: HostRuntime) -> Result<(), Fail> {
    let (store, mut one, _two) = opened(rt.alloc())?;
    let snapshot = one.snapshot(1);
    let trimmed = one.trim(&rt, &store, 0, &snapshot);
    let told = TrimFault::OtherColumn {
        region: 0,
        colour: 1,
    };
    assert!(rt; matches!(trimmed, Err(fault) if fault == told));
    Ok(())
}

// An append to the first colour finds no stamp there.
fn finds_no_stamp<R: Wait + Abort>(
    rt: &R,
    alloc: Global,
    store: &Store,
    client: &mut Client,
) -> Result<(), Fail>
    requires store { IsSmall store.now }
    requires client { IsClient store.now client.old }
    ensures client { IsClient store.now client.new }
{
    let text = Text::copied(alloc, b"one")?;
    let first = Colours::of(&[0]);
    let appended = client.append(rt, alloc, store, &OpenGate, first, text, None);
    let told = MultiFault::StampEnd { colour: 0 };
    assert!(rt; matches!(appended, Err(fault) if fault == told));
    Ok(())
}

// One to the second colour stands there, and is played.
fn finds_a_stamp<R: Wait + Abort>(
    rt: &R,
    alloc: Global,
    store: &Store,
    client: &mut Client,
) -> Result<(), Fail>
    requires store { IsSmall store.now }
    requires client { IsClient store.now client.old }
    ensures client { IsClient store.now client.new }
{
    let text = Text::copied(alloc, b"two")?;
    let second = Colours::of(&[1]);
    client.append(rt, alloc, store, &OpenGate, second, text, None)?;
    let synced = client.sync(rt, alloc, store, 1)?;
    assert_eq!(rt; (synced.events, synced.count), (1, 1));
    Ok(())
}

// The client raises the first colour's column to the greatest stamp, and then appends to each colour.
fn raises_to_the_end<R: Wait + Abort>(
    rt: &R,
    alloc: Global,
    store: &Store,
    client: &mut Client,
) -> Result<(), Fail>
    requires store { IsSmall store.now }
    requires client { IsClient store.now client.old }
{
    let at = client.raise(rt, store, 0, MAX_STAMP)?;
    assert_eq!(rt; at, At::Event(0));
    finds_no_stamp(rt, alloc, store, client)?;
    finds_a_stamp(rt, alloc, store, client)
}

#[test]
fn a_column_raised_to_the_greatest_stamp_takes_no_append(rt: HostRuntime) -> Result<(), Fail> {
    let (store, mut one, _two) = opened(rt.alloc())?;
    raises_to_the_end(&rt, rt.alloc(), &store, &mut one)
}

// A node of the first colour that may only stand next is refused so.
fn does_not_stand_next<R: Wait + Abort>(
    rt: &R,
    alloc: Global,
    store: &Store,
    client: &mut Client,
    wanted: OnlyFault,
) -> Result<(), Fail>
    requires store { IsSmall store.now }
    requires client { IsClient store.now client.old }
    ensures client { IsClient store.now client.new }
{
    let text = Text::copied(alloc, b"two")?;
    let appended = client.only(rt, alloc, store, 0, text);
    assert!(rt; matches!(appended, Err(fault) if fault == wanted));
    Ok(())
}

// The line has a node that the client has not played, and no stamp is left: the first is told until the node is played.
fn stands_next_at_no_stamp<R: Wait + Abort>(
    rt: &R,
    alloc: Global,
    store: &Store,
    client: &mut Client,
) -> Result<(), Fail>
    requires store { IsSmall store.now }
    requires client { IsClient store.now client.old }
{
    append(rt, alloc, store, client, b"one")?;
    client.raise(rt, store, 0, MAX_STAMP)?;
    let moved = OnlyFault::Moved {
        length: 1,
        waiting: 0,
        events: 2,
    };
    does_not_stand_next(rt, alloc, store, client, moved)?;
    client.sync(rt, alloc, store, 0)?;
    let end = OnlyFault::StampEnd {
        colour: 0,
        clock: MAX_STAMP,
    };
    does_not_stand_next(rt, alloc, store, client, end)
}

#[test]
fn a_line_that_is_longer_is_told_before_the_end_of_the_stamps(rt: HostRuntime) -> Result<(), Fail> {
    let (store, mut one, _two) = opened(rt.alloc())?;
    stands_next_at_no_stamp(&rt, rt.alloc(), &store, &mut one)
}
