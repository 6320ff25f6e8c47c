// Appends, and stops within them.
ghost use Rattle.std.specs.Prelude.{◌≡◌, ◌≤◌, ◌<◌, [], length, map, vec_capacity};
ghost use Rattle.log_node.specs.Sets.{members};
ghost use Rattle.log_client.specs.Clients.{IsClient};
ghost use Rattle.log_client.specs.Appends.{AreColoursOf, IsStopWithin, piece_of};
ghost use Rattle.run_script.specs.Serving.{ServesLog};

use append_core::{MultiFault, Point};
use column::OnlyFault;
use fuzzy_io::Gate;
use log_client::{Client, Store};
use log_node::{Colours, ListOf, Text};
use report_text::{Answer, PointPiece, Points};
use script_text::What;
use std::alloc::Global;
use std::sync::Wait;

/// Where a node stands, in the room that was taken for its points.
pub fn pieces_of(points: &[Point], mut pieces: Vec<PointPiece>) -> Vec<PointPiece>
    requires empty { pieces.items ≡ [] }
    requires room { length points.now ≤ vec_capacity pieces }
    ensures { result.items ≡ map piece_of points.now }
{
    for point in points {
        pieces.push_reserved(PointPiece {
            colour: point.colour,
            at: point.at,
            position: point.position,
        });
    }
    pieces
}

/// The same as points.
pub fn shown(points: &[Point], pieces: Vec<PointPiece>) -> Points
    requires empty { pieces.items ≡ [] }
    requires room { length points.now ≤ vec_capacity pieces }
    ensures { result ≡ map piece_of points.now }
{
    Points::many(ListOf::from(pieces_of(points, pieces)))
}

// The answer to an append whose points have room.
fn append_with<R: Wait, G: Gate>(
    rt: &R,
    alloc: Global,
    store: &Store,
    gate: &G,
    client: &mut Client,
    colours: Colours,
    text: Text,
    pieces: Vec<PointPiece>,
) -> Answer
    requires client { IsClient store.now client.old }
    requires colours { AreColoursOf store.now colours }
    requires empty { pieces.items ≡ [] }
    requires room { length (members colours) ≤ vec_capacity pieces }
    ensures { ServesLog store.now client.old client.new (What.Append colours text) result [] }
{
    match client.append(rt, alloc, store, gate, colours, text, None) {
        Ok(appended) => Answer::Stood {
            stamp: appended.stood.key.stamp,
            row: appended.row,
            points: shown(appended.stood.points.as_slice(), pieces),
        },
        Err(MultiFault::Full { used }) => Answer::Full { used },
        Err(MultiFault::StampEnd { colour }) => Answer::StampEnd { colour },
        Err(MultiFault::Stopped { .. }) => unreachable!(),
        Err(MultiFault::NoMemory) => Answer::NoMemory,
    }
}

/// Appends a node, and shows where it stands. The room for its points is taken first: an append that stands is not refused.
pub fn append<R: Wait, G: Gate>(
    rt: &R,
    alloc: Global,
    store: &Store,
    gate: &G,
    client: &mut Client,
    colours: Colours,
    text: Text,
) -> Answer
    requires client { IsClient store.now client.old }
    requires colours { AreColoursOf store.now colours }
    ensures { ServesLog store.now client.old client.new (What.Append colours text) result [] }
{
    let _bits = colours.0;
    match Vec::with_capacity(alloc, colours.count()) {
        Ok(pieces) => append_with(rt, alloc, store, gate, client, colours, text, pieces),
        Err(_) => Answer::NoMemory,
    }
}

// The answer to a conditional append whose point has room.
fn only_with<R: Wait>(
    rt: &R,
    alloc: Global,
    store: &Store,
    client: &mut Client,
    colour: u8,
    text: Text,
    pieces: Vec<PointPiece>,
) -> Answer
    requires client { IsClient store.now client.old }
    requires colour { colour < store.now.size.colours }
    requires empty { pieces.items ≡ [] }
    requires room { 1 ≤ vec_capacity pieces }
    ensures { ServesLog store.now client.old client.new (What.Only colour text) result [] }
{
    match client.only(rt, alloc, store, colour, text) {
        Ok(appended) => Answer::Stood {
            stamp: appended.stood.key.stamp,
            row: appended.row,
            points: shown(appended.stood.points.as_slice(), pieces),
        },
        Err(
            OnlyFault::Moved {
                length,
                waiting,
                events,
            },
        ) => Answer::Moved {
            length,
            waiting,
            colour,
            events,
        },
        Err(OnlyFault::StampEnd { .. }) => Answer::StampEnd { colour },
        Err(OnlyFault::NoMemory) => Answer::NoMemory,
    }
}

/// Appends a node to one colour, only where nothing has come between, and shows where it stands or what it found. The room for its
/// point is taken first.
pub fn only<R: Wait>(
    rt: &R,
    alloc: Global,
    store: &Store,
    client: &mut Client,
    colour: u8,
    text: Text,
) -> Answer
    requires client { IsClient store.now client.old }
    requires colour { colour < store.now.size.colours }
    ensures { ServesLog store.now client.old client.new (What.Only colour text) result [] }
{
    match Vec::with_capacity(alloc, 1) {
        Ok(pieces) => only_with(rt, alloc, store, client, colour, text, pieces),
        Err(_) => Answer::NoMemory,
    }
}

/// Takes this many first steps of an append to several colours.
pub fn stop<R: Wait, G: Gate>(
    rt: &R,
    alloc: Global,
    store: &Store,
    gate: &G,
    client: &mut Client,
    steps: u8,
    colours: Colours,
    text: Text,
) -> Answer
    requires client { IsClient store.now client.old }
    requires colours { AreColoursOf store.now colours }
    requires steps { IsStopWithin colours steps }
    ensures { ServesLog store.now client.old client.new (What.Stop steps colours text) result [] }
{
    match client.append(rt, alloc, store, gate, colours, text, Some(steps)) {
        Ok(_) => unreachable!(),
        Err(MultiFault::Full { used }) => Answer::Full { used },
        Err(MultiFault::StampEnd { .. }) => unreachable!(),
        Err(MultiFault::Stopped { steps }) => Answer::Stopped { steps },
        Err(MultiFault::NoMemory) => Answer::NoMemory,
    }
}
