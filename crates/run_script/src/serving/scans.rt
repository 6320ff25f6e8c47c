// Scans.
ghost use Rattle.std.specs.Prelude.{◌≡◌, ◌≤◌, [], length, map, vec_capacity};
ghost use Rattle.log_node.specs.Sets.{members};
ghost use Rattle.log_client.specs.Clients.{IsClient};
ghost use Rattle.log_client.specs.Appends.{AreColoursOf};
ghost use Rattle.log_client.specs.StampedReads.{raise_piece, sync_piece};
ghost use Rattle.run_script.specs.Serving.{ServesLog};

use log_client::{Client, Raised, StampedRead, Store, SyncFault, Synced};
use log_node::{Colours, Items, ListOf};
use report_text::{Answer, RaisePiece, SyncPiece};
use script_text::What;
use std::alloc::Global;
use std::sync::Wait;

/// Raises, in the room that was taken for them.
pub fn raises_shown(raises: &[Raised], mut pieces: Vec<RaisePiece>) -> ListOf<RaisePiece>
    requires empty { pieces.items ≡ [] }
    requires room { length raises.now ≤ vec_capacity pieces }
    ensures { result ≡ map raise_piece raises.now }
{
    for raise in raises {
        pieces.push_reserved(RaisePiece {
            colour: raise.colour,
            at: raise.at,
        });
    }
    ListOf::from(pieces)
}

/// Syncs, in the room that was taken for them.
pub fn syncs_shown(syncs: &[Synced], mut pieces: Vec<SyncPiece>) -> ListOf<SyncPiece>
    requires empty { pieces.items ≡ [] }
    requires room { length syncs.now ≤ vec_capacity pieces }
    ensures { result ≡ map sync_piece syncs.now }
{
    for sync in syncs {
        pieces.push_reserved(SyncPiece {
            colour: sync.snapshot.colour,
            events: sync.events,
            counts: sync.snapshot.counts,
        });
    }
    ListOf::from(pieces)
}

// What a reply shows of a read, in the room that was taken for it.
fn read_shown(
    read: StampedRead,
    raise_pieces: Vec<RaisePiece>,
    sync_pieces: Vec<SyncPiece>,
) -> (Answer, Items)
    requires no_raises { raise_pieces.items ≡ [] }
    requires no_syncs { sync_pieces.items ≡ [] }
    requires raises_room { length read.raises ≤ vec_capacity raise_pieces }
    requires syncs_room { length read.syncs ≤ vec_capacity sync_pieces }
    ensures answer { result.0 ≡ Answer.Scanned read.stamp (length read.items)
        (map raise_piece read.raises) (map sync_piece read.syncs) }
    ensures items { result.1 ≡ read.items }
{
    let StampedRead {
        stamp,
        raises,
        syncs,
        items,
    } = read;
    let nodes = items.len() as u64;
    let answer = Answer::Scanned {
        stamp,
        nodes,
        raises: raises_shown(raises.as_slice(), raise_pieces),
        syncs: syncs_shown(syncs.as_slice(), sync_pieces),
    };
    (answer, items)
}

// The scan, whose raises and syncs have room.
fn scan_with<R: Wait>(
    rt: &R,
    alloc: Global,
    store: &Store,
    client: &mut Client,
    colours: Colours,
    raise_pieces: Vec<RaisePiece>,
    sync_pieces: Vec<SyncPiece>,
) -> (Answer, Items)
    requires client { IsClient store.now client.old }
    requires colours { AreColoursOf store.now colours }
    requires no_raises { raise_pieces.items ≡ [] }
    requires no_syncs { sync_pieces.items ≡ [] }
    requires raises_room { length (members colours) ≤ vec_capacity raise_pieces }
    requires syncs_room { length (members colours) ≤ vec_capacity sync_pieces }
    ensures { ServesLog store.now client.old client.new (What.Scan colours) result.0 result.1 }
{
    match client.stamped_read(rt, alloc, store, colours) {
        Ok(read) => read_shown(read, raise_pieces, sync_pieces),
        Err(SyncFault::Trimmed { colour, base }) => {
            (Answer::Trimmed { colour, base }, ListOf::new(alloc))
        }
        Err(SyncFault::NoMemory) => (Answer::NoMemory, ListOf::new(alloc)),
    }
}

/// A stamped read of the colours, with its nodes. The room for what it shows of raises and syncs is taken first: a read that
/// was done is not refused for it.
pub fn scan<R: Wait>(
    rt: &R,
    alloc: Global,
    store: &Store,
    client: &mut Client,
    colours: Colours,
) -> (Answer, Items)
    requires client { IsClient store.now client.old }
    requires colours { AreColoursOf store.now colours }
    ensures { ServesLog store.now client.old client.new (What.Scan colours) result.0 result.1 }
{
    let _bits = colours.0;
    let Ok(raises) = Vec::with_capacity(alloc, colours.count()) else {
        return (Answer::NoMemory, ListOf::new(alloc));
    };
    let Ok(syncs) = Vec::with_capacity(alloc, colours.count()) else {
        return (Answer::NoMemory, ListOf::new(alloc));
    };
    scan_with(rt, alloc, store, client, colours, raises, syncs)
}
