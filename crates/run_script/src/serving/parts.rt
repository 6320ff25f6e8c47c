// Commands of one colour of a transactional map.
ghost use Rattle.std.specs.Prelude.{◌≡◌, ◌<◌, IsTrue, IfOk, IfSome, length};
ghost use Rattle.log_client.specs.Clients.{IsClient};
ghost use Rattle.log_client.specs.Reading.{RestsOn};
ghost use Rattle.run_script.specs.Opened.{kind_opened, is_parts, IsOpenedOf, StaysOpen};
ghost use Rattle.run_script.specs.Replying.{peek_answer, HasPoint, HasRoomFor, ShowsDecide, ShowsEnd, ShowsNone};
ghost use Rattle.run_script.specs.Serving.{GivesTo};

use crate::serving::opened::Opened;
use crate::serving::reads::{ReadRoom, room_for};
use crate::serving::replies::{refused, sync_shown};
use crate::serving::scans::{raises_shown, syncs_shown};
use append_core::MultiFault;
use fuzzy_io::Gate;
use log_client::{Appended, Client, ObjectFault, Store, Synced, reads_go_on};
use log_node::Text;
use report_text::{Answer, Ended, PointPiece};
use script_text::What;
use std::alloc::Global;
use std::sync::Wait;
use tx_parts::{Decided, Peek};

// A peek.
fn peeked(call: Result<(Peek, Synced), ObjectFault>) -> Answer
    ensures { result ≡ peek_answer call }
{
    match call {
        Ok((peek, synced)) => {
            let sync = sync_shown(synced);
            match peek {
                Peek::Value(value) => Answer::Got { value, sync },
                Peek::Undecided { key } => Answer::Undecided {
                    stamp: key.stamp,
                    sync,
                },
            }
        }
        Err(fault) => refused(fault),
    }
}

/// Peeks at a key of a transactional map in its own colour alone.
pub fn peek<R: Wait, G: Gate>(
    rt: &R,
    alloc: Global,
    store: &Store,
    gate: &G,
    client: &mut Client,
    opened: &mut Opened,
    key: Text,
) -> Answer
    requires client { IsClient store.now client.old }
    requires kept { IsOpenedOf client.old opened.old }
    requires kind { IsTrue (is_parts (kind_opened opened.old)) }
    ensures rests { RestsOn store.now client.old client.new }
    ensures stays { StaysOpen client.new opened.old opened.new }
    ensures gives { GivesTo store.now client.old client.new opened.old opened.new
        (λ object. What.Peek object key) result }
{
    reads_go_on();
    match opened {
        Opened::Tx {
            players: Some(players),
            ..
        } => {
            let peek = players.peek(rt, alloc, client, store, gate, &key);
            peeked(peek)
        }
        _ => unreachable!(),
    }
}

// How the append of a decision ended, which has one colour.
fn ended_shown(appended: Result<Appended, MultiFault>) -> Ended
    requires { IfOk appended (λ a. 0 < length a.stood.points) }
    ensures { ShowsEnd appended result }
{
    match appended {
        Ok(appended) => {
            let point = appended.stood.points.as_slice()[0];
            Ended::Stood {
                stamp: appended.stood.key.stamp,
                point: PointPiece {
                    colour: point.colour,
                    at: point.at,
                    position: point.position,
                },
            }
        }
        Err(MultiFault::StampEnd { colour }) => Ended::StampEnd { colour },
        // No other fault comes of an append of one colour.
        Err(_) => Ended::NoMemory,
    }
}

// The answer to a decide, in the room that was taken for its read.
fn decide_shown(call: Result<(Synced, Option<Decided>), ObjectFault>, room: ReadRoom) -> Answer
    requires room { ShowsNone room }
    requires few { IfOk call (λ r. IfSome r.1 (λ decided. HasRoomFor room decided.read)) }
    requires point { IfOk call (λ r. IfSome r.1 HasPoint) }
    ensures { ShowsDecide call result }
{
    match call {
        Ok((synced, made)) => {
            let sync = sync_shown(synced);
            match made {
                Some(decided) => Answer::Decided {
                    commits: decided.commits,
                    stamp: decided.key.stamp,
                    sync,
                    read_stamp: decided.read.stamp,
                    raises: raises_shown(decided.read.raises.as_slice(), room.raises),
                    syncs: syncs_shown(decided.read.syncs.as_slice(), room.syncs),
                    ended: ended_shown(decided.appended),
                },
                None => Answer::Got { value: None, sync },
            }
        }
        Err(fault) => refused(fault),
    }
}

/// Decides on the transaction for which the colour of a key waits. The room for the reply is taken first: a decision that stands is
/// not refused.
pub fn decide<R: Wait, G: Gate>(
    rt: &R,
    alloc: Global,
    store: &Store,
    gate: &G,
    client: &mut Client,
    opened: &mut Opened,
    key: Text,
) -> Answer
    requires client { IsClient store.now client.old }
    requires kept { IsOpenedOf client.old opened.old }
    requires kind { IsTrue (is_parts (kind_opened opened.old)) }
    ensures rests { RestsOn store.now client.old client.new }
    ensures stays { StaysOpen client.new opened.old opened.new }
    ensures gives { GivesTo store.now client.old client.new opened.old opened.new
        (λ object. What.Decide object key) result }
{
    reads_go_on();
    match opened {
        Opened::Tx {
            players: Some(players),
            ..
        } => {
            let Ok(room) = room_for(alloc, players.colour_count()) else {
                return Answer::NoMemory;
            };
            let decide = players.decide(rt, alloc, client, store, gate, &key);
            decide_shown(decide, room)
        }
        _ => unreachable!(),
    }
}
