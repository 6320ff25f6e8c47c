// Commands that answer by an object after a stamped read.
ghost use Rattle.std.specs.Prelude.{◌≡◌, ◌+◌, ◌≤◌, [], Some, IsTrue, IfOk, IfSome, length, vec_capacity};
ghost use Rattle.lawful_run.specs.Objects.{AreAnswers};
ghost use Rattle.object_form.specs.Forms.{ArePairs, AreVersions};
ghost use Rattle.script_text.specs.Fitting.{is_map, is_tx};
ghost use Rattle.script_text.specs.Grammar.{are_keys};
ghost use Rattle.log_client.specs.Clients.{IsClient};
ghost use Rattle.log_client.specs.Reading.{RestsOn};
ghost use Rattle.run_script.specs.Opened.{kind_opened, IsOpenedOf, StaysOpen};
ghost use Rattle.run_script.specs.Replying.{HasPlaces, HasRoomFor, ShowsKeys, ShowsNone, keys_found, tx_found, told_answer};
ghost use Rattle.run_script.specs.Serving.{GivesTo};

use crate::serving::appends::pieces_of;
use crate::serving::opened::Opened;
use crate::serving::replies::refused;
use crate::serving::scans::{raises_shown, syncs_shown};
use fuzzy_io::Gate;
use log_client::{Appended, Client, ObjectFault, StampedRead, Store, reads_go_on};
use log_node::{Keys, ListOf, Pairs};
use object_fold::{TxState, Values};
use region_fold::Tx;
use report_text::{Answer, KeyAnswer, PointPiece, RaisePiece, SyncPiece};
use script_in_order::Shown;
use script_text::What;
use std::alloc::{AllocError, Global};
use std::mem;
use std::sync::Wait;

/// The room for what a reply shows of a stamped read.
#[derive(Drop)]
pub struct ReadRoom {
    pub raises: Vec<RaisePiece>,
    pub syncs: Vec<SyncPiece>,
}

/// Room for a stamped read of so many colours.
pub fn room_for(alloc: Global, colours: usize) -> Result<ReadRoom, AllocError>
    ensures empty { IfOk result ShowsNone }
    ensures places { IfOk result (HasPlaces colours) }
{
    let raises = Vec::with_capacity(alloc, colours)?;
    let syncs = Vec::with_capacity(alloc, colours)?;
    Ok(ReadRoom { raises, syncs })
}

// Keys with their values, in the room that was taken for them.
fn answers_shown(keys: Keys, values: Values, mut answers: Vec<KeyAnswer>) -> ListOf<KeyAnswer>
    requires empty { answers.items ≡ [] }
    requires room { length keys ≤ vec_capacity answers }
    requires many { length values ≡ length keys }
    ensures { AreAnswers keys values result }
{
    let mut values = values.into_vec().into_iter();
    for key in keys.into_vec() {
        match values.next() {
            Some(value) => answers.push_reserved(KeyAnswer { key, value }),
            None => unreachable!(),
        }
    }
    ListOf::from(answers)
}

// The answer to a read of keys, in the room that was taken for it.
fn got_keys(
    keys: Keys,
    call: Result<(Values, StampedRead), ObjectFault>,
    answers: Vec<KeyAnswer>,
    room: ReadRoom,
) -> Answer
    requires empty { answers.items ≡ [] }
    requires answers { length keys ≤ vec_capacity answers }
    requires room { ShowsNone room }
    requires many { IfOk call (λ r. length r.0 ≡ length keys) }
    requires few { IfOk call (λ r. HasRoomFor room r.1) }
    ensures { ShowsKeys keys call result }
{
    match call {
        Ok((values, read)) => Answer::GotKeys {
            stamp: read.stamp,
            keys: answers_shown(keys, values, answers),
            raises: raises_shown(read.raises.as_slice(), room.raises),
            syncs: syncs_shown(read.syncs.as_slice(), room.syncs),
        },
        Err(fault) => refused(fault),
    }
}

/// The values of several keys of a map. The room for the reply is taken first, here and below: a read that was done is not
/// refused for it.
pub fn get_all<R: Wait, G: Gate>(
    rt: &R,
    alloc: Global,
    store: &Store,
    gate: &G,
    client: &mut Client,
    opened: &mut Opened,
    keys: Keys,
) -> Answer
    requires client { IsClient store.now client.old }
    requires kept { IsOpenedOf client.old opened.old }
    requires kind { IsTrue (is_map (kind_opened opened.old)) }
    requires keys { IsTrue (are_keys 4 keys) }
    ensures rests { RestsOn store.now client.old client.new }
    ensures stays { StaysOpen client.new opened.old opened.new }
    ensures gives { GivesTo store.now client.old client.new opened.old opened.new
        (λ object. What.GetAll object keys) result }
{
    let Ok(answers) = Vec::with_capacity(alloc, keys.len()) else {
        return Answer::NoMemory;
    };
    let Ok(room) = room_for(alloc, keys.len()) else {
        return Answer::NoMemory;
    };
    match opened {
        Opened::Map { several, .. } => {
            let get = several.get_all(rt, alloc, client, store, gate, &keys);
            got_keys(keys, get, answers, room)
        }
        _ => unreachable!(),
    }
}

// What a read of a transactional map found for its reply, and what for a commit.
fn found_apart(
    call: Result<(Values, Tx, StampedRead), ObjectFault>,
) -> (Result<(Values, StampedRead), ObjectFault>, Option<Tx>)
    ensures keys { result.0 ≡ keys_found call }
    ensures tx { result.1 ≡ tx_found call }
{
    match call {
        Ok((values, tx, read)) => (Ok((values, read)), Some(tx)),
        Err(fault) => (Err(fault), None),
    }
}

/// Reads keys of a transactional map, and keeps what a commit may rest on in place of what an earlier read found, which is let
/// go whatever comes.
pub fn read<R: Wait, G: Gate>(
    rt: &R,
    alloc: Global,
    store: &Store,
    gate: &G,
    client: &mut Client,
    opened: &mut Opened,
    keys: Keys,
) -> Answer
    requires client { IsClient store.now client.old }
    requires kept { IsOpenedOf client.old opened.old }
    requires kind { IsTrue (is_tx (kind_opened opened.old)) }
    requires keys { IsTrue (are_keys 2 keys) }
    ensures rests { RestsOn store.now client.old client.new }
    ensures stays { StaysOpen client.new opened.old opened.new }
    ensures gives { GivesTo store.now client.old client.new opened.old opened.new
        (λ object. What.Read object keys) result }
{
    reads_go_on();
    match opened {
        Opened::Tx { map, found, .. } => {
            *found = None;
            let Ok(answers) = Vec::with_capacity(alloc, keys.len()) else {
                return Answer::NoMemory;
            };
            let Ok(room) = room_for(alloc, map.colour_count()) else {
                return Answer::NoMemory;
            };
            let (read, tx) = found_apart(map.read(rt, alloc, client, store, gate, &keys));
            *found = tx;
            got_keys(keys, read, answers, room)
        }
        _ => unreachable!(),
    }
}

/// The answer to a command that is told what becomes of its node, in the room that was taken for it.
pub fn told_shown<F: Shown>(
    call: Result<(F::Told, Appended, StampedRead), ObjectFault>,
    pieces: Vec<PointPiece>,
    room: ReadRoom,
) -> Answer
    requires empty { pieces.items ≡ [] }
    requires points { IfOk call (λ r. length r.1.stood.points ≤ vec_capacity pieces) }
    requires room { ShowsNone room }
    requires few { IfOk call (λ r. HasRoomFor room r.2) }
    ensures { result ≡ told_answer F.shown call }
{
    match call {
        Ok((told, own, read)) => F::show(
            told,
            own.row,
            ListOf::from(pieces_of(own.stood.points.as_slice(), pieces)),
            read.stamp,
            raises_shown(read.raises.as_slice(), room.raises),
            syncs_shown(read.syncs.as_slice(), room.syncs),
        ),
        Err(fault) => refused(fault),
    }
}

// A commit stands in no more colours than it reads and writes keys.
fn most_points(found: &Option<Tx>, pairs: &Pairs) -> usize
    requires found { IfSome found.now (λ tx. AreVersions tx.versions) }
    requires pairs { ArePairs 2 pairs.now }
    ensures { (rests : Tx) → found.now ≡ Some rests → result ≡ length rests.versions + length pairs.now }
{
    match found {
        Some(tx) => tx.versions.len() + pairs.len(),
        None => 0,
    }
}

/// Commits writes that rest on what the last read found, which is used up whatever comes.
pub fn commit<R: Wait, G: Gate>(
    rt: &R,
    alloc: Global,
    store: &Store,
    gate: &G,
    client: &mut Client,
    opened: &mut Opened,
    pairs: Pairs,
) -> Answer
    requires client { IsClient store.now client.old }
    requires kept { IsOpenedOf client.old opened.old }
    requires kind { IsTrue (is_tx (kind_opened opened.old)) }
    requires pairs { ArePairs 2 pairs }
    ensures rests { RestsOn store.now client.old client.new }
    ensures stays { StaysOpen client.new opened.old opened.new }
    ensures gives { GivesTo store.now client.old client.new opened.old opened.new
        (λ object. What.Commit object pairs) result }
{
    reads_go_on();
    match opened {
        Opened::Tx { map, found, .. } => {
            let tx = mem::replace(found, None);
            let Ok(pieces) = Vec::with_capacity(alloc, most_points(&tx, &pairs)) else {
                return Answer::NoMemory;
            };
            let Ok(room) = room_for(alloc, map.colour_count()) else {
                return Answer::NoMemory;
            };
            let commit = map.commit(rt, alloc, client, store, gate, tx, &pairs);
            told_shown::<TxState>(commit, pieces, room)
        }
        _ => unreachable!(),
    }
}
