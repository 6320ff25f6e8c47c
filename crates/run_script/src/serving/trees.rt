// Commands of trees.
ghost use Rattle.std.specs.Prelude.{◌≡◌, ℕ, List, Some, IsTrue, IfOk};
ghost use Rattle.tree_fold.specs.Readings.{path_of};
ghost use Rattle.script_text.specs.declared.script.Object.{Object};
ghost use Rattle.script_text.specs.Fitting.{is_tree};
ghost use Rattle.script_meaning.specs.States.{kind_in};
ghost use Rattle.log_client.specs.Clients.{IsClient};
ghost use Rattle.log_client.specs.Reading.{RestsOn};
ghost use Rattle.run_script.specs.Changing.{AsksChange};
ghost use Rattle.run_script.specs.Opened.{kind_opened, object_asked, IsOpenedOf, StaysOpen};
ghost use Rattle.run_script.specs.Replying.{HasRoomFor, ShowsNone, names_answer};
ghost use Rattle.run_script.specs.Serving.{GivesTo, ServesObject};

use crate::serving::opened::Opened;
use crate::serving::reads::{ReadRoom, room_for, told_shown};
use crate::serving::replies::refused;
use crate::serving::scans::{raises_shown, syncs_shown};
use fuzzy_io::Gate;
use log_client::{Client, ObjectFault, StampedRead, Store};
use log_node::{Names, Text};
use report_text::Answer;
use script_text::What;
use std::alloc::{AllocError, Global};
use std::sync::Wait;
use tree_fold::{Change, Path, TreeFold};

// A change stands in a shard for each of its paths, of which it has two at most.
const MOST_POINTS: usize = 2;

/// Makes the change of a tree that the fields of a command say. The room for the reply is taken first, here and below: a change
/// that stands is not refused.
pub fn change<R: Wait, G: Gate>(
    rt: &R,
    alloc: Global,
    store: &Store,
    gate: &G,
    client: &mut Client,
    opened: &mut Opened,
    said: Result<Option<Change>, AllocError>,
) -> Answer
    requires client { IsClient store.now client.old }
    requires kept { IsOpenedOf client.old opened.old }
    requires kind { IsTrue (is_tree (kind_opened opened.old)) }
    requires asks { (what : What) × (asked : Change) × AsksChange what asked
        × IfOk said (λ found. found ≡ Some asked) }
    ensures rests { RestsOn store.now client.old client.new }
    ensures stays { StaysOpen client.new opened.old opened.new }
    ensures gives { (what : What) (asked : Change) → AsksChange what asked
        → IfOk said (λ found. found ≡ Some asked)
        → (objects : List Object) (object : ℕ) → object_asked what ≡ Some object
        → kind_in objects object ≡ Some (kind_opened opened.old)
        → ServesObject store.now objects client.old client.new object opened.old opened.new what result }
{
    let Ok(asked) = said else {
        return Answer::NoMemory;
    };
    let Some(change) = asked else {
        unreachable!();
    };
    let Ok(pieces) = Vec::with_capacity(alloc, MOST_POINTS) else {
        return Answer::NoMemory;
    };
    match opened {
        Opened::Tree(tree) => {
            let Ok(room) = room_for(alloc, tree.colour_count()) else {
                return Answer::NoMemory;
            };
            let changed = tree.change(rt, alloc, client, store, gate, &change);
            told_shown::<TreeFold>(changed, pieces, room)
        }
        _ => unreachable!(),
    }
}

// The answer to a list of names, in the room that was taken for its read.
fn names_shown(call: Result<(Option<Names>, StampedRead), ObjectFault>, room: ReadRoom) -> Answer
    requires room { ShowsNone room }
    requires few { IfOk call (λ r. HasRoomFor room r.1) }
    ensures { result ≡ names_answer call }
{
    match call {
        Ok((names, read)) => Answer::Listed {
            names,
            stamp: read.stamp,
            raises: raises_shown(read.raises.as_slice(), room.raises),
            syncs: syncs_shown(read.syncs.as_slice(), room.syncs),
        },
        Err(fault) => refused(fault),
    }
}

/// Lists the names in a path of a tree.
pub fn list<R: Wait, G: Gate>(
    rt: &R,
    alloc: Global,
    store: &Store,
    gate: &G,
    client: &mut Client,
    opened: &mut Opened,
    path: Text,
) -> Answer
    requires client { IsClient store.now client.old }
    requires kept { IsOpenedOf client.old opened.old }
    requires kind { IsTrue (is_tree (kind_opened opened.old)) }
    requires names { (place : List (List ℕ)) × (path_of path ≡ Some place) }
    ensures rests { RestsOn store.now client.old client.new }
    ensures stays { StaysOpen client.new opened.old opened.new }
    ensures gives { GivesTo store.now client.old client.new opened.old opened.new
        (λ object. What.Ls object path) result }
{
    let Ok(read) = Path::of(alloc, path.as_bytes()) else {
        return Answer::NoMemory;
    };
    let Some(place) = read else {
        unreachable!();
    };
    match opened {
        Opened::Tree(tree) => {
            let Ok(room) = room_for(alloc, tree.colour_count()) else {
                return Answer::NoMemory;
            };
            let listed = tree.list(rt, alloc, client, store, gate, &place);
            names_shown(listed, room)
        }
        _ => unreachable!(),
    }
}
