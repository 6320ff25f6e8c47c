// One command of an object.
ghost use Rattle.std.specs.Prelude.{◌≡◌, ℕ, List, Some};
ghost use Rattle.script_text.specs.declared.script.Object.{Object};
ghost use Rattle.script_meaning.specs.States.{kind_in};
ghost use Rattle.log_client.specs.Clients.{IsClient};
ghost use Rattle.log_client.specs.Reading.{RestsOn};
ghost use Rattle.run_script.specs.Opened.{kind_opened, object_asked, HasCommand, IsOpenedOf, StaysOpen};
ghost use Rattle.run_script.specs.Serving.{ServesObject};

use crate::serving::gets::{deq, get};
use crate::serving::opened::Opened;
use crate::serving::parts::{decide, peek};
use crate::serving::puts::{del, enq, put, put_all};
use crate::serving::reads::{commit, get_all, read};
use crate::serving::trees::{change, list};
use fuzzy_io::Gate;
use log_client::{Client, Store};
use report_text::Answer;
use script_text::{Use, What};
use std::alloc::Global;
use std::sync::Wait;
use tree_fold::{make_change, move_change, remove_change};

/// The number of the object that a command is of.
pub fn object_asked(what: &What) -> Option<u8>
    ensures { result ≡ object_asked what.now }
{
    match what.use_of() {
        Use::OfLog { .. } => None,
        Use::OfObject { object, .. } => Some(object),
    }
}

/// What the client answers to what is asked of it and of one of its objects.
#[tactic(auto, using(crate::proofs::ObjectFrames::gives_asked, lawful_run::proofs::CallerLemmas::key_is_word, lawful_run::proofs::CallerLemmas::pairs_are))]
pub fn object_answer<R: Wait, G: Gate>(
    rt: &R,
    alloc: Global,
    store: &Store,
    gate: &G,
    client: &mut Client,
    opened: &mut Opened,
    what: What,
) -> Answer
    requires client { IsClient store.now client.old }
    requires kept { IsOpenedOf client.old opened.old }
    requires has { HasCommand (kind_opened opened.old) what }
    ensures rests { RestsOn store.now client.old client.new }
    ensures stays { StaysOpen client.new opened.old opened.new }
    ensures gives { (objects : List Object) (object : ℕ) → object_asked what ≡ Some object
        → kind_in objects object ≡ Some (kind_opened opened.old)
        → ServesObject store.now objects client.old client.new object opened.old opened.new what result }
{
    match what {
        What::Put {
            object: _object,
            key,
            value,
        } => put(rt, alloc, store, gate, client, opened, key, value),
        What::Get {
            object: _object,
            key,
        } => get(rt, alloc, store, gate, client, opened, key),
        What::Del {
            object: _object,
            key,
        } => del(rt, alloc, store, gate, client, opened, key),
        What::Enq {
            object: _object,
            value,
        } => enq(rt, alloc, store, gate, client, opened, value),
        What::PutAll {
            object: _object,
            pairs,
        } => put_all(rt, alloc, store, gate, client, opened, pairs),
        What::GetAll {
            object: _object,
            keys,
        } => get_all(rt, alloc, store, gate, client, opened, keys),
        What::Read {
            object: _object,
            keys,
        } => read(rt, alloc, store, gate, client, opened, keys),
        What::Commit {
            object: _object,
            pairs,
        } => commit(rt, alloc, store, gate, client, opened, pairs),
        What::Deq { object: _object } => deq(rt, alloc, store, gate, client, opened),
        What::Mk {
            object: _object,
            path,
            value,
        } => {
            let said = make_change(alloc, path.as_bytes(), value.as_bytes());
            change(rt, alloc, store, gate, client, opened, said)
        }
        What::Rm {
            object: _object,
            path,
        } => {
            let said = remove_change(alloc, path.as_bytes());
            change(rt, alloc, store, gate, client, opened, said)
        }
        What::Mv {
            object: _object,
            source,
            target,
        } => {
            let said = move_change(alloc, source.as_bytes(), target.as_bytes());
            change(rt, alloc, store, gate, client, opened, said)
        }
        What::Ls {
            object: _object,
            path,
        } => list(rt, alloc, store, gate, client, opened, path),
        What::Peek {
            object: _object,
            key,
        } => peek(rt, alloc, store, gate, client, opened, key),
        What::Decide {
            object: _object,
            key,
        } => decide(rt, alloc, store, gate, client, opened, key),
        What::Append { .. } | What::Stop { .. } | What::Sync { .. } => unreachable!(),
        What::Scan { .. } | What::Pull { .. } | What::Trim { .. } => unreachable!(),
        What::Only { .. } => unreachable!(),
    }
}
