// Commands that append to an object.
ghost use Rattle.std.specs.Prelude.{IsTrue};
ghost use Rattle.object_form.specs.Forms.{is_word, ArePairs};
ghost use Rattle.script_text.specs.Fitting.{is_any_map, is_map, is_queue};
ghost use Rattle.log_client.specs.Clients.{IsClient};
ghost use Rattle.log_client.specs.Reading.{RestsOn};
ghost use Rattle.run_script.specs.Opened.{kind_opened, IsOpenedOf, StaysOpen};
ghost use Rattle.run_script.specs.Serving.{GivesTo};

use crate::serving::opened::Opened;
use crate::serving::replies::appended;
use fuzzy_io::Gate;
use log_client::{Client, Store, reads_go_on};
use log_node::{Pairs, Text};
use report_text::Answer;
use script_text::What;
use std::alloc::Global;
use std::sync::Wait;

/// Puts a value under a key of a map or of a causal map. The room for the point is taken first, here and below: a node that
/// stands is not refused.
pub fn put<R: Wait, G: Gate>(
    rt: &R,
    alloc: Global,
    store: &Store,
    gate: &G,
    client: &mut Client,
    opened: &mut Opened,
    key: Text,
    value: Text,
) -> Answer
    requires client { IsClient store.now client.old }
    requires kept { IsOpenedOf client.old opened.old }
    requires kind { IsTrue (is_any_map (kind_opened opened.old)) }
    requires key { IsTrue (is_word key) }
    requires value { IsTrue (is_word value) }
    ensures rests { RestsOn store.now client.old client.new }
    ensures stays { StaysOpen client.new opened.old opened.new }
    ensures gives { GivesTo store.now client.old client.new opened.old opened.new
        (λ object. What.Put object key value) result }
{
    reads_go_on();
    let Ok(pieces) = Vec::with_capacity(alloc, 1) else {
        return Answer::NoMemory;
    };
    match opened {
        Opened::Map { single, .. } => {
            let put = single.put(rt, alloc, client, store, gate, &key, &value);
            appended(put, pieces)
        }
        Opened::Causal(map) => {
            let put = map.put(rt, alloc, client, store, gate, &key, &value);
            appended(put, pieces)
        }
        _ => unreachable!(),
    }
}

/// Puts several pairs of a map at once. There are no more points than colours.
pub fn put_all<R: Wait, G: Gate>(
    rt: &R,
    alloc: Global,
    store: &Store,
    gate: &G,
    client: &mut Client,
    opened: &mut Opened,
    pairs: Pairs,
) -> Answer
    requires client { IsClient store.now client.old }
    requires kept { IsOpenedOf client.old opened.old }
    requires kind { IsTrue (is_map (kind_opened opened.old)) }
    requires pairs { ArePairs 4 pairs }
    ensures rests { RestsOn store.now client.old client.new }
    ensures stays { StaysOpen client.new opened.old opened.new }
    ensures gives { GivesTo store.now client.old client.new opened.old opened.new
        (λ object. What.PutAll object pairs) result }
{
    let Ok(pieces) = Vec::with_capacity(alloc, pairs.len()) else {
        return Answer::NoMemory;
    };
    match opened {
        Opened::Map { several, .. } => {
            let put = several.put_all(rt, alloc, client, store, gate, &pairs);
            appended(put, pieces)
        }
        _ => unreachable!(),
    }
}

/// Deletes a key of a map.
pub fn del<R: Wait, G: Gate>(
    rt: &R,
    alloc: Global,
    store: &Store,
    gate: &G,
    client: &mut Client,
    opened: &mut Opened,
    key: Text,
) -> Answer
    requires client { IsClient store.now client.old }
    requires kept { IsOpenedOf client.old opened.old }
    requires kind { IsTrue (is_map (kind_opened opened.old)) }
    requires key { IsTrue (is_word key) }
    ensures rests { RestsOn store.now client.old client.new }
    ensures stays { StaysOpen client.new opened.old opened.new }
    ensures gives { GivesTo store.now client.old client.new opened.old opened.new
        (λ object. What.Del object key) result }
{
    reads_go_on();
    let Ok(pieces) = Vec::with_capacity(alloc, 1) else {
        return Answer::NoMemory;
    };
    match opened {
        Opened::Map { single, .. } => {
            let del = single.del(rt, alloc, client, store, gate, &key);
            appended(del, pieces)
        }
        _ => unreachable!(),
    }
}

/// Enqueues a value.
pub fn enq<R: Wait, G: Gate>(
    rt: &R,
    alloc: Global,
    store: &Store,
    gate: &G,
    client: &mut Client,
    opened: &mut Opened,
    value: Text,
) -> Answer
    requires client { IsClient store.now client.old }
    requires kept { IsOpenedOf client.old opened.old }
    requires kind { IsTrue (is_queue (kind_opened opened.old)) }
    requires value { IsTrue (is_word value) }
    ensures rests { RestsOn store.now client.old client.new }
    ensures stays { StaysOpen client.new opened.old opened.new }
    ensures gives { GivesTo store.now client.old client.new opened.old opened.new
        (λ object. What.Enq object value) result }
{
    let Ok(pieces) = Vec::with_capacity(alloc, 1) else {
        return Answer::NoMemory;
    };
    match opened {
        Opened::Queue(queue) => {
            let enq = queue.enq(rt, alloc, client, store, gate, &value);
            appended(enq, pieces)
        }
        _ => unreachable!(),
    }
}
