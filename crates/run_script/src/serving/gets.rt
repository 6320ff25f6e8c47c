// Commands that answer by an object after a sync.
ghost use Rattle.std.specs.Prelude.{IsTrue};
ghost use Rattle.script_text.specs.Fitting.{is_any_map, is_queue};
ghost use Rattle.log_client.specs.Clients.{IsClient};
ghost use Rattle.log_client.specs.Reading.{RestsOn};
ghost use Rattle.run_script.specs.Opened.{kind_opened, IsOpenedOf, StaysOpen};
ghost use Rattle.run_script.specs.Serving.{GivesTo};

use crate::serving::opened::Opened;
use crate::serving::replies::{got, got_many, took};
use fuzzy_io::Gate;
use log_client::{Client, Store, reads_go_on};
use log_node::Text;
use report_text::Answer;
use script_text::What;
use std::alloc::Global;
use std::sync::Wait;

/// Gets the value of a key of a map, or the values of one of a causal map.
pub fn get<R: Wait, G: Gate>(
    rt: &R,
    alloc: Global,
    store: &Store,
    gate: &G,
    client: &mut Client,
    opened: &mut Opened,
    key: Text,
) -> Answer
    requires client { IsClient store.now client.old }
    requires kept { IsOpenedOf client.old opened.old }
    requires kind { IsTrue (is_any_map (kind_opened opened.old)) }
    ensures rests { RestsOn store.now client.old client.new }
    ensures stays { StaysOpen client.new opened.old opened.new }
    ensures gives { GivesTo store.now client.old client.new opened.old opened.new
        (λ object. What.Get object key) result }
{
    reads_go_on();
    match opened {
        Opened::Map { single, .. } => {
            let get = single.get(rt, alloc, client, store, gate, &key);
            got(get)
        }
        Opened::Causal(map) => {
            let get = map.get(rt, alloc, client, store, gate, &key);
            got_many(get)
        }
        _ => unreachable!(),
    }
}

/// Dequeues the front of a queue.
pub fn deq<R: Wait, G: Gate>(
    rt: &R,
    alloc: Global,
    store: &Store,
    gate: &G,
    client: &mut Client,
    opened: &mut Opened,
) -> Answer
    requires client { IsClient store.now client.old }
    requires kept { IsOpenedOf client.old opened.old }
    requires kind { IsTrue (is_queue (kind_opened opened.old)) }
    ensures rests { RestsOn store.now client.old client.new }
    ensures stays { StaysOpen client.new opened.old opened.new }
    ensures gives { GivesTo store.now client.old client.new opened.old opened.new (λ object. What.Deq object) result }
{
    match opened {
        Opened::Queue(queue) => {
            let deq = queue.deq(rt, alloc, client, store, gate);
            took(deq)
        }
        _ => unreachable!(),
    }
}
