// One command of a client, and its reply.
ghost use Rattle.std.specs.Prelude.{◌≡◌, ℕ, List, None, Some, length};
ghost use Rattle.script_text.specs.declared.script.Object.{Object};
ghost use Rattle.script_text.specs.Fitting.{IsWithin, UsesObject};
ghost use Rattle.script_meaning.specs.States.{kind_in};
ghost use Rattle.log_client.specs.Clients.{Finished, IsClient};
ghost use Rattle.log_client.specs.Reading.{RestsOn};
ghost use Rattle.run_script.specs.Opened.{object_asked, AreKept, AreOf, AreOpenable, HasCommand, IsKeptOf, IsOpenable};
ghost use Rattle.run_script.specs.Serving.{ServesLog, ServesSlot, GivesAll, IsAnswered};
ghost use Rattle.run_script.specs.Served.{IsServable};

use crate::serving::appends::{append, only, stop};
use crate::serving::moves::{pull, trim};
use crate::serving::object_answers::{object_answer, object_asked};
use crate::serving::opened::{Opened, open};
use crate::serving::scans::scan;
use crate::serving::syncs::sync;
use fuzzy_io::Gate;
use log_client::{Client, Store, reads_go_on};
use log_node::{Items, ListOf};
use report_text::{Answer, ReplyLine};
use script_text::{Command, Object, What};
use std::alloc::Global;
use std::sync::Wait;

// What the client answers to what is asked of it and of no object, and the nodes that it shows.
#[tactic(auto, using(crate::proofs::GivingCommands::colours_of, crate::proofs::GivingCommands::stop_within))]
fn log_answer<R: Wait, G: Gate>(
    rt: &R,
    alloc: Global,
    store: &Store,
    gate: &G,
    client: &mut Client,
    what: What,
) -> (Answer, Items)
    requires client { IsClient store.now client.old }
    requires of_none { object_asked what ≡ None }
    requires within { IsWithin (length store.now.regions) store.now.size.colours what }
    ensures { ServesLog store.now client.old client.new what result.0 result.1 }
{
    match what {
        What::Append { colours, text } => (
            append(rt, alloc, store, gate, client, colours, text),
            ListOf::new(alloc),
        ),
        What::Stop {
            steps,
            colours,
            text,
        } => (
            stop(rt, alloc, store, gate, client, steps, colours, text),
            ListOf::new(alloc),
        ),
        What::Sync { colour } => sync(rt, alloc, store, client, colour),
        What::Scan { colours } => scan(rt, alloc, store, client, colours),
        What::Pull { region, colour } => (
            pull(rt, store, client, region, colour),
            ListOf::new(alloc),
        ),
        What::Trim { colour } => (trim(rt, store, client, colour), ListOf::new(alloc)),
        What::Only { colour, text } => (
            only(rt, alloc, store, client, colour, text),
            ListOf::new(alloc),
        ),
        _ => unreachable!(),
    }
}

// What the client answers to what is asked of it and of this object, which it opens in its slot where this is its first command
// on it. Where there is no memory for that, nothing else was done.
fn slot_answer<R: Wait, G: Gate>(
    rt: &R,
    alloc: Global,
    store: &Store,
    gate: &G,
    client: &mut Client,
    object: &Object,
    slot: &mut Option<Opened>,
    what: What,
) -> Answer
    requires client { IsClient store.now client.old }
    requires openable { IsOpenable store.now object.now }
    requires kept { IsKeptOf client.old object.now slot.old }
    requires has { HasCommand object.now.kind what }
    ensures rests { RestsOn store.now client.old client.new }
    ensures kept { IsKeptOf client.new object.now slot.new }
    ensures gives { (objects : List Object) (n : ℕ) → object_asked what ≡ Some n
        → kind_in objects n ≡ Some object.now.kind
        → ServesSlot store.now objects client.old client.new n slot.old slot.new what result }
{
    match slot {
        Some(opened) => object_answer(rt, alloc, store, gate, client, opened, what),
        None => {
            let Ok(mut opened) = open(alloc, &object.kind) else {
                return Answer::NoMemory;
            };
            let answer = object_answer(rt, alloc, store, gate, client, &mut opened, what);
            *slot = Some(opened);
            answer
        }
    }
}

// What the client answers to what is asked of it, and the nodes that it shows.
fn answer<R: Wait, G: Gate>(
    rt: &R,
    alloc: Global,
    store: &Store,
    objects: &[Object],
    gate: &G,
    client: &mut Client,
    slots: &mut Vec<Option<Opened>>,
    what: What,
) -> (Answer, Items)
    requires client { IsClient store.now client.old }
    requires openable { AreOpenable store.now objects.now }
    requires of { AreOf objects.now slots.old.items }
    requires kept { AreKept client.old slots.old.items }
    requires within { IsWithin (length store.now.regions) store.now.size.colours what }
    requires uses { UsesObject objects.now what }
    ensures gives { GivesAll store.now objects.now client.old client.new slots.old.items slots.new.items what
        result.0 result.1 }
    ensures kept { Finished client.new → AreKept client.new slots.new.items }
    ensures of { AreOf objects.now slots.new.items }
{
    reads_go_on();
    match object_asked(&what) {
        None => log_answer(rt, alloc, store, gate, client, what),
        Some(number) => {
            let object = &objects[number as usize];
            let slot = &mut slots[number as usize];
            let answer = slot_answer(rt, alloc, store, gate, client, object, slot, what);
            (answer, ListOf::new(alloc))
        }
    }
}

/// Serves the client a command.
pub fn serve<R: Wait, G: Gate>(
    rt: &R,
    alloc: Global,
    store: &Store,
    objects: &[Object],
    gate: &G,
    client: &mut Client,
    slots: &mut Vec<Option<Opened>>,
    command: Command,
) -> ReplyLine
    requires client { IsClient store.now client.old }
    requires openable { AreOpenable store.now objects.now }
    requires of { AreOf objects.now slots.old.items }
    requires kept { AreKept client.old slots.old.items }
    requires command { IsServable store.now objects.now command }
    ensures answered { IsAnswered store.now objects.now client.old client.new slots.old.items slots.new.items command result }
    ensures kept { Finished client.new → AreKept client.new slots.new.items }
    ensures of { AreOf objects.now slots.new.items }
{
    let line = command.line;
    let word = command.what.word();
    let (answer, nodes) = answer(rt, alloc, store, objects, gate, client, slots, command.what);
    ReplyLine {
        line,
        word,
        answer,
        nodes,
    }
}
