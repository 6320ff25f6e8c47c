// The queue.
ghost use Rattle.std.specs.Prelude.{◌≡◌, ◌<◌, ◌≤◌, IsTrue, ◌∷◌, [], length, map, take, Some, IfOk, IfErr, MatchResult};
ghost use Rattle.object_form.specs.Forms.{is_word, form_text};
ghost use Rattle.object_fold.specs.Nodes.{object_nodes};
ghost use Rattle.object_fold.specs.Queues.{front_after};
ghost use Rattle.object_fold.specs.States.{IsValueQueue};
ghost use Rattle.object_fold.specs.Folds.{FoldsFirst};
ghost use Rattle.append_core.specs.declared.stood.Point.{Point};
ghost use Rattle.log_client.specs.Calls.{AnswersSync};
ghost use Rattle.log_client.specs.Clients.{IsClient, tracks_of};
ghost use Rattle.log_client.specs.Reading.{RestsOn};
ghost use Rattle.log_client.specs.Objects.{StandsIn, PutRefused, RefusesAway};
ghost use Rattle.log_queue.specs.Queues.{IsQueueOf, Dequeues, DeqRefused, dequeue_text};

use fuzzy_io::Gate;
use log_client::{Appended, Client, ObjectFault, Store, SyncFault, Synced};
use log_node::{Form, Item, MAX_COLOURS, Text};
use object_fold::{KeptLine, ValueQueue};
use std::alloc::{AllocError, Global};
use std::sync::Wait;

/// A queue of values at a home region, for one client, with which all its calls are made. Enqueues and dequeues are nodes of
/// one colour; what is folded of them is kept.
#[derive(Drop)]
pub struct LogQueue {
    pub(crate) home: u8,
    pub(crate) colour: u8,
    pub(crate) kept: KeptLine<ValueQueue>,
}

// The front after this many first nodes of the line, of which those that were folded are not folded again. Without memory the
// fold has come a part of the way.
fn front(
    kept: &mut KeptLine<ValueQueue>,
    alloc: Global,
    line: &[Item],
    end: usize,
) -> Result<Option<Text>, AllocError>
    requires { FoldsFirst line.now kept.old.count (IsValueQueue kept.old.state) }
    ensures folds { FoldsFirst line.now kept.new.count (IsValueQueue kept.new.state) }
    ensures value { IfOk result (λ value. kept.old.count ≤ end → end ≤ length line.now
        → value ≡ front_after (object_nodes (take end line.now))) }
{
    kept.fold_to(alloc, line, end)?;
    match kept.state.front() {
        None => Ok(None),
        Some(front) => Ok(Some(Text::copied(alloc, front.as_bytes())?)),
    }
}

impl LogQueue {
    /// The queue of a colour at a home, of which nothing is folded. Takes no memory.
    pub fn open(alloc: Global, home: u8, colour: u8) -> LogQueue
        ensures of { (result.home ≡ home) × (result.colour ≡ colour) }
        ensures queue { (client : Client) → colour < length (tracks_of client)
            → colour < MAX_COLOURS → IsQueueOf client result }
    {
        LogQueue {
            home,
            colour,
            kept: KeptLine::new(ValueQueue::new(alloc)),
        }
    }

    /// Enqueues a value: its node stands in the queue's colour. Waits as an append does.
    pub fn enq<R: Wait, G: Gate>(
        &mut self,
        rt: &R,
        alloc: Global,
        client: &mut Client,
        store: &Store,
        gate: &G,
        value: &Text,
    ) -> Result<Appended, ObjectFault>
        requires client { IsClient store.now client.old }
        requires queue { IsQueueOf client.old self.old }
        requires value { IsTrue (is_word value.now) }
        ensures client { RestsOn store.now client.old client.new }
        ensures queue { IsQueueOf client.new self.new }
        ensures same { self.new ≡ self.old }
        ensures ok { IfOk result (StandsIn store.now client.old client.new (self.old.colour ∷ [])
            (form_text (Form.Enqueue value.now))) }
        ensures away { RefusesAway self.old.home client.old result }
        ensures err { IfErr result (PutRefused (Some self.old.home) store.now client.old client.new
            (self.old.colour ∷ []) (form_text (Form.Enqueue value.now))) }
    {
        if client.region() != self.home {
            return Err(ObjectFault::NotHome { home: self.home });
        }
        let Ok(value) = Text::copied(alloc, value.as_bytes()) else {
            return Err(ObjectFault::NoMemory);
        };
        client.append_form_to(rt, alloc, store, gate, self.colour, Form::Enqueue { value })
    }

    /// Dequeues: appends a node, plays up to it, and answers what it takes: the front of the queue after the nodes before it,
    /// or none. Waits as an append and a sync do. With `Unread` the own node stands, and takes what it takes.
    pub fn deq<R: Wait, G: Gate>(
        &mut self,
        rt: &R,
        alloc: Global,
        client: &mut Client,
        store: &Store,
        gate: &G,
    ) -> Result<(Option<Text>, Appended, Synced), ObjectFault>
        requires client { IsClient store.now client.old }
        requires queue { IsQueueOf client.old self.old }
        ensures client { RestsOn store.now client.old client.new }
        ensures queue { IsQueueOf client.new self.new }
        ensures same { (self.new.home ≡ self.old.home) × (self.new.colour ≡ self.old.colour) }
        ensures ok { IfOk result (λ r. Dequeues store.now client.old client.new self.old.colour
            r.0 r.1 r.2) }
        ensures played { IfOk result (λ r. AnswersSync client.old client.new self.old.colour r.2) }
        ensures away { RefusesAway self.old.home client.old result }
        ensures err { IfErr result (DeqRefused self.old.home store.now client.old client.new
            self.old.colour) }
    {
        if client.region() != self.home {
            return Err(ObjectFault::NotHome { home: self.home });
        }
        match client.append_form_to(rt, alloc, store, gate, self.colour, Form::Dequeue) {
            Ok(appended) => self.read_own(rt, alloc, client, store, appended),
            Err(fault) => Err(fault),
        }
    }

    // Plays up to the own node, which was appended, and answers what it takes.
    fn read_own<R: Wait>(
        &mut self,
        rt: &R,
        alloc: Global,
        client: &mut Client,
        store: &Store,
        appended: Appended,
    ) -> Result<(Option<Text>, Appended, Synced), ObjectFault>
        requires client { IsClient store.now client.old }
        requires queue { IsQueueOf client.old self.old }
        requires point { map (λ (p : Point). p.colour) appended.stood.points ≡ self.old.colour ∷ [] }
        ensures client { RestsOn store.now client.old client.new }
        ensures queue { IsQueueOf client.new self.new }
        ensures same { (self.new.home ≡ self.old.home) × (self.new.colour ≡ self.old.colour) }
        ensures answer { (before : Client) → IsClient store.now before
            → RestsOn store.now before client.old → IsQueueOf before self.old
            → StandsIn store.now before client.old (self.old.colour ∷ []) dequeue_text appended
            → MatchResult result
            (λ r. Dequeues store.now before client.new self.old.colour r.0 r.1 r.2)
            (DeqRefused self.old.home store.now before client.new self.old.colour) }
        ensures played { IfOk result (λ r. AnswersSync client.old client.new self.old.colour r.2) }
    {
        let stamp = appended.stood.key.stamp;
        let position = appended.stood.points.as_slice()[0].position as usize;
        match client.sync(rt, alloc, store, self.colour) {
            Ok(synced) => match front(&mut self.kept, alloc, client.line(self.colour), position) {
                Ok(value) => Ok((value, appended, synced)),
                Err(_) => Err(ObjectFault::Unread {
                    stamp,
                    why: SyncFault::NoMemory,
                }),
            },
            Err(why) => Err(ObjectFault::Unread { stamp, why }),
        }
    }
}
