// The delivery queue of one destination. Its clock is that of Lamport, "Time, Clocks, and the Ordering of Events in a
// Distributed System" (1978); stamps and delivery are those of Skeen's multicast, as in Birman and Joseph, "Reliable
// Communication in the Presence of Failures" (1987). That things can be dropped and keys stay is this project's own.
ghost use Rattle.std.specs.Prelude.{◌≡◌, ◌+◌, ◌-◌, ◌<◌, ◌≤◌, ◌&&◌, max, nat_lt, not, false, true, [], ◌∷◌, ◌++◌};
ghost use Rattle.std.specs.Prelude.{map, drop, length, vec_len, vec_capacity, if◌then◌else◌, IfOk, IfErr, OnOk, OnErr};
ghost use Rattle.std.specs.List.{filter};
ghost use Rattle.log_node.specs.Standings.{line_of, queue_of};
ghost use Rattle.skeen_core.specs.Queues.{Queued, standing_of, entry_under, has_id, has_open, is_decided, IsContinued};
ghost use Rattle.skeen_core.specs.Queues.{stamp_after, HasStamp, IsAtEnd, MaySettle};
ghost use Rattle.skeen_core.specs.Queues.{entered_queue, settled_queue, dropped_queue, kept_entries, waiting_entries};
ghost use Rattle.skeen_core.specs.Inside.{ready_keys, ready_things, left};

use crate::outcomes::final_number;
use crate::stamps::StampEnd;
use crate::waiting::{Waiting, final_front, open_in, put, settle_entry};
use log_node::{Id, Key, MAX_STAMP, Outcome};
use std::alloc::{AllocError, Global};
use std::marker::Model;

/// The delivery queue of one destination. An entry's thing is what it stands for.
#[derive(Drop)]
pub struct Queue<T> {
    clock: u64,
    line: Vec<Key>,
    kept: Vec<T>,
    waiting: Vec<Waiting<T>>,
    // For how many more entries each vector has room, also once they are in the line.
    spare: usize,
}

impl<T> Model for Queue<T> {
    ghost use Rattle.std.specs.Prelude.{vec_capacity};
    ghost use Rattle.skeen_core.specs.Queues.{Queued, queued_code};

    ghost Value = { Queued T };

    ghost coded = { queued_code T.code };

    ghost use Rattle.skeen_core.specs.Inside.{queued, IsQueue};

    ghost view = { λ a. queued a.clock a.spare a.line.items a.kept.items a.waiting.items };

    ghost invariant = { λ a. IsQueue a.clock a.spare a.line.items a.kept.items a.waiting.items
        (vec_capacity a.line) (vec_capacity a.kept) (vec_capacity a.waiting) };
}

// Moves the final entries at the front of those that wait to the end of the line.
fn deliver<T: Drop>(waiting: &mut Vec<Waiting<T>>, line: &mut Vec<Key>, kept: &mut Vec<T>)
    requires line_room { vec_len line.old + vec_len waiting.old ≤ vec_capacity line.old }
    requires kept_room { vec_len kept.old + vec_len waiting.old ≤ vec_capacity kept.old }
    ensures waiting { waiting.new.items ≡ left waiting.old.items }
    ensures line { line.new.items ≡ line.old.items ++ ready_keys waiting.old.items }
    ensures kept { kept.new.items ≡ kept.old.items ++ ready_things waiting.old.items }
    ensures capacity { vec_capacity waiting.new ≡ vec_capacity waiting.old }
    ensures line_capacity { vec_capacity line.old ≤ vec_capacity line.new }
    ensures kept_capacity { vec_capacity kept.old ≤ vec_capacity kept.new }
{
    let count = final_front(waiting.as_slice());
    for entry in waiting.drain(..count) {
        let Waiting {
            key,
            settled: _,
            thing,
        } = entry;
        put(line, key);
        put(kept, thing);
    }
}

// Puts an entry behind those that wait, and moves the final ones at the front to the end of the line. Where nothing
// waits, a final entry goes there at once.
#[tactic(auto, using(crate::proofs::Delivering::alone))]
fn take_in<T: Drop>(
    waiting: &mut Vec<Waiting<T>>,
    line: &mut Vec<Key>,
    kept: &mut Vec<T>,
    entry: Waiting<T>,
)
    requires room { vec_len waiting.old < vec_capacity waiting.old }
    requires line_room { vec_len line.old + (vec_len waiting.old + 1) ≤ vec_capacity line.old }
    requires kept_room { vec_len kept.old + (vec_len waiting.old + 1) ≤ vec_capacity kept.old }
    ensures waiting { waiting.new.items ≡ left (waiting.old.items ++ entry ∷ []) }
    ensures line { line.new.items ≡ line.old.items ++ ready_keys (waiting.old.items ++ entry ∷ []) }
    ensures kept { kept.new.items ≡ kept.old.items ++ ready_things (waiting.old.items ++ entry ∷ []) }
    ensures capacity { vec_capacity waiting.old ≤ vec_capacity waiting.new }
    ensures line_capacity { vec_capacity line.old ≤ vec_capacity line.new }
    ensures kept_capacity { vec_capacity kept.old ≤ vec_capacity kept.new }
{
    if entry.settled {
        if waiting.is_empty() {
            let Waiting {
                key,
                settled: _,
                thing,
            } = entry;
            put(line, key);
            put(kept, thing);
            return;
        }
    }
    put(waiting, entry);
    deliver(waiting, line, kept);
}

impl<T: Drop> Queue<T> {
    /// An empty queue, whose clock is 0.
    pub fn open(alloc: Global) -> Self
        ensures { result ≡ record { clock = 0; entries = []; base = 0; stored = []; spare = 0 } }
    {
        Queue {
            clock: 0,
            line: Vec::new(alloc),
            kept: Vec::new(alloc),
            waiting: Vec::new(alloc),
            spare: 0,
        }
    }

    /// Takes the memory for one more entry, unless it is there.
    pub fn room(&mut self) -> Result<(), AllocError>
        ensures ok { OnOk result (self.new ≡ record self.old { spare = max 1 self.old.spare }) }
        ensures cause { IfErr result (λ _. self.old.spare ≡ 0) }
        ensures err { OnErr result (self.new ≡ self.old) }
    {
        if self.spare > 0 {
            return Ok(());
        }
        let more = self.waiting.len() + 1;
        self.line.reserve(more)?;
        self.kept.reserve(more)?;
        self.waiting.reserve(1)?;
        self.spare = 1;
        Ok(())
    }

    /// The clock: no entry has a greater stamp.
    pub fn clock(&self) -> u64
        ensures { result ≡ self.now.clock }
    {
        self.clock
    }

    /// The stamp that comes next for a floor.
    pub fn next(&self, floor: u64) -> Result<u64, StampEnd>
        requires { floor ≤ MAX_STAMP }
        ensures ok { IfOk result (λ s. (s ≡ stamp_after self.now.clock floor) × HasStamp self.now.clock floor) }
        ensures stamp_end { IfErr result (λ e. (e.clock ≡ max self.now.clock floor) × IsAtEnd self.now.clock floor) }
    {
        let clock = self.clock.max(floor);
        if clock == MAX_STAMP {
            Err(StampEnd { clock })
        } else {
            Ok(clock + 1)
        }
    }

    /// Raises the clock, where it is smaller; says whether it was.
    pub fn raise(&mut self, to: u64) -> bool
        requires { to ≤ MAX_STAMP }
        ensures answer { result ≡ nat_lt self.old.clock to }
        ensures clock { self.new ≡ record self.old { clock = max self.old.clock to } }
    {
        let raises = self.clock < to;
        if raises {
            self.clock = to;
        }
        raises
    }

    /// A final entry under the next stamp, which is the answer.
    pub fn enter(&mut self, id: Id, floor: u64, thing: T) -> u64
        requires room { 0 < self.old.spare }
        requires stamp { HasStamp self.old.clock floor }
        requires fresh { has_id id self.old.entries ≡ false }
        ensures stamp { result ≡ stamp_after self.old.clock floor }
        ensures queue { self.new ≡ entered_queue (entry_under result id true thing) self.old }
        ensures line { IsContinued (line_of self.old.entries) (line_of self.new.entries) }
    {
        self.add(id, floor, true, thing)
    }

    /// An open entry under the next stamp, which is the answer.
    pub fn propose(&mut self, id: Id, floor: u64, thing: T) -> u64
        requires room { 0 < self.old.spare }
        requires stamp { HasStamp self.old.clock floor }
        requires fresh { has_id id self.old.entries ≡ false }
        ensures stamp { result ≡ stamp_after self.old.clock floor }
        ensures queue { self.new ≡ entered_queue (entry_under result id false thing) self.old }
        ensures line { line_of self.new.entries ≡ line_of self.old.entries }
    {
        self.add(id, floor, false, thing)
    }

    // An entry under the next stamp, which is above all keys; the line takes it if nothing waits.
    fn add(&mut self, id: Id, floor: u64, settled: bool, thing: T) -> u64
        requires room { 0 < self.old.spare }
        requires stamp { HasStamp self.old.clock floor }
        requires fresh { has_id id self.old.entries ≡ false }
        ensures stamp { result ≡ stamp_after self.old.clock floor }
        ensures queue { self.new ≡ entered_queue (entry_under result id settled thing) self.old }
        ensures line { IsContinued (line_of self.old.entries) (line_of self.new.entries) }
        ensures still { settled ≡ false → line_of self.new.entries ≡ line_of self.old.entries }
    {
        let stamp = self.clock.max(floor) + 1;
        self.clock = stamp;
        self.spare -= 1;
        let entry = Waiting {
            key: Key { stamp, id },
            settled,
            thing,
        };
        take_in(&mut self.waiting, &mut self.line, &mut self.kept, entry);
        stamp
    }

    /// An open id becomes final under its number, or goes. Says whether the id was open and the outcome is not `Open`;
    /// else nothing changes. Takes no memory.
    pub fn settle(&mut self, id: Id, outcome: Outcome) -> bool
        requires { MaySettle id outcome self.old.entries MAX_STAMP }
        ensures answer { result ≡ (has_open id self.old.entries && is_decided outcome) }
        ensures queue { self.new ≡ (if result then settled_queue id outcome self.old else self.old) }
        ensures line { IsContinued (line_of self.old.entries) (line_of self.new.entries) }
    {
        if !settle_entry(&mut self.waiting, id, outcome) {
            return false;
        }
        self.clock = self.clock.max(final_number(outcome));
        deliver(&mut self.waiting, &mut self.line, &mut self.kept);
        true
    }

    /// The keys of the line from its first on, also of those whose things are dropped.
    pub fn line(&self) -> &[Key]
        ensures { result.now ≡ line_of self.now.entries }
    {
        self.line.as_slice()
    }

    /// How many things of the line are dropped, and the things of the line from there on.
    pub fn kept(&self) -> (u64, &[T])
        ensures base { result.0 ≡ self.now.base }
        ensures things { result.1.now ≡ map (λ w. w.thing) (kept_entries self.now) }
        ensures keys { map (λ w. w.key) (kept_entries self.now) ≡ drop self.now.base (line_of self.now.entries) }
    {
        let base = self.line.len() - self.kept.len();
        (base as u64, self.kept.as_slice())
    }

    /// The entries that are not in the line, in rising key. The first is open.
    pub fn waiting(&self) -> &[Waiting<T>]
        ensures value { result.now ≡ waiting_entries self.now }
        ensures entries { map standing_of result.now ≡ queue_of self.now.entries }
    {
        self.waiting.as_slice()
    }

    /// How many entries are open.
    pub fn open_count(&self) -> u64
        ensures { result ≡ length (filter (λ e. not e.settled) self.now.entries) }
    {
        open_in(self.waiting.as_slice()) as u64
    }

    /// Drops the things of the line below a base; no base falls.
    pub fn drop_to(&mut self, base: u64)
        requires { base ≤ length (line_of self.old.entries) }
        ensures { self.new ≡ dropped_queue base self.old }
    {
        let dropped = self.line.len() - self.kept.len();
        let below = (base as usize).saturating_sub(dropped);
        drop(self.kept.drain(..below));
    }
}
