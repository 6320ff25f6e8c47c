// Entries that wait in a delivery queue, and the steps on their list, which is in rising key.
ghost use Rattle.std.specs.Prelude.{◌≡◌, ◌<◌, ◌≤◌, ◌&&◌, ◌++◌, ◌∷◌, [], not};
ghost use Rattle.std.specs.Prelude.{if◌then◌else◌, map, length, slice_index_or, vec_len, vec_capacity};
ghost use Rattle.std.specs.List.{filter, list_any, position, remove};
ghost use Rattle.log_node.specs.Standings.{is_open_id};
ghost use Rattle.skeen_core.specs.Queues.{standing_of, final_entry, with_stored, settled_stored, is_decided};
ghost use Rattle.skeen_core.specs.Inside.{IsRisingStored, AreApart, ready};
ghost use Rattle.skeen_core.specs.declared.waiting.Waiting.{Waiting};

use log_node::{Id, Key, Outcome};

/// An entry that is not in the line yet: its key, whether it is final, and its thing.
#[derive(Drop)]
pub struct Waiting<T> {
    pub key: Key,
    /// Whether the key is final. An open entry has its tentative stamp.
    pub settled: bool,
    pub thing: T,
}

// Whether the entry is open, and has this id.
fn is_open<T>(entry: &Waiting<T>, id: Id) -> bool
    ensures { result ≡ is_open_id id (standing_of entry.now) }
{
    !entry.settled && entry.key.id == id
}

// The place of the open entry with this id.
fn open_place<T>(waiting: &[Waiting<T>], id: Id) -> Option<usize>
    ensures { result ≡ position (λ w. is_open_id id (standing_of w)) waiting.now }
{
    waiting.iter().position(|entry| is_open(entry, id))
}

// How many entries at the front are final.
pub(crate) fn final_front<T>(waiting: &[Waiting<T>]) -> usize
    ensures value { result ≡ ready waiting.now }
    ensures bound { result ≤ length waiting.now }
{
    waiting.iter().take_while(|entry| entry.settled).count()
}

// How many entries are open.
pub(crate) fn open_in<T>(waiting: &[Waiting<T>]) -> usize
    ensures { result ≡ length (filter (λ w. not w.settled) waiting.now) }
{
    waiting.iter().filter(|entry| !entry.settled).count()
}

// At the end of a vector that has room.
pub(crate) fn put<X>(list: &mut Vec<X>, item: X)
    requires { vec_len list.old < vec_capacity list.old }
    ensures items { list.new.items ≡ list.old.items ++ item ∷ [] }
    ensures capacity { vec_capacity list.old ≤ vec_capacity list.new }
{
    match list.push(item) {
        Ok(()) => {}
        Err(_) => unreachable!(),
    }
}

// Makes the entry at a place final under a stamp that is not below its own, and puts it where its new key belongs.
fn final_under<T: Drop>(waiting: &mut Vec<Waiting<T>>, at: usize, stamp: u64)
    requires in_bounds { at < vec_len waiting.old }
    requires rising { IsRisingStored waiting.old.items }
    ensures items { (d : Waiting T) → let entry = slice_index_or waiting.old.items at d in
        waiting.new.items ≡ with_stored (final_entry stamp entry) (remove waiting.old.items at) }
    ensures len { vec_len waiting.new ≡ vec_len waiting.old }
    ensures capacity { vec_capacity waiting.old ≤ vec_capacity waiting.new }
{
    let mut entry = waiting.remove(at);
    entry.key.stamp = stamp;
    entry.settled = true;
    let key = entry.key;
    let place = waiting.partition_point(|other| !key.is_below(other.key));
    match waiting.insert(place, entry) {
        Ok(()) => {}
        Err(_) => unreachable!(),
    }
}

// Settles the open entry with this id, where there is one: it becomes final under its number, or goes. Says whether it
// did.
pub(crate) fn settle_entry<T: Drop>(waiting: &mut Vec<Waiting<T>>, id: Id, outcome: Outcome) -> bool
    requires rising { IsRisingStored waiting.old.items }
    requires apart { AreApart (map standing_of waiting.old.items) }
    ensures answer { result ≡ (list_any (λ w. is_open_id id (standing_of w)) waiting.old.items && is_decided outcome) }
    ensures items { let old = waiting.old.items in
        waiting.new.items ≡ (if result then settled_stored id outcome old else old) }
    ensures len { vec_len waiting.new ≤ vec_len waiting.old }
    ensures capacity { vec_capacity waiting.old ≤ vec_capacity waiting.new }
{
    let Some(at) = open_place(waiting.as_slice(), id) else {
        return false;
    };
    match outcome {
        Outcome::Open => false,
        Outcome::Gone(_) => {
            let _gone = waiting.remove(at);
            true
        }
        Outcome::Final(stamp) => {
            final_under(waiting, at, stamp);
            true
        }
    }
}
