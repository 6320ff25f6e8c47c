// The entries that wait, and which of them are open.
ghost use Rattle.std.specs.Prelude.{◌≡◌, not, length, map, filter, find};
ghost use Rattle.std.specs.List.{AllByRecursion};
ghost use Rattle.std.specs.Option.{option_copied};
ghost use Rattle.log_node.specs.Order.{key_below};
ghost use Rattle.skeen_core.specs.Queues.{standing_of};
ghost use Rattle.column.specs.Columns.{is_waiting_below, IsBegunAt, HasRow};
ghost use Rattle.column.specs.Inside.{Rises};

use crate::entered::Entered;
use log_node::{Begun, Key};
use skeen_core::Waiting;

// Whether the entry has a key below.
fn is_below(entry: &Waiting<Entered>, key: Key) -> bool
    ensures { result ≡ key_below entry.now.key key }
{
    entry.key.is_below(key)
}

// The entries with a key below, where keys rise.
fn all_below(waiting: &[Waiting<Entered>], key: Key) -> &[Waiting<Entered>]
    requires { Rises (map standing_of waiting.now) }
    ensures { result.now ≡ filter (λ w. key_below w.key key) waiting.now }
{
    let end = waiting.partition_point(|entry| is_below(entry, key));
    &waiting[..end]
}

// How many entries are open.
fn open_in<T>(waiting: &[Waiting<T>]) -> usize
    ensures { result ≡ length (filter (λ w. not w.settled) waiting.now) }
{
    waiting.iter().filter(|entry| !entry.settled).count()
}

// The first open entry.
fn first_open<T>(waiting: &[Waiting<T>]) -> Option<&Waiting<T>>
    ensures { option_copied result ≡ find (λ w. not w.settled) waiting.now }
{
    waiting.iter().find(|entry| !entry.settled)
}

/// How many open entries have a key below, where keys rise.
pub(crate) fn open_below(waiting: &[Waiting<Entered>], key: Key) -> usize
    requires { Rises (map standing_of waiting.now) }
    ensures { result ≡ length (filter (is_waiting_below key) waiting.now) }
{
    open_in(all_below(waiting, key))
}

// The first open entry with a key below, where keys rise.
fn least_open(waiting: &[Waiting<Entered>], key: Key) -> Option<&Waiting<Entered>>
    requires { Rises (map standing_of waiting.now) }
    ensures { option_copied result ≡ find (is_waiting_below key) waiting.now }
{
    first_open(all_below(waiting, key))
}

/// The begun append of the first open entry with a key below, where keys rise.
pub(crate) fn first_below(waiting: &[Waiting<Entered>], key: Key) -> Option<Begun>
    requires rising { Rises (map standing_of waiting.now) }
    requires rows { AllByRecursion (λ w. HasRow w.settled w.thing.node) waiting.now }
    ensures { IsBegunAt result (find (is_waiting_below key) waiting.now) }
{
    match least_open(waiting, key) {
        Some(entry) => entry.thing.begun(),
        None => None,
    }
}
