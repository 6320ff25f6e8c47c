//! The rule of a cell's table, and what each step on the table tells the pass that makes it.
ghost use Rattle.turn_cell.specs.Steps.{Takes, Raises, Frees, Parts, Compares, giver_after, numbered, told};
ghost use Rattle.turn_cell.specs.Steps.{joined, spent};

use crate::history::HasHistory;
use crate::view::View;
use atomic_table::{Join, Play, Split, TableRule};
use std::snapshot::Snapshot;

/// The word that says whether the turn is free.
pub(crate) const TURN: usize = 0;

/// The word that counts the history.
pub(crate) const COUNT: usize = 1;

/// The words of a cell: the two that are used, and as many more as make 128 bytes, so that no other cell's words lie in a cache
/// line of theirs, nor in the one that is fetched with it.
pub(crate) const WORDS: usize = 16;

/// The slot that has the value while the turn is free.
pub(crate) const VALUE: usize = 0;

pub(crate) const FREE: u64 = 0;

pub(crate) const HELD: u64 = 1;

/// The rule: while the turn is free the slot has the value, which stands for the whole history, and each pass has seen
/// a beginning of that history.
pub struct InTurn;

impl<V: HasHistory> TableRule<Option<Box<V>>, View<V::Entry, V::Tag>, Snapshot<V>> for InTurn {
    ghost use Rattle.turn_cell.specs.Rule.{Turns, first_view};

    ghost holds = { λ opening. Turns (λ b. V.stands b.value) V.by (λ b. V.tag b.value) (V.tag opening.value) };

    ghost first = { λ opening. first_view (V.tag opening.value) };
}

/// Sets the turn word from free to held, which takes the value out of the slot.
pub(crate) struct Take;

impl<V: HasHistory> Play<Option<Box<V>>, View<V::Entry, V::Tag>> for Take {
    ghost then = { Takes (λ b. V.stands b.value) V.by (λ b. V.tag b.value) };
}

/// Raises the counting word, for the newest entry of the value that lies in the slot.
pub(crate) struct Raise;

impl<V: HasHistory> Play<Option<Box<V>>, View<V::Entry, V::Tag>> for Raise {
    ghost then = { Raises (λ b. V.newest b.value) };
}

/// Sets the turn word to free, which puts the value home.
pub(crate) struct Free;

impl<S, E, T> Play<Option<S>, View<E, T>> for Free {
    ghost then = { Frees };
}

/// Loads a word, and leaves the slot home and empty, with the turn held for good.
pub(crate) struct Part;

impl<S, E, T> Play<Option<S>, View<E, T>> for Part {
    ghost then = { Parts };
}

/// Loads a word, and finds which of what was seen and what was heard is longer.
pub(crate) struct Compare;

impl<V: HasHistory> Play<Option<Box<V>>, View<V::Entry, V::Tag>> for Compare {
    ghost then = { Compares V.by };
}

/// Gives the new pass the next number.
pub(crate) struct Deal;

impl<E, T> Split<View<E, T>> for Deal {
    ghost left = { giver_after };

    ghost right = { numbered };
}

/// Tells the new pass what was seen.
pub(crate) struct Tell;

impl<E, T> Split<View<E, T>> for Tell {
    ghost left = { λ view. view };

    ghost right = { told };
}

/// Makes one pass of two.
pub(crate) struct Meet;

impl<E, T> Join<View<E, T>> for Meet {
    ghost both = { joined };

    ghost spent = { spent };
}
