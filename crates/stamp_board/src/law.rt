// The rule, and the kinds of step.
ghost use Rattle.std.specs.Prelude.{◌+◌};
ghost use Rattle.stamp_board.specs.Views.{told};
ghost use Rattle.stamp_board.specs.Law.{IsLawfulState, Turns, looked, marked, ended, began};
ghost use Rattle.stamp_board.specs.Law.{lowest, others, both, merged, spent, newcomer, came};

use crate::view::{Size, View};
use atomic_table::{Join, Play, Split, TableRule};
use log_node::Node;

/// The rule of a board's words: which steps there are, and what a seat knows before the first. No value of it is made.
pub struct Law;

impl TableRule<Node, View, Size> for Law {
    ghost holds = { IsLawfulState };

    ghost first = { λ k. newcomer k (1 + k.clients + k.colours) };
}

// A load of a word.
pub(crate) struct Looks;

impl Play<Node, View> for Looks {
    ghost then = { Turns looked };
}

// A mark is set to a number or to a fence.
pub(crate) struct Marks;

impl Play<Node, View> for Marks {
    ghost then = { Turns marked };
}

// The final word is set.
pub(crate) struct Ends;

impl Play<Node, View> for Ends {
    ghost then = { Turns ended };
}

// Word 0 is set.
pub(crate) struct Begins;

impl Play<Node, View> for Begins {
    ghost then = { Turns began };
}

// A seat that has seen as much is split off.
pub(crate) struct Tells;

impl Split<View> for Tells {
    ghost left = { λ v. v };

    ghost right = { told };
}

// The lowest part goes to a seat of its own.
pub(crate) struct Deals;

impl Split<View> for Deals {
    ghost left = { others };

    ghost right = { lowest };
}

// A seat learns what another knew.
pub(crate) struct Hears;

impl Join<View> for Hears {
    ghost both = { both };

    ghost spent = { spent };
}

// A seat takes in another, with its parts.
pub(crate) struct Gathers;

impl Join<View> for Gathers {
    ghost both = { merged };

    ghost spent = { spent };
}

// A seat that plays no part comes, behind all parts.
pub(crate) struct Comes;

impl Play<Node, View> for Comes {
    ghost then = { λ _ me _ other. came me other };
}
