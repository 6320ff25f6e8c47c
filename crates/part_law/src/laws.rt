// Laws of objects that keep their colours to themselves. Each function does nothing, and its contract is the law.
ghost use Rattle.part_law.specs.Laws.{DecisionsAreTrue, PeeksAgree, ScriptsKeepApart, UpToIsThere};

use lawful_run::{closing_lines_rise, one_key, returned_appends_stand};
use object_form::reads_back;
use part_fold::{
    decisions_are_plain, decisions_differ, parts_agree, parts_are_shards, reads_decisions,
};

/// In what is read as a script such an object shares no colour, its texts are written by no other
/// command, and each of its colours is there once.
pub fn scripts_keep_apart()
    ensures { ScriptsKeepApart }
{}

/// Lines have all their keys up to each point in one order.
pub fn up_to_is_there()
    ensures { UpToIsThere }
{}

/// A peek's value is that of the whole map over all nodes up to the last one that it played.
pub fn peeks_agree()
    ensures { PeeksAgree }
{
    returned_appends_stand();
    one_key();
    closing_lines_rise();
    reads_back();
    reads_decisions();
    decisions_differ();
    decisions_are_plain();
    parts_agree();
    parts_are_shards();
}

/// What a decision says of its transaction is the verdict over all nodes, however many come later.
pub fn decisions_are_true()
    ensures { DecisionsAreTrue }
{}
