// Laws of the rules, as a walk over commands decides them. Each function does nothing, and its contract is the law.
ghost use Rattle.walk_law.specs.Eleventh.{EleventhIsCauses};
ghost use Rattle.walk_law.specs.Fifth.{FifthIsEntering};
ghost use Rattle.walk_law.specs.Ninth.{NinthIsShown};
ghost use Rattle.walk_law.specs.Twelfth.{TwelfthIsBare};

use run_rules::{computed_account_agrees, finds_tell, nodes_are_told, nodes_change_no_step};

/// A report that keeps the first four rules enters the nodes of its commands where the first five hold at the account with these.
pub fn fifth_is_entering()
    ensures { FifthIsEntering }
{
    nodes_are_told();
    nodes_change_no_step();
    computed_account_agrees();
}

/// Of a report that keeps the rules before it the ninth holds where each step shows what it has to, and texts as they are first
/// shown.
pub fn ninth_is_shown()
    ensures { NinthIsShown }
{
    nodes_change_no_step();
}

/// A report that keeps the first ten rules at the account that shows what reads found keeps the eleventh one there where each
/// refusal has its cause.
pub fn eleventh_is_causes()
    ensures { EleventhIsCauses }
{
    finds_tell();
    computed_account_agrees();
}

/// The twelfth rule holds there where it holds at the account with no nodes.
pub fn twelfth_is_bare()
    ensures { TwelfthIsBare }
{
    finds_tell();
    computed_account_agrees();
}
