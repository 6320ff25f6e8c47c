// Laws of the rules, as a walk over commands decides them. Each function does nothing, and its contract is the law.
ghost use Rattle.object_law.specs.Fourteenth.{FourteenthIsOfParts};
ghost use Rattle.object_law.specs.Showing.{FourteenthIsDecided, ShowingIsFound};
ghost use Rattle.object_law.specs.Tenth.{ShownFindsAreRight, TenthIsRight};
ghost use Rattle.object_law.specs.Thirteenth.{ThirteenthIsSaid};

use col_core::region_order_is_unique;
use lawful_run::read_items_last;
use part_fold::decisions_are_plain;
use playback::region_order_is_lawful;
use run_rules::{
    computed_account_agrees, computed_finds_are_right, computed_finds_decide, finds_decide,
    finds_keep, finds_tell, found_account_decides,
};

/// A report that keeps the first nine rules keeps them at the account that shows what reads found where that is what is shown.
pub fn showing_is_found()
    ensures { ShowingIsFound }
{
    found_account_decides();
    finds_tell();
    finds_keep();
    finds_decide();
    decisions_are_plain();
}

/// One that keeps the rules before the last keeps this one too where the decisions that are computed are those that are shown, and
/// it holds at their account.
pub fn fourteenth_is_decided()
    ensures { FourteenthIsDecided }
{
    finds_tell();
    computed_finds_decide();
    region_order_is_unique();
    region_order_is_lawful();
    decisions_are_plain();
}

/// There reads found what they had to.
fn shown_finds_are_right()
    ensures { ShownFindsAreRight }
{
    finds_tell();
    computed_account_agrees();
    showing_is_found();
    computed_finds_are_right();
    decisions_are_plain();
}

/// The tenth rule holds there where the answer to each step is right by the nodes of that account.
pub fn tenth_is_right()
    ensures { TenthIsRight }
{
    finds_tell();
    computed_account_agrees();
    region_order_is_lawful();
    region_order_is_unique();
    read_items_last();
    shown_finds_are_right();
}

/// Where the decisions that are computed are those that are shown, the last rule holds at their account where each answer of a map
/// that is played by its parts is right by its nodes.
pub fn fourteenth_is_of_parts()
    ensures { FourteenthIsOfParts }
{
    finds_tell();
    computed_account_agrees();
    computed_finds_decide();
    region_order_is_lawful();
    region_order_is_unique();
    read_items_last();
}

/// The thirteenth rule holds there where trees say what each step shows of them by the nodes of that account.
pub fn thirteenth_is_said()
    ensures { ThirteenthIsSaid }
{
    finds_tell();
    computed_account_agrees();
    region_order_is_lawful();
    region_order_is_unique();
    read_items_last();
}
