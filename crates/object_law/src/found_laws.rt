// Laws of what reads found. Each function does nothing, and its contract is the law.
ghost use Rattle.object_law.specs.Found.{TextsStand, VersionsStand};

use col_core::region_order_is_unique;
use lawful_run::read_items_last;
use part_fold::decisions_are_plain;
use playback::region_order_is_lawful;
use run_rules::{finds_tell, found_account_decides};

/// The texts of nodes up to a stamp have their forms by what reads below it found.
pub(crate) fn texts_stand()
    ensures { TextsStand }
{
    finds_tell();
    found_account_decides();
    region_order_is_lawful();
    decisions_are_plain();
}

/// What a read found is what the nodes of its colours up to its stamp left.
pub(crate) fn versions_stand()
    ensures { VersionsStand }
{
    finds_tell();
    found_account_decides();
    region_order_is_lawful();
    region_order_is_unique();
    read_items_last();
    decisions_are_plain();
}
