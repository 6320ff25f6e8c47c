// The copy that is published, and what it takes in.
ghost use Rattle.std.specs.Prelude.{◌≡◌, length};
ghost use Rattle.turn_cell.specs.Rests.{IsAtRest, rest_seen, rest_table, rest_tag, rest_view};

use crate::read_view::shown::Shown;
use crate::told::{Tag, Told};
use col_core::View;
use turn_cell::Rest;

/// What is shown, and a pass that has seen just what that shows.
#[derive(Drop)]
pub struct Copied {
    pub(crate) shown: Shown,
    pub(crate) rest: Rest<Told, Tag>,
    ghost rests: { IsAtRest (rest_view rest) },
}

/// What there is from the copy's cut on, and for each of the two copies a pass that has then seen all.
#[derive(Drop)]
pub struct News {
    pub(crate) view: View,
    pub(crate) first: Rest<Told, Tag>,
    pub(crate) second: Rest<Told, Tag>,
    ghost four: { length view.items ≡ 4 },
    ghost rests: { IsAtRest (rest_view first) × IsAtRest (rest_view second) },
    ghost alike: { (rest_seen second ≡ rest_seen first) × (rest_table second ≡ rest_table first)
        × (rest_tag second ≡ rest_tag first) },
}
