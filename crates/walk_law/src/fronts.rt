// What stands behind fronts of texts.
ghost use Rattle.std.specs.Prelude.{◌≡◌, ◌++◌, ◌∷◌, [], Some};
ghost use Rattle.std.specs.Option.{option_copied};
ghost use Rattle.object_form.specs.Forms.{comma, equals, pair_text, pairs_text};
ghost use Rattle.column_track.specs.Tracks.{Tells};
ghost use Rattle.walk_law.specs.TextsSaid.{IsBehind};

use log_node::{Pair, Text};

/// What stands behind a front, if the bytes begin with it.
pub(crate) fn behind<'t>(bytes: &'t [u8], front: &[u8]) -> Option<&'t [u8]>
    ensures { IsBehind front.now bytes.now (option_copied result) }
{
    bytes.strip_prefix(front)
}

/// What stands behind a word and a sign.
pub(crate) fn behind_signed<'t>(bytes: &'t [u8], word: &[u8], sign: u8) -> Option<&'t [u8]>
    ensures { IsBehind (word.now ++ sign ∷ []) bytes.now (option_copied result) }
{
    behind(behind(bytes, word)?, std::slice::from_ref(&sign))
}

/// What stands behind KEY=VALUE.
pub(crate) fn behind_pair<'t>(bytes: &'t [u8], key: &Text, value: &Text) -> Option<&'t [u8]>
    ensures { IsBehind (key.now ++ equals ∷ value.now) bytes.now (option_copied result) }
{
    behind(
        behind_signed(bytes, key.as_bytes(), b'=')?,
        value.as_bytes(),
    )
}

// What stands behind a pair and a comma.
fn behind_pair_signed<'t>(bytes: &'t [u8], pair: &Pair) -> Option<&'t [u8]>
    ensures { IsBehind (pair_text pair.now ++ comma ∷ []) bytes.now (option_copied result) }
{
    behind(behind_pair(bytes, &pair.key, &pair.value)?, b",")
}

/// What stands behind pairs with commas.
pub(crate) fn behind_pairs<'t>(bytes: &'t [u8], pairs: &[Pair]) -> Option<&'t [u8]>
    ensures { IsBehind (pairs_text pairs.now) bytes.now (option_copied result) }
{
    match pairs {
        [] => Some(bytes),
        [pair] => behind_pair(bytes, &pair.key, &pair.value),
        [pair, others @ ..] => behind_pairs(behind_pair_signed(bytes, pair)?, others),
    }
}

/// Whether nothing stands behind a front with which bytes begin.
pub(crate) fn is_whole(rest: Option<&[u8]>) -> bool
    ensures { Tells result (option_copied rest.entry ≡ Some []) }
{
    match rest {
        Some(rest) => rest.is_empty(),
        None => false,
    }
}
