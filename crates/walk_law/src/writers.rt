// The texts of transactions and decisions, whatever the numbers of the keys that they name.
ghost use Rattle.std.specs.Prelude.{◌≡◌};
ghost use Rattle.std.specs.List.{list_all};
ghost use Rattle.std.specs.Option.{option_copied};
ghost use Rattle.object_form.specs.Readings.{is_digit};
ghost use Rattle.lawful_run.specs.Deeds.{ADecision, IsText};
ghost use Rattle.column_track.specs.Tracks.{Tells};
ghost use Rattle.walk_law.specs.Asking.{keys_shown};
ghost use Rattle.walk_law.specs.TextsSaid.{AreVersionsThen, IsApart, IsBehindOne, IsTransactionOn, IsVersionThen, IsWriterThen, is_numeral, is_outcome, names_key, names_writer, says_after, says_decision};

use crate::fronts::{behind, behind_pairs, behind_signed, is_whole};
use log_node::Pair;
use object_form::cut;
use report_text::KeyAnswer;

// A number is written with 64 digits at most, the last ones of a greater number. So many stand behind the first.
const LATER_DIGITS: usize = 63;

// Digits alone.
fn are_digits(bytes: &[u8]) -> bool
    ensures { result ≡ list_all is_digit bytes.now }
{
    bytes.iter().all(|b| b.is_ascii_digit())
}

// Digits that are written of some number.
fn is_numeral(bytes: &[u8]) -> bool
    ensures { result ≡ is_numeral bytes.now }
{
    match bytes {
        [] => false,
        [first, others @ ..] => {
            are_digits(bytes)
                && (others.len() == LATER_DIGITS
                    || (others.len() < LATER_DIGITS && (b'1' <= *first || others.is_empty())))
        }
    }
}

// STAMP.CLIENT.COUNT.
fn names_key(bytes: &[u8]) -> bool
    ensures { result ≡ names_key bytes.now }
{
    let (stamp, id) = cut(bytes, b'.');
    let (client, count) = cut(id, b'.');
    is_numeral(stamp) && is_numeral(client) && is_numeral(count)
}

// A dash, or a key.
fn names_writer(bytes: &[u8]) -> bool
    ensures { result ≡ names_writer bytes.now }
{
    bytes == b"-".as_slice() || names_key(bytes)
}

// What stands behind a writer and a sign.
fn behind_writer<'t>(bytes: &'t [u8], sign: u8) -> Option<&'t [u8]>
    requires { IsApart sign }
    ensures { IsBehindOne (IsWriterThen sign) bytes.now (option_copied result) }
{
    let (writer, rest) = cut(bytes, sign);
    if writer.len() == bytes.len() {
        return None;
    }
    if names_writer(writer) {
        Some(rest)
    } else {
        None
    }
}

// What stands behind KEY@WRITER and a sign.
fn behind_version<'t>(bytes: &'t [u8], key: &[u8], sign: u8) -> Option<&'t [u8]>
    requires { IsApart sign }
    ensures { IsBehindOne (IsVersionThen key.now sign) bytes.now (option_copied result) }
{
    behind_writer(behind_signed(bytes, key, b'@')?, sign)
}

// What stands behind versions of these keys and a bar.
fn behind_versions<'t>(bytes: &'t [u8], shown: &[KeyAnswer]) -> Option<&'t [u8]>
    ensures { IsBehindOne (AreVersionsThen (keys_shown shown.now)) bytes.now (option_copied result) }
{
    match shown {
        [] => behind(bytes, b"|"),
        [last] => behind_version(bytes, last.key.as_bytes(), b'|'),
        [first, others @ ..] => {
            behind_versions(behind_version(bytes, first.key.as_bytes(), b',')?, others)
        }
    }
}

// What stands behind a transaction on versions of these keys.
fn behind_transaction<'t>(bytes: &'t [u8], shown: &[KeyAnswer], pairs: &[Pair]) -> Option<&'t [u8]>
    ensures { IsBehindOne (IsTransactionOn (keys_shown shown.now) pairs.now) bytes.now (option_copied result) }
{
    behind_pairs(behind_versions(behind(bytes, b"t:")?, shown)?, pairs)
}

/// Whether a text is that of a transaction with these pairs, on some versions of these keys.
pub(crate) fn is_transaction_on(text: &[u8], shown: &[KeyAnswer], pairs: &[Pair]) -> bool
    ensures { Tells result (IsTransactionOn (keys_shown shown.now) pairs.now text.now) }
{
    is_whole(behind_transaction(text, shown, pairs))
}

// One of the two outcomes.
fn is_outcome(bytes: &[u8]) -> bool
    ensures { result ≡ is_outcome bytes.now }
{
    bytes == b"1".as_slice() || bytes == b"0".as_slice()
}

// A key and an outcome.
fn says_after(bytes: &[u8]) -> bool
    ensures { result ≡ says_after bytes.now }
{
    let (key, outcome) = cut(bytes, b'=');
    names_key(key) && is_outcome(outcome)
}

// Both stand behind `z:`.
fn reads_decision(bytes: &[u8]) -> bool
    ensures { result ≡ says_decision bytes.now }
{
    match bytes {
        [b'z', b':', others @ ..] => says_after(others),
        _ => false,
    }
}

/// Whether a text is that of some decision.
pub fn is_decision(text: &[u8]) -> bool
    ensures { Tells result (IsText ADecision text.now) }
{
    reads_decision(text)
}
