// The pieces of a text: what stands about a sign, words, numbers, keys, pairs and versions.
ghost use Rattle.std.specs.Prelude.{◌≡◌, ◌≤◌, ◌==◌, IfOk, IsTrue, length, map, Some, None, if◌then◌else◌};
ghost use Rattle.std.specs.List.{list_all, list_any, slice_split};
ghost use Rattle.std.specs.Str.{bytes_eq};
ghost use Rattle.object_form.specs.Forms.{is_letter_or_digit, is_word, are_distinct};
ghost use Rattle.object_form.specs.Readings.{before, after, parts, pieces_in, is_digit, is_number, number_value, is_number_from, is_pair, are_pairs, key_in, is_dash, is_version, are_versions};

use log_node::{Id, Key, MAX_STAMP};
use std::alloc::{AllocError, Global};

/// The greatest count of a client.
const MAX_COUNT: u64 = (1 << 63) - 1;

/// What stands before the first such sign, and what stands after it: all and nothing, where there is none.
pub fn cut(bytes: &[u8], sign: u8) -> (&[u8], &[u8])
    ensures front { result.0.now ≡ before sign bytes.now }
    ensures rest { result.1.now ≡ after sign bytes.now }
{
    for (end, b) in bytes.iter().enumerate() {
        if *b == sign {
            return (&bytes[..end], &bytes[end + 1..]);
        }
    }
    (bytes, &[])
}

/// The parts between commas.
pub fn parts_of(alloc: Global, bytes: &[u8]) -> Result<Vec<&[u8]>, AllocError>
    ensures { IfOk result (λ found. pieces_in found.items ≡ parts bytes.now) }
{
    bytes.split(|b| *b == b',').collect(alloc)
}

/// Small letters and digits alone.
pub fn are_letters_or_digits(bytes: &[u8]) -> bool
    ensures { result ≡ list_all is_letter_or_digit bytes.now }
{
    bytes
        .iter()
        .all(|b| b.is_ascii_lowercase() || b.is_ascii_digit())
}

/// A key or a value: 1 to 16 small letters and digits.
pub fn is_word(bytes: &[u8]) -> bool
    ensures { result ≡ is_word bytes.now }
{
    1 <= bytes.len() && bytes.len() <= 16 && are_letters_or_digits(bytes)
}

fn are_digits(bytes: &[u8]) -> bool
    ensures { result ≡ list_all is_digit bytes.now }
{
    bytes.iter().all(|b| b.is_ascii_digit())
}

fn is_number(bytes: &[u8]) -> bool
    ensures { result ≡ is_number bytes.now }
{
    match bytes {
        [] => false,
        [first, others @ ..] => {
            are_digits(bytes) && (b'1' <= *first || others.is_empty()) && others.len() <= 18
        }
    }
}

// The number that the digits are.
fn number_value(digits: &[u8]) -> u64
    requires digits { IsTrue (list_all is_digit digits.now) }
    requires few { length digits.now ≤ 19 }
    ensures { result ≡ number_value digits.now }
{
    let mut value = 0;
    for b in digits {
        value = 10 * value + u64::from(*b - b'0');
    }
    value
}

// The number that the digits are, where it is one from the one to the other.
fn number_from(low: u64, high: u64, digits: &[u8]) -> Option<u64>
    ensures { result ≡ (if is_number_from low high digits.now then Some (number_value digits.now) else None) }
{
    if !is_number(digits) {
        return None;
    }
    let value = number_value(digits);
    if low <= value && value <= high {
        Some(value)
    } else {
        None
    }
}

/// The key that STAMP.CLIENT.COUNT names: numbers in the ranges of a writer, without leading zeros.
pub fn read_key(bytes: &[u8]) -> Option<Key>
    ensures { result ≡ key_in bytes.now }
{
    let (stamp, id) = cut(bytes, b'.');
    let (client, count) = cut(id, b'.');
    let stamp = number_from(1, MAX_STAMP, stamp)?;
    let client = number_from(0, 255, client)?;
    let count = number_from(0, MAX_COUNT, count)?;
    Some(Key {
        stamp,
        id: Id {
            client: client as u8,
            count,
        },
    })
}

/// KEY=VALUE.
pub fn is_pair(bytes: &[u8]) -> bool
    ensures { result ≡ is_pair bytes.now }
{
    let (key, value) = cut(bytes, b'=');
    is_word(key) && is_word(value)
}

// Some piece has this key before the sign.
fn has_key(pieces: &[&[u8]], sign: u8, key: &[u8]) -> bool
    ensures { result ≡ list_any (bytes_eq key.now) (map (before sign) (pieces_in pieces.now)) }
{
    match pieces {
        [] => false,
        [first, others @ ..] => key == cut(first, sign).0 || has_key(others, sign, key),
    }
}

// No two pieces have one key before the sign.
fn have_distinct_keys(pieces: &[&[u8]], sign: u8) -> bool
    ensures { result ≡ are_distinct (map (before sign) (pieces_in pieces.now)) }
{
    match pieces {
        [] => true,
        [first, others @ ..] => {
            !has_key(others, sign, cut(first, sign).0) && have_distinct_keys(others, sign)
        }
    }
}

fn are_all_pairs(pieces: &[&[u8]]) -> bool
    ensures { result ≡ list_all is_pair (pieces_in pieces.now) }
{
    pieces.iter().all(|piece| is_pair(piece))
}

/// At most this many pairs, with distinct keys.
pub fn are_pairs(most: usize, pieces: &[&[u8]]) -> bool
    ensures { result ≡ are_pairs most (pieces_in pieces.now) }
{
    pieces.len() <= most && are_all_pairs(pieces) && have_distinct_keys(pieces, b'=')
}

// The dash that stands for no writer.
fn is_dash(bytes: &[u8]) -> bool
    ensures { result ≡ is_dash bytes.now }
{
    bytes == b"-".as_slice()
}

fn is_version(bytes: &[u8]) -> bool
    ensures { result ≡ is_version bytes.now }
{
    let (key, writer) = cut(bytes, b'@');
    is_word(key) && (is_dash(writer) || read_key(writer).is_some())
}

fn are_all_versions(pieces: &[&[u8]]) -> bool
    ensures { result ≡ list_all is_version (pieces_in pieces.now) }
{
    pieces.iter().all(|piece| is_version(piece))
}

/// At most two versions, with distinct keys.
pub fn are_versions(pieces: &[&[u8]]) -> bool
    ensures { result ≡ are_versions (pieces_in pieces.now) }
{
    pieces.len() <= 2 && are_all_versions(pieces) && have_distinct_keys(pieces, b'@')
}
