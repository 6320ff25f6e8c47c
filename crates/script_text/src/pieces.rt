// The pieces of a script's bytes: lines, fields, and what a field may be.
ghost use Rattle.std.specs.Prelude.{◌≡◌, ◌<◌, ◌≤◌, ◌==◌, ◌↔◌, [], ◌∷◌, ℕ, true, false, ◌+◌, length, drop, map, slice_index_or, Ok, IfOk, IsNone, IfSome, IsTrue};
ghost use Rattle.std.specs.List.{list_all};
ghost use Rattle.script_text.specs.declared.limits.TheConstants.{ROWS_DIGITS};
ghost use Rattle.script_text.specs.Pieces.{lines_of, fields_of, is_between, is_ascii_line, is_letter_or_digit, is_name, is_key, is_text, is_transactional, is_among, is_digit, is_number, number_value};
ghost use Rattle.script_text.specs.Grammar.{has_equals, key_in, value_in};
ghost use Rattle.script_text.specs.Readings.{fields_in};

use crate::limits::{MAX_KEY, MAX_NAME};
use log_node::{MAX_TEXT, Text};
use memchr::memchr;
use smallvec::SmallVec;
use std::alloc::AllocError;

/// The first line of the bytes, and the bytes after it.
pub fn first_line(bytes: &[u8]) -> (&[u8], &[u8])
    requires { 0 < length bytes.now }
    ensures line { lines_of bytes.now ≡ result.0.now ∷ lines_of result.1.now }
    ensures rest { length result.1.now < length bytes.now }
{
    match memchr(b'\n', bytes) {
        Some(end) => (&bytes[..end], &bytes[end + 1..]),
        None => (bytes, &[]),
    }
}

/// The fields of a line: in place, so that only a line of more of them, which no command has, takes memory.
pub type Fields<'a> = SmallVec<&'a [u8], PLACES>;

// As many fields as a command has at most, and one more.
const PLACES: usize = 8;

/// How many bytes at the front are visible: none is a blank, a control or beyond ASCII.
pub fn visible_front(bytes: &[u8]) -> usize
    ensures within { result ≤ length bytes.now }
    ensures front { (k : ℕ) → k < result → is_between 33 126 (slice_index_or bytes.now k 0) ≡ true }
    ensures stop { result < length bytes.now → is_between 33 126 (slice_index_or bytes.now result 0) ≡ false }
{
    for (at, b) in bytes.iter().enumerate() {
        if !matches!(*b, b'!'..=b'~') {
            return at;
        }
    }
    bytes.len()
}

/// The bytes behind a place.
pub fn behind(bytes: &[u8], at: usize) -> &[u8]
    requires { at < length bytes.now }
    ensures { result.now ≡ drop (at + 1) bytes.now }
{
    &bytes[at + 1..]
}

/// Cuts a line at its spaces, and says whether each byte of it is from 0x20 to 0x7E.
pub fn cut_line<'a>(fields: &mut Fields<'a>, line: &'a [u8]) -> Result<bool, AllocError>
    requires { fields.old.items ≡ [] }
    ensures ascii { IfOk result (λ ascii. ascii ≡ is_ascii_line line.now) }
    ensures fields { result ≡ Ok true → fields_in fields.new.items ≡ fields_of line.now }
{
    let mut rest = line;
    loop {
        let end = visible_front(rest);
        if end >= rest.len() {
            fields.push(rest)?;
            return Ok(true);
        }
        if rest[end] != b' ' {
            return Ok(false);
        }
        fields.push(&rest[..end])?;
        rest = behind(rest, end);
    }
}

/// How many bytes at the front are no comma.
pub fn comma_front(bytes: &[u8]) -> usize
    ensures within { result ≤ length bytes.now }
    ensures front { (k : ℕ) → k < result → (slice_index_or bytes.now k 0 == 44) ≡ false }
    ensures stop { result < length bytes.now → (slice_index_or bytes.now result 0 == 44) ≡ true }
{
    for (at, b) in bytes.iter().enumerate() {
        if *b == b',' {
            return at;
        }
    }
    bytes.len()
}

/// Whether each byte is from 0x20 to 0x7E.
pub fn is_ascii_line(line: &[u8]) -> bool
    ensures { result ≡ is_ascii_line line.now }
{
    line.iter().all(|b| matches!(*b, b' '..=b'~'))
}

/// Whether each byte is a small letter or a digit.
pub fn are_letters_or_digits(bytes: &[u8]) -> bool
    ensures { result ≡ list_all is_letter_or_digit bytes.now }
{
    bytes
        .iter()
        .all(|b| b.is_ascii_lowercase() || b.is_ascii_digit())
}

/// 1 to 12 letters and digits, the first a letter.
pub fn is_name(field: &[u8]) -> bool
    ensures { result ≡ is_name field.now }
{
    match field {
        [] => false,
        [first, others @ ..] => {
            first.is_ascii_lowercase() && are_letters_or_digits(others) && others.len() < MAX_NAME
        }
    }
}

/// A key or a value of an object: 1 to 16 letters and digits.
pub fn is_key(field: &[u8]) -> bool
    ensures { result ≡ is_key field.now }
{
    1 <= field.len() && field.len() <= MAX_KEY && are_letters_or_digits(field)
}

// With no early exit, so that it is compiled to several bytes at a time.
fn are_visible(bytes: &[u8]) -> bool
    ensures { result ≡ list_all (is_between 33 126) bytes.now }
{
    let mut all = true;
    for b in bytes {
        all &= matches!(*b, b'!'..=b'~');
    }
    all
}

/// 1 to 200 bytes, none a blank.
pub fn is_text(field: &[u8]) -> bool
    ensures { result ≡ is_text field.now }
{
    1 <= field.len() && field.len() <= MAX_TEXT && are_visible(field)
}

/// Such a text is a transaction's or a decision's.
pub fn is_transactional(field: &[u8]) -> bool
    ensures { result ≡ is_transactional field.now }
{
    match field {
        [first, second, ..] => (*first == b't' || *first == b'z') && *second == b':',
        _ => false,
    }
}

/// The name is one of these.
pub fn is_among(names: &[Text], name: &[u8]) -> bool
    ensures { result ≡ is_among names.now name.now }
{
    names.iter().any(|other| name == other.as_bytes())
}

/// The key and the value about the first `=`.
pub fn split_pair(field: &[u8]) -> Option<(&[u8], &[u8])>
    ensures none { IsNone result ↔ (has_equals field.now ≡ false) }
    ensures parts { IfSome result (λ pair. (pair.0.now ≡ key_in field.now)
        × (pair.1.now ≡ value_in field.now)) }
{
    match memchr(b'=', field) {
        Some(end) => Some((&field[..end], &field[end + 1..])),
        None => None,
    }
}

fn are_digits(bytes: &[u8]) -> bool
    ensures { result ≡ list_all is_digit bytes.now }
{
    bytes.iter().all(|b| b.is_ascii_digit())
}

/// A number of at most this many digits: 0, or digits of which the first is not 0.
pub fn is_number(most: usize, field: &[u8]) -> bool
    ensures { result ≡ is_number most field.now }
{
    match field {
        [] => false,
        [first, others @ ..] => {
            are_digits(field)
                && (matches!(*first, b'1'..=b'9') || others.is_empty())
                && others.len() < most
        }
    }
}

/// The number that the digits are.
pub fn number_value(digits: &[u8]) -> u64
    requires digits { IsTrue (list_all is_digit digits.now) }
    requires few { length digits.now ≤ ROWS_DIGITS }
    ensures { result ≡ number_value digits.now }
{
    let mut value = 0;
    for b in digits {
        value = 10 * value + u64::from(*b - b'0');
    }
    value
}
