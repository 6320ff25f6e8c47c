// The pieces of a report's lines, each read from the front of the bytes. What is read is printed again in the end and compared with
// the bytes, so no piece looks at what stands between its parts.
ghost use Rattle.std.specs.Prelude.{◌≡◌, ◌<◌, ◌≤◌, ◌%◌, ◌^◌, List, length, drop, nat_lt};
ghost use Rattle.script_text.specs.Pieces.{is_letter_or_digit, name_of};
ghost use Rattle.report_reading.specs.Apart.{AreApart, AreNames};
ghost use Rattle.report_reading.specs.Pieces.{first_of, word_len, word_at, number_at, small_at, byte_at, named_at, id_at, key_at, further_at, numbers_at, counts_at, place_at, raise_at, point_at, sync_at, behind_word, point_begins, behind_events, raise_begins, sync_begins};

use log_node::{At, Counts, Id, Key};
use report_text::{PointPiece, RaisePiece, SyncPiece};
use script_text::{NameSet, Script};

/// The bytes behind so many; none where there are fewer.
#[inline(always)]
pub fn behind(bytes: &[u8], count: usize) -> &[u8]
    ensures { result.now ≡ drop count bytes.now }
{
    match bytes.get(count..) {
        Some(rest) => rest,
        None => &[],
    }
}

/// The first byte; 0 where there is none.
#[inline(always)]
pub fn first(bytes: &[u8]) -> u8
    ensures { result ≡ first_of bytes.now }
{
    match bytes {
        [] => 0,
        [first, ..] => *first,
    }
}

// Whether the byte is a small letter or a digit.
fn is_letter_or_digit(b: u8) -> bool
    ensures { result ≡ is_letter_or_digit b }
{
    b.is_ascii_lowercase() || b.is_ascii_digit()
}

// How many letters and digits stand at the front.
fn word_len(bytes: &[u8]) -> usize
    ensures len { result ≡ word_len bytes.now }
    ensures within { result ≤ length bytes.now }
{
    let mut len = 0;
    let mut rest = bytes;
    while let [first, others @ ..] = rest {
        if !is_letter_or_digit(*first) {
            break;
        }
        len += 1;
        rest = others;
    }
    len
}

/// The letters and digits at the front.
#[tactic(auto, unfolding(crate::specs::Pieces::word_at))]
pub fn word(bytes: &[u8]) -> (&[u8], &[u8])
    ensures { word_at bytes.now ≡ (result.0.now, result.1.now) }
{
    bytes.split_at(word_len(bytes))
}

/// A number.
#[tactic(auto, unfolding(crate::specs::Pieces::number_at))]
pub fn number(bytes: &[u8]) -> (u64, &[u8])
    ensures { number_at bytes.now ≡ (result.0, result.1.now) }
{
    let mut value: u64 = 0;
    let mut rest = bytes;
    while let [first, others @ ..] = rest {
        if !first.is_ascii_digit() {
            break;
        }
        value = value
            .wrapping_mul(10)
            .wrapping_add(u64::from(*first - b'0'));
        rest = others;
    }
    (value, rest)
}

/// A number of 32 bits.
#[tactic(auto, unfolding(crate::specs::Pieces::small_at))]
pub fn small(bytes: &[u8]) -> (u32, &[u8])
    ensures { small_at bytes.now ≡ (result.0, result.1.now) }
{
    let (value, rest) = number(bytes);
    ((value % 0x1_0000_0000) as u32, rest)
}

/// A number of 8 bits.
#[tactic(auto, unfolding(crate::specs::Pieces::byte_at))]
pub fn byte(bytes: &[u8]) -> (u8, &[u8])
    ensures { byte_at bytes.now ≡ (result.0, result.1.now) }
{
    let (value, rest) = number(bytes);
    ((value % 0x100) as u8, rest)
}

// The number of the name at the front; that of the first name where it is none of these.
#[tactic(auto, unfolding(crate::specs::Pieces::named_at))]
fn named<'b>(names: &NameSet, bytes: &'b [u8]) -> (u8, &'b [u8])
    requires { length names.now ≤ 256 }
    ensures { named_at names.now bytes.now ≡ (result.0, result.1.now) }
{
    let (name, rest) = word(bytes);
    match names.number_of(name) {
        Some(number) => (number, rest),
        None => (0, rest),
    }
}

/// The name of a number; nothing where it names none.
#[tactic(auto, using(crate::proofs::NameLemmas::name_some, crate::proofs::NameLemmas::name_none))]
pub fn name(names: &NameSet, number: usize) -> &[u8]
    ensures { result.now ≡ name_of names.now number }
{
    match names.get(number) {
        Some(name) => name.as_bytes(),
        None => &[],
    }
}

/// The number of a client.
pub fn client<'b>(script: &Script, bytes: &'b [u8]) -> (u8, &'b [u8])
    requires { AreApart script.now }
    ensures { named_at script.now.clients bytes.now ≡ (result.0, result.1.now) }
{
    named(&script.clients, bytes)
}

/// The number of a colour.
pub fn colour<'b>(script: &Script, bytes: &'b [u8]) -> (u8, &'b [u8])
    requires { AreApart script.now }
    ensures { named_at script.now.colours bytes.now ≡ (result.0, result.1.now) }
{
    named(&script.colours, bytes)
}

/// The number of a region.
pub fn region<'b>(script: &Script, bytes: &'b [u8]) -> (u8, &'b [u8])
    requires { AreApart script.now }
    ensures { named_at script.now.regions bytes.now ≡ (result.0, result.1.now) }
{
    named(&script.regions, bytes)
}

/// An id.
#[tactic(auto, unfolding(crate::specs::Pieces::id_at))]
pub fn id<'b>(script: &Script, bytes: &'b [u8]) -> (Id, &'b [u8])
    requires { AreApart script.now }
    ensures { id_at script.now bytes.now ≡ (result.0, result.1.now) }
{
    let (client, rest) = client(script, bytes);
    let (count, rest) = number(behind(rest, 1));
    (Id { client, count }, rest)
}

/// A key.
#[tactic(auto, unfolding(crate::specs::Pieces::key_at))]
pub fn key<'b>(script: &Script, bytes: &'b [u8]) -> (Key, &'b [u8])
    requires { AreApart script.now }
    ensures { key_at script.now bytes.now ≡ (result.0, result.1.now) }
{
    let (id, rest) = id(script, bytes);
    let (stamp, rest) = number(behind(rest, 1));
    (Key { stamp, id }, rest)
}

// One number more behind a comma, or 0 where there is none.
#[tactic(auto, unfolding(crate::specs::Pieces::further_at))]
fn further(more: bool, bytes: &[u8]) -> (u64, &[u8])
    ensures { further_at more bytes.now ≡ (result.0, result.1.now) }
{
    if more {
        number(behind(bytes, 1))
    } else {
        (0, bytes)
    }
}

// One number for each of so many regions.
#[tactic(auto, unfolding(crate::specs::Pieces::numbers_at))]
fn numbers(regions: usize, bytes: &[u8]) -> (Counts, &[u8])
    ensures { numbers_at regions bytes.now ≡ (result.0, result.1.now) }
{
    let (a, rest) = number(bytes);
    let (b, rest) = further(1 < regions, rest);
    let (c, rest) = further(2 < regions, rest);
    let (d, rest) = further(3 < regions, rest);
    (Counts([a, b, c, d]), rest)
}

/// One number for each region.
#[tactic(auto, unfolding(crate::specs::Pieces::counts_at))]
pub fn counts<'b>(script: &Script, bytes: &'b [u8]) -> (Counts, &'b [u8])
    ensures { counts_at script.now bytes.now ≡ (result.0, result.1.now) }
{
    numbers(script.regions.len(), bytes)
}

/// The place of an event behind `!`, or else the number of events before a look.
#[tactic(auto, unfolding(crate::specs::Pieces::place_at))]
pub fn place(bytes: &[u8]) -> (At, &[u8])
    ensures { place_at bytes.now ≡ (result.0, result.1.now) }
{
    let (n, rest) = number(behind(bytes, 1));
    let place = if first(bytes) == b'!' {
        At::Event(n)
    } else {
        At::Look(n)
    };
    (place, rest)
}

/// A raise.
#[tactic(auto, unfolding(crate::specs::Pieces::raise_at))]
pub fn raise<'b>(script: &Script, bytes: &'b [u8]) -> (RaisePiece, &'b [u8])
    requires { AreApart script.now }
    ensures { raise_at script.now bytes.now ≡ (result.0, result.1.now) }
{
    let (colour, rest) = colour(script, bytes);
    let (at, rest) = place(rest);
    (RaisePiece { colour, at }, rest)
}

/// Where an append stands.
#[tactic(auto, unfolding(crate::specs::Pieces::point_at))]
pub fn point<'b>(script: &Script, bytes: &'b [u8]) -> (PointPiece, &'b [u8])
    requires { AreApart script.now }
    ensures { point_at script.now bytes.now ≡ (result.0, result.1.now) }
{
    let (raise, rest) = raise(script, bytes);
    let (position, rest) = number(behind(rest, 1));
    let point = PointPiece {
        colour: raise.colour,
        at: raise.at,
        position,
    };
    (point, rest)
}

/// A sync.
#[tactic(auto, unfolding(crate::specs::Pieces::sync_at))]
pub fn sync<'b>(script: &Script, bytes: &'b [u8]) -> (SyncPiece, &'b [u8])
    requires { AreApart script.now }
    ensures { sync_at script.now bytes.now ≡ (result.0, result.1.now) }
{
    let (colour, rest) = colour(script, bytes);
    let (events, rest) = number(behind(rest, 1));
    let (counts, rest) = counts(script, behind(rest, 1));
    let sync = SyncPiece {
        colour,
        events,
        counts,
    };
    (sync, rest)
}

/// What stands behind a word that follows a space; 0 where no word does.
pub fn behind_word(bytes: &[u8]) -> u8
    ensures { result ≡ behind_word bytes.now }
{
    if first(bytes) == b' ' {
        first(word(behind(bytes, 1)).1)
    } else {
        0
    }
}

/// Whether a point begins, behind a space.
pub fn point_begins(bytes: &[u8]) -> bool
    ensures { result ≡ point_begins bytes.now }
{
    matches!(behind_word(bytes), b'!' | b'?')
}

// What stands behind a name, a sign and a number that follow a space.
fn behind_events(bytes: &[u8]) -> u8
    ensures { result ≡ behind_events bytes.now }
{
    let rest = word(behind(bytes, 1)).1;
    first(number(behind(rest, 1)).1)
}

/// Whether a raise begins, behind a space: other than a sync it has no slash.
pub fn raise_begins(bytes: &[u8]) -> bool
    ensures { result ≡ raise_begins bytes.now }
{
    point_begins(bytes) && behind_events(bytes) != b'/'
}

/// Whether a sync begins, behind a space.
pub fn sync_begins(bytes: &[u8]) -> bool
    ensures { result ≡ sync_begins bytes.now }
{
    behind_word(bytes) == b'?'
}
