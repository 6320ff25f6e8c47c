// What answers have in common: texts, points, rows, and stamped reads.
ghost use Rattle.std.specs.Prelude.{◌≡◌, ◌==◌, Some, drop, true};
ghost use Rattle.std.specs.List.{list_all};
ghost use Rattle.script_text.specs.Pieces.{is_letter_or_digit, is_key};
ghost use Rattle.report_reading.specs.Lists.{Gives};
ghost use Rattle.report_reading.specs.Pieces.{point_at, raise_at, sync_at, point_begins, raise_begins, sync_begins};
ghost use Rattle.report_reading.specs.ColumnReadings.{listed_begins, behind_comma};
ghost use Rattle.report_reading.specs.AnswerReadings.{key_text_at, texts_at, read_at, has_row, row_number_told_at, ruling_at, value_at, key_answer_at, key_answer_begins, values_at};

use crate::columns::{behind_comma, behind_dash, listed_begins};
use crate::fault::ReadFault;
use crate::lists::{Readable, list};
use crate::pieces::{
    behind, behind_word, first, number, point, point_begins, raise, raise_begins, small, sync,
    sync_begins, word,
};
use crate::setting::Setting;
use log_node::{ListOf, Names, Text};
use report_text::{KeyAnswer, PointPiece, RaisePiece, SyncPiece};
use std::alloc::Global;

/// The raises and the syncs of a stamped read.
#[derive(Drop)]
pub struct Read {
    pub raises: ListOf<RaisePiece>,
    pub syncs: ListOf<SyncPiece>,
}

/// Where a node stands on which is ruled, and the stamped read that told it.
#[derive(Drop)]
pub struct Ruling {
    pub stamp: u64,
    pub row: Option<u32>,
    pub points: ListOf<PointPiece>,
    pub read_stamp: u64,
    pub read: Read,
}

// Whether a word is a key or a value: no more than 16 bytes, and one at least.
fn is_key(word: &[u8]) -> bool
    requires { list_all is_letter_or_digit word.now ≡ true }
    ensures { result ≡ is_key word.now }
{
    1 <= word.len() && word.len() <= 16
}

/// A key or a value.
#[tactic(auto, unfolding(crate::specs::AnswerReadings::key_text_at))]
pub fn key_text(alloc: Global, bytes: &[u8]) -> Result<(Text, &[u8]), ReadFault>
    ensures { Gives (λ x. (x.0, x.1.now)) result (key_text_at bytes.now) }
{
    let (word, rest) = word(bytes);
    if !is_key(word) {
        return Err(ReadFault::Form);
    }
    Ok((Text::copied(alloc, word)?, rest))
}

impl Readable for Text {
    ghost begins_at = { λ _ _ bytes. listed_begins bytes };

    ghost value_at = { λ _ _ bytes. key_text_at (behind_comma bytes) };

    fn begins(_setting: &Setting<'_>, _place: usize, bytes: &[u8]) -> bool {
        listed_begins(bytes)
    }

    fn read<'b>(
        alloc: Global,
        _setting: &Setting<'_>,
        _place: usize,
        bytes: &'b [u8],
    ) -> Result<(Text, &'b [u8]), ReadFault> {
        key_text(alloc, behind_comma(bytes))
    }
}

/// Texts with commas between them, or a dash.
pub fn texts<'b>(
    alloc: Global,
    setting: &Setting<'_>,
    bytes: &'b [u8],
) -> Result<(Names, &'b [u8]), ReadFault>
    ensures { Gives (λ x. (x.0, x.1.now)) result (texts_at setting.now bytes.now) }
{
    let (texts, rest) = list(alloc, setting, bytes)?;
    Ok((texts, behind_dash(rest)))
}

impl Readable for PointPiece {
    ghost begins_at = { λ _ _ bytes. point_begins bytes };

    ghost value_at = { λ known _ bytes. Some (point_at known.script (drop 1 bytes)) };

    fn begins(_setting: &Setting<'_>, _place: usize, bytes: &[u8]) -> bool {
        point_begins(bytes)
    }

    fn read<'b>(
        _alloc: Global,
        setting: &Setting<'_>,
        _place: usize,
        bytes: &'b [u8],
    ) -> Result<(PointPiece, &'b [u8]), ReadFault> {
        Ok(point(setting.script(), behind(bytes, 1)))
    }
}

impl Readable for RaisePiece {
    ghost begins_at = { λ _ _ bytes. raise_begins bytes };

    ghost value_at = { λ known _ bytes. Some (raise_at known.script (drop 1 bytes)) };

    fn begins(_setting: &Setting<'_>, _place: usize, bytes: &[u8]) -> bool {
        raise_begins(bytes)
    }

    fn read<'b>(
        _alloc: Global,
        setting: &Setting<'_>,
        _place: usize,
        bytes: &'b [u8],
    ) -> Result<(RaisePiece, &'b [u8]), ReadFault> {
        Ok(raise(setting.script(), behind(bytes, 1)))
    }
}

impl Readable for SyncPiece {
    ghost begins_at = { λ _ _ bytes. sync_begins bytes };

    ghost value_at = { λ known _ bytes. Some (sync_at known.script (drop 1 bytes)) };

    fn begins(_setting: &Setting<'_>, _place: usize, bytes: &[u8]) -> bool {
        sync_begins(bytes)
    }

    fn read<'b>(
        _alloc: Global,
        setting: &Setting<'_>,
        _place: usize,
        bytes: &'b [u8],
    ) -> Result<(SyncPiece, &'b [u8]), ReadFault> {
        Ok(sync(setting.script(), behind(bytes, 1)))
    }
}

/// The raises and the syncs of a stamped read.
#[tactic(auto, unfolding(crate::specs::AnswerReadings::read_at))]
pub fn read_of<'b>(
    alloc: Global,
    setting: &Setting<'_>,
    bytes: &'b [u8],
) -> Result<(Read, &'b [u8]), ReadFault>
    ensures { Gives (λ x. (x.0, x.1.now)) result (read_at setting.now bytes.now) }
{
    let (raises, rest) = list(alloc, setting, bytes)?;
    let (syncs, rest) = list(alloc, setting, rest)?;
    Ok((Read { raises, syncs }, rest))
}

// Whether a row begins: `row` behind a space, and no point of a colour of that name.
fn has_row(bytes: &[u8]) -> bool
    ensures { result ≡ has_row bytes.now }
{
    first(bytes) == b' ' && first(behind(bytes, 1)) == b'r' && !point_begins(bytes)
}

/// The number of a row, where one begins.
#[tactic(auto, unfolding(crate::specs::AnswerReadings::row_number_told_at))]
pub fn row_told(bytes: &[u8]) -> (Option<u32>, &[u8])
    ensures { row_number_told_at bytes.now ≡ (result.0, result.1.now) }
{
    if !has_row(bytes) {
        return (None, bytes);
    }
    let (number, rest) = small(behind(bytes, 5));
    (Some(number), rest)
}

/// What stands behind the first words of a ruling.
#[tactic(auto, unfolding(crate::specs::AnswerReadings::ruling_at))]
pub fn ruling_of<'b>(
    alloc: Global,
    setting: &Setting<'_>,
    bytes: &'b [u8],
) -> Result<(Ruling, &'b [u8]), ReadFault>
    ensures { Gives (λ x. (x.0, x.1.now)) result (ruling_at setting.now bytes.now) }
{
    let (stamp, rest) = number(bytes);
    let (row, rest) = row_told(rest);
    let (points, rest) = list(alloc, setting, rest)?;
    let (read_stamp, rest) = number(behind(rest, 4));
    let (read, rest) = read_of(alloc, setting, rest)?;
    let ruling = Ruling {
        stamp,
        row,
        points,
        read_stamp,
        read,
    };
    Ok((ruling, rest))
}

/// A value and a space, or none.
#[tactic(auto, unfolding(crate::specs::AnswerReadings::value_at))]
pub fn value(alloc: Global, found: bool, bytes: &[u8]) -> Result<(Option<Text>, &[u8]), ReadFault>
    ensures { Gives (λ x. (x.0, x.1.now)) result (value_at found bytes.now) }
{
    if !found {
        return Ok((None, bytes));
    }
    let (value, rest) = key_text(alloc, bytes)?;
    Ok((Some(value), behind(rest, 1)))
}

/// The values that were found and a space, or none.
#[tactic(auto, unfolding(crate::specs::AnswerReadings::values_at))]
pub fn values<'b>(
    alloc: Global,
    setting: &Setting<'_>,
    found: bool,
    bytes: &'b [u8],
) -> Result<(Names, &'b [u8]), ReadFault>
    ensures { Gives (λ x. (x.0, x.1.now)) result (values_at setting.now found bytes.now) }
{
    if !found {
        return Ok((ListOf::new(alloc), bytes));
    }
    let (values, rest) = texts(alloc, setting, bytes)?;
    Ok((values, behind(rest, 1)))
}

// KEY=VALUE, or KEY=-.
#[tactic(auto, unfolding(crate::specs::AnswerReadings::key_answer_at))]
fn key_answer(alloc: Global, bytes: &[u8]) -> Result<(KeyAnswer, &[u8]), ReadFault>
    ensures { Gives (λ x. (x.0, x.1.now)) result (key_answer_at bytes.now) }
{
    let (key, rest) = key_text(alloc, bytes)?;
    if first(behind(rest, 1)) == b'-' {
        return Ok((KeyAnswer { key, value: None }, behind(rest, 2)));
    }
    let (value, rest) = key_text(alloc, behind(rest, 1))?;
    let answer = KeyAnswer {
        key,
        value: Some(value),
    };
    Ok((answer, rest))
}

impl Readable for KeyAnswer {
    ghost begins_at = { λ _ _ bytes. key_answer_begins bytes };

    ghost value_at = { λ _ _ bytes. key_answer_at (drop 1 bytes) };

    fn begins(_setting: &Setting<'_>, _place: usize, bytes: &[u8]) -> bool {
        behind_word(bytes) == b'='
    }

    fn read<'b>(
        alloc: Global,
        _setting: &Setting<'_>,
        _place: usize,
        bytes: &'b [u8],
    ) -> Result<(KeyAnswer, &'b [u8]), ReadFault> {
        key_answer(alloc, behind(bytes, 1))
    }
}
