// The lines of begun rows.
ghost use Rattle.std.specs.Prelude.{◌≡◌, Some, drop};
ghost use Rattle.report_reading.specs.Apart.{AreApart};
ghost use Rattle.report_reading.specs.Lists.{Gives};
ghost use Rattle.report_reading.specs.RowReadings.{why_at, mark_at, mark_begins, colour_mark_at, outcome_at, row_number_at, row_begins, row_at};

use crate::fault::ReadFault;
use crate::lists::{Readable, list};
use crate::pieces::{behind, behind_word, client, colour, first, id, number, region, small};
use crate::setting::Setting;
use log_node::{ColourMark, Mark, Outcome, Row, Why};
use report_text::RowReport;
use script_text::Script;
use std::alloc::Global;

// What was missing.
#[tactic(auto, unfolding(crate::specs::RowReadings::why_at))]
fn why(bytes: &[u8]) -> (Why, &[u8])
    ensures { why_at bytes.now ≡ (result.0, result.1.now) }
{
    if first(bytes) == b'm' {
        (Why::Memory, behind(bytes, 6))
    } else {
        (Why::StampEnd, behind(bytes, 8))
    }
}

// A mark.
#[tactic(auto, unfolding(crate::specs::RowReadings::mark_at))]
fn mark(bytes: &[u8]) -> (Mark, &[u8])
    ensures { mark_at bytes.now ≡ (result.0, result.1.now) }
{
    let next = first(bytes);
    if next == b'-' {
        return (Mark::None, behind(bytes, 1));
    }
    if next.is_ascii_digit() {
        let (stamp, rest) = number(bytes);
        return (Mark::Number(stamp), rest);
    }
    let (why, rest) = why(bytes);
    (Mark::Fenced(why), rest)
}

// COLOUR=MARK.
#[tactic(auto, unfolding(crate::specs::RowReadings::colour_mark_at))]
fn colour_mark<'b>(script: &Script, bytes: &'b [u8]) -> (ColourMark, &'b [u8])
    requires { AreApart script.now }
    ensures { colour_mark_at script.now bytes.now ≡ (result.0, result.1.now) }
{
    let (colour, rest) = colour(script, bytes);
    let (mark, rest) = mark(behind(rest, 1));
    (ColourMark { colour, mark }, rest)
}

/// What became of a row or of an id.
#[tactic(auto, unfolding(crate::specs::RowReadings::outcome_at))]
pub fn outcome(bytes: &[u8]) -> (Outcome, &[u8])
    ensures { outcome_at bytes.now ≡ (result.0, result.1.now) }
{
    let next = first(bytes);
    if next == b'o' {
        return (Outcome::Open, behind(bytes, 4));
    }
    if next == b'f' {
        let (stamp, rest) = number(behind(bytes, 6));
        return (Outcome::Final(stamp), rest);
    }
    let (why, rest) = why(behind(bytes, 5));
    (Outcome::Gone(why), rest)
}

// A client's row.
#[tactic(auto, unfolding(crate::specs::RowReadings::row_number_at))]
fn row_number<'b>(script: &Script, bytes: &'b [u8]) -> (Row, &'b [u8])
    requires { AreApart script.now }
    ensures { row_number_at script.now bytes.now ≡ (result.0, result.1.now) }
{
    let (client, rest) = client(script, bytes);
    let (number, rest) = small(behind(rest, 1));
    (Row { client, number }, rest)
}

impl Readable for ColourMark {
    ghost begins_at = { λ _ _ bytes. mark_begins bytes };

    ghost value_at = { λ known _ bytes. Some (colour_mark_at known.script (drop 1 bytes)) };

    fn begins(_setting: &Setting<'_>, _place: usize, bytes: &[u8]) -> bool {
        behind_word(bytes) == b'='
    }

    fn read<'b>(
        _alloc: Global,
        setting: &Setting<'_>,
        _place: usize,
        bytes: &'b [u8],
    ) -> Result<(ColourMark, &'b [u8]), ReadFault> {
        Ok(colour_mark(setting.script(), behind(bytes, 1)))
    }
}

impl Readable for RowReport {
    ghost begins_at = { λ _ _ bytes. row_begins bytes };

    ghost value_at = { λ known _ bytes. row_at known bytes };

    fn begins(_setting: &Setting<'_>, _place: usize, bytes: &[u8]) -> bool {
        first(bytes) == b'r'
    }

    #[tactic(auto, unfolding(crate::specs::RowReadings::row_at))]
    fn read<'b>(
        alloc: Global,
        setting: &Setting<'_>,
        _place: usize,
        bytes: &'b [u8],
    ) -> Result<(RowReport, &'b [u8]), ReadFault> {
        let script = setting.script();
        let (region, rest) = region(script, behind(bytes, 4));
        let (row, rest) = row_number(script, behind(rest, 1));
        let (id, rest) = id(script, behind(rest, 1));
        let (marks, rest) = list(alloc, setting, rest)?;
        let (last, rest) = outcome(behind(rest, 1));
        let row = RowReport {
            region,
            row,
            id,
            marks,
            last,
        };
        Ok((row, behind(rest, 1)))
    }
}
