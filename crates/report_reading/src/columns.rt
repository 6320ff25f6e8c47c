// The lines of columns.
ghost use Rattle.std.specs.Prelude.{◌≡◌, Some, drop, ◌==◌, ◌*◌, ◌/◌, ◌%◌, true, nat_lt, length};
ghost use Rattle.report_reading.specs.Apart.{AreApart};
ghost use Rattle.report_reading.specs.Pieces.{first_of, key_at};
ghost use Rattle.report_reading.specs.Lists.{Gives};
ghost use Rattle.report_reading.specs.ColumnReadings.{head_at, entering_at, entered, settle_at, give_at, carry_at, event_at, entry_begins, entry_at, listed_begins, behind_comma, behind_dash, queue_key_at, line_at, queue_at, closing_at, column_begins, behind_names, column_at};

use crate::fault::ReadFault;
use crate::lists::{Readable, list};
use crate::pieces::{behind, client, counts, first, id, key, name, number, region};
use crate::rows::outcome;
use crate::setting::Setting;
use col_core::{Entry, Event};
use log_node::{Counts, Head, Id, Key, ListOf, Text};
use report_text::{ColumnReport, QueueKey};
use script_text::Script;
use std::alloc::Global;

// An id that enters, with the floor and the wants of its append and the stamp that it was given.
#[derive(Clone, Copy)]
struct Entering {
    id: Id,
    floor: u64,
    wants: Counts,
    stamp: u64,
}

// What a column is in the end.
#[derive(Drop)]
struct Closing {
    clock: u64,
    line: ListOf<Key>,
    queue: ListOf<QueueKey>,
    cut: Counts,
    base: Counts,
}

#[tactic(auto, unfolding(crate::specs::ColumnReadings::head_at))]
fn head<'b>(script: &Script, bytes: &'b [u8]) -> (Head, &'b [u8])
    requires { AreApart script.now }
    ensures { head_at script.now bytes.now ≡ (result.0, result.1.now) }
{
    let (key, rest) = key(script, bytes);
    let (needs, rest) = counts(script, behind(rest, 1));
    (Head { key, needs }, rest)
}

impl Readable for Head {
    ghost begins_at = { λ _ _ bytes. first_of bytes == 32 };

    ghost value_at = { λ known _ bytes. Some (head_at known.script (drop 1 bytes)) };

    fn begins(_setting: &Setting<'_>, _place: usize, bytes: &[u8]) -> bool {
        first(bytes) == b' '
    }

    fn read<'b>(
        _alloc: Global,
        setting: &Setting<'_>,
        _place: usize,
        bytes: &'b [u8],
    ) -> Result<(Head, &'b [u8]), ReadFault> {
        Ok(head(setting.script(), behind(bytes, 1)))
    }
}

#[tactic(auto, unfolding(crate::specs::ColumnReadings::entering_at))]
fn entering_of<'b>(script: &Script, bytes: &'b [u8]) -> (Entering, &'b [u8])
    requires { AreApart script.now }
    ensures { entering_at script.now bytes.now ≡ (result.0, result.1.now) }
{
    let (id, rest) = id(script, bytes);
    let (floor, rest) = number(behind(rest, 7));
    let (wants, rest) = counts(script, behind(rest, 7));
    let (stamp, rest) = number(behind(rest, 7));
    let entering = Entering {
        id,
        floor,
        wants,
        stamp,
    };
    (entering, rest)
}

// An entry that gives no stamp.
fn unstamped(by: u8, event: Event) -> Entry
    ensures { result ≡ record { by = by; event = event; stamp = 0 } }
{
    Entry {
        by,
        event,
        stamp: 0,
    }
}

#[tactic(auto, unfolding(crate::specs::ColumnReadings::settle_at))]
fn settle<'b>(script: &Script, by: u8, bytes: &'b [u8]) -> (Entry, &'b [u8])
    requires { AreApart script.now }
    ensures { settle_at script.now by bytes.now ≡ (result.0, result.1.now) }
{
    let (id, rest) = id(script, bytes);
    let (outcome, rest) = outcome(behind(rest, 1));
    (unstamped(by, Event::Settle { id, outcome }), rest)
}

#[tactic(auto, unfolding(crate::specs::ColumnReadings::give_at))]
fn give<'b>(script: &Script, by: u8, bytes: &'b [u8]) -> (Entry, &'b [u8])
    requires { AreApart script.now }
    ensures { give_at script.now by bytes.now ≡ (result.0, result.1.now) }
{
    let (region, rest) = region(script, bytes);
    let (from, rest) = number(behind(rest, 1));
    (unstamped(by, Event::Give { region, from }), rest)
}

#[tactic(auto, unfolding(crate::specs::ColumnReadings::carry_at))]
fn carry<'b>(
    alloc: Global,
    setting: &Setting<'_>,
    by: u8,
    bytes: &'b [u8],
) -> Result<(Entry, &'b [u8]), ReadFault>
    ensures { Gives (λ x. (x.0, x.1.now)) result (carry_at setting.now by bytes.now) }
{
    let (region, rest) = region(setting.script(), bytes);
    let (start, rest) = number(behind(rest, 1));
    let (heads, rest) = list(alloc, setting, rest)?;
    let carry = Event::Carry {
        region,
        start,
        heads,
    };
    Ok((unstamped(by, carry), rest))
}

// A single or a propose.
fn entered(by: u8, single: bool, e: Entering) -> Entry
    ensures { result ≡ entered by single e }
{
    let Entering {
        id,
        floor,
        wants,
        stamp,
    } = e;
    let event = if single {
        Event::Single { id, floor, wants }
    } else {
        Event::Propose { id, floor, wants }
    };
    Entry { by, event, stamp }
}

// An event, by its first letters.
#[tactic(auto, unfolding(crate::specs::ColumnReadings::event_at))]
fn event<'b>(
    alloc: Global,
    setting: &Setting<'_>,
    by: u8,
    bytes: &'b [u8],
) -> Result<(Entry, &'b [u8]), ReadFault>
    ensures { Gives (λ x. (x.0, x.1.now)) result (event_at setting.now by bytes.now) }
{
    let script = setting.script();
    match first(bytes) {
        b's' => {
            if first(behind(bytes, 1)) == b'i' {
                let (e, rest) = entering_of(script, behind(bytes, 7));
                Ok((entered(by, true, e), rest))
            } else {
                Ok(settle(script, by, behind(bytes, 7)))
            }
        }
        b'p' => {
            let (e, rest) = entering_of(script, behind(bytes, 8));
            Ok((entered(by, false, e), rest))
        }
        b'r' => {
            let (to, rest) = number(behind(bytes, 6));
            Ok((unstamped(by, Event::Raise { to }), rest))
        }
        b'g' => Ok(give(script, by, behind(bytes, 5))),
        b'c' => carry(alloc, setting, by, behind(bytes, 6)),
        _ => {
            let (counts, rest) = counts(script, behind(bytes, 5));
            Ok((unstamped(by, Event::Trim { counts }), rest))
        }
    }
}

impl Readable for Entry {
    ghost begins_at = { λ _ place bytes. entry_begins place bytes };

    ghost value_at = { λ known _ bytes. entry_at known bytes };

    fn begins(_setting: &Setting<'_>, place: usize, bytes: &[u8]) -> bool {
        place < usize::MAX && first(bytes).is_ascii_digit()
    }

    #[tactic(auto, unfolding(crate::specs::ColumnReadings::entry_at))]
    fn read<'b>(
        alloc: Global,
        setting: &Setting<'_>,
        _place: usize,
        bytes: &'b [u8],
    ) -> Result<(Entry, &'b [u8]), ReadFault> {
        let (_, rest) = number(bytes);
        let (by, rest) = client(setting.script(), behind(rest, 1));
        let (entry, rest) = event(alloc, setting, by, behind(rest, 1))?;
        Ok((entry, behind(rest, 1)))
    }
}

/// Whether one more of a list begins: at a comma, or with a letter or a digit where it is the first.
pub fn listed_begins(bytes: &[u8]) -> bool
    ensures { result ≡ listed_begins bytes.now }
{
    let next = first(bytes);
    next == b',' || next.is_ascii_lowercase() || next.is_ascii_digit()
}

/// The bytes behind a comma, if there is one.
pub fn behind_comma(bytes: &[u8]) -> &[u8]
    ensures { result.now ≡ behind_comma bytes.now }
{
    if first(bytes) == b',' {
        behind(bytes, 1)
    } else {
        bytes
    }
}

/// The bytes behind the dash of an empty list, if there is one.
pub fn behind_dash(bytes: &[u8]) -> &[u8]
    ensures { result.now ≡ behind_dash bytes.now }
{
    if first(bytes) == b'-' {
        behind(bytes, 1)
    } else {
        bytes
    }
}

impl Readable for Key {
    ghost begins_at = { λ _ _ bytes. listed_begins bytes };

    ghost value_at = { λ known _ bytes. Some (key_at known.script (behind_comma bytes)) };

    fn begins(_setting: &Setting<'_>, _place: usize, bytes: &[u8]) -> bool {
        listed_begins(bytes)
    }

    fn read<'b>(
        _alloc: Global,
        setting: &Setting<'_>,
        _place: usize,
        bytes: &'b [u8],
    ) -> Result<(Key, &'b [u8]), ReadFault> {
        Ok(key(setting.script(), behind_comma(bytes)))
    }
}

#[tactic(auto, unfolding(crate::specs::ColumnReadings::queue_key_at))]
fn queue_key<'b>(script: &Script, bytes: &'b [u8]) -> (QueueKey, &'b [u8])
    requires { AreApart script.now }
    ensures { queue_key_at script.now bytes.now ≡ (result.0, result.1.now) }
{
    let (key, rest) = key(script, bytes);
    if first(rest) == b'?' {
        let open = QueueKey {
            key,
            settled: false,
        };
        (open, behind(rest, 1))
    } else {
        (QueueKey { key, settled: true }, rest)
    }
}

impl Readable for QueueKey {
    ghost begins_at = { λ _ _ bytes. listed_begins bytes };

    ghost value_at = { λ known _ bytes. Some (queue_key_at known.script (behind_comma bytes)) };

    fn begins(_setting: &Setting<'_>, _place: usize, bytes: &[u8]) -> bool {
        listed_begins(bytes)
    }

    fn read<'b>(
        _alloc: Global,
        setting: &Setting<'_>,
        _place: usize,
        bytes: &'b [u8],
    ) -> Result<(QueueKey, &'b [u8]), ReadFault> {
        Ok(queue_key(setting.script(), behind_comma(bytes)))
    }
}

#[tactic(auto, unfolding(crate::specs::ColumnReadings::closing_at))]
fn closing_of<'b>(
    alloc: Global,
    setting: &Setting<'_>,
    bytes: &'b [u8],
) -> Result<(Closing, &'b [u8]), ReadFault>
    ensures { Gives (λ x. (x.0, x.1.now)) result (closing_at setting.now bytes.now) }
{
    let script = setting.script();
    let (clock, rest) = number(behind(bytes, 8));
    let (line, rest) = list(alloc, setting, behind(rest, 6))?;
    let (queue, rest) = list(alloc, setting, behind(behind_dash(rest), 7))?;
    let (cut, rest) = counts(script, behind(behind_dash(rest), 5));
    let (base, rest) = counts(script, behind(rest, 6));
    let closing = Closing {
        clock,
        line,
        queue,
        cut,
        base,
    };
    Ok((closing, behind(rest, 1)))
}

/// How many columns a script has.
#[tactic(auto, using(crate::proofs::CountLemmas::few_columns))]
pub fn column_count(script: &Script) -> usize
    requires { AreApart script.now }
    ensures { result ≡ length script.now.regions * length script.now.colours }
{
    script.regions.len() * script.colours.len()
}

// The region of the column in a place.
#[tactic(auto, using(crate::proofs::CountLemmas::region_fits))]
fn region_of(script: &Script, place: usize) -> u8
    requires apart { AreApart script.now }
    requires there { nat_lt place (length script.now.regions * length script.now.colours) ≡ true }
    ensures { result ≡ place / length script.now.colours }
{
    (place / script.colours.len()) as u8
}

// The colour of the column in a place.
#[tactic(auto, using(crate::proofs::CountLemmas::colour_fits))]
fn colour_of(script: &Script, place: usize) -> u8
    requires { AreApart script.now }
    ensures { result ≡ place % length script.now.colours }
{
    (place % script.colours.len()) as u8
}

// The bytes behind the line of a column that has these names.
fn behind_names<'b>(region: &[u8], colour: &[u8], bytes: &'b [u8]) -> &'b [u8]
    ensures { result.now ≡ behind_names region.now colour.now bytes.now }
{
    let rest = behind(behind(bytes, 7), region.len());
    behind(behind(behind(rest, 1), colour.len()), 1)
}

impl Readable for ColumnReport {
    ghost begins_at = { λ known place _. column_begins known place };

    ghost value_at = { λ known place bytes. column_at known place bytes };

    fn begins(setting: &Setting<'_>, place: usize, _bytes: &[u8]) -> bool {
        place < column_count(setting.script())
    }

    #[tactic(auto, unfolding(crate::specs::ColumnReadings::column_at))]
    fn read<'b>(
        alloc: Global,
        setting: &Setting<'_>,
        place: usize,
        bytes: &'b [u8],
    ) -> Result<(ColumnReport, &'b [u8]), ReadFault> {
        let script = setting.script();
        let region = region_of(script, place);
        let colour = colour_of(script, place);
        let region_name = name(&script.regions, region as usize);
        let colour_name = name(&script.colours, colour as usize);
        let rest = behind_names(region_name, colour_name, bytes);
        let (journal, rest) = list(alloc, setting, rest)?;
        let (closing, rest) = closing_of(alloc, setting, rest)?;
        let region_name = Text::copied(alloc, region_name)?;
        let colour_name = Text::copied(alloc, colour_name)?;
        let column = ColumnReport {
            region,
            colour,
            region_name,
            colour_name,
            journal,
            clock: closing.clock,
            line: closing.line,
            queue: closing.queue,
            cut: closing.cut,
            base: closing.base,
        };
        Ok((column, rest))
    }
}
