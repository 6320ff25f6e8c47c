// A line of a script, and what its fields say.
ghost use Rattle.std.specs.Prelude.{◌≡◌, ◌==◌, false, length};
ghost use Rattle.std.specs.List.{list_any};
ghost use Rattle.script_text.specs.Versions.{is_version_line};
ghost use Rattle.script_text.specs.Grammar.{is_passed_over};
ghost use Rattle.script_text.specs.Known.{IsSmall};
ghost use Rattle.script_text.specs.Readings.{Gives, fields_in};
ghost use Rattle.script_text.specs.LineReadings.{item_at, full_item_at, said_at, line_at};

use crate::command::command_line;
use crate::fault::Fault;
use crate::header::header_line;
use crate::item::{Item, Stage};
use crate::known::Known;
use crate::pieces::{cut_line, is_ascii_line};
use crate::script::Reason;
use smallvec::SmallVec;
use std::alloc::Global;

/// An empty line, or one that begins with `#`; line 1 is never passed over.
pub fn is_passed_over(number: u32, line: &[u8]) -> bool
    ensures { result ≡ is_passed_over (number, line.now) }
{
    if number == 1 {
        return false;
    }
    match line {
        [] => true,
        [first, ..] => *first == b'#',
    }
}

/// A line that names a version, as line 1 has to.
fn is_version_line(line: &[u8]) -> bool
    ensures { result ≡ is_version_line line.now }
{
    line == b"fuzzylog 1".as_slice() || line == b"fuzzylog 2".as_slice()
}

fn has_empty(fields: &[&[u8]]) -> bool
    ensures { result ≡ list_any (λ field. length field == 0) (fields_in fields.now) }
{
    fields.iter().any(|field| field.is_empty())
}

/// What a line's fields say.
#[tactic(auto, unfolding(crate::specs::LineReadings::item_at))]
pub fn item_of(alloc: Global, known: &Known, number: u32, fields: &[&[u8]]) -> Result<Item, Fault>
    requires { IsSmall known.now }
    ensures { Gives result (item_at known.now number (fields_in fields.now)) }
{
    match fields {
        [] => Err(Fault::Refused(Reason::BadForm)),
        [word, args @ ..] => match known.stage {
            Stage::Commands => command_line(alloc, known, number, word, args),
            _ => header_line(alloc, known, word, args),
        },
    }
}

/// What a line's fields say, of which none may be empty.
#[tactic(auto, unfolding(crate::specs::LineReadings::full_item_at))]
fn full_item_of(alloc: Global, known: &Known, number: u32, fields: &[&[u8]]) -> Result<Item, Fault>
    requires { IsSmall known.now }
    ensures { Gives result (full_item_at known.now number (fields_in fields.now)) }
{
    if has_empty(fields) {
        return Err(Fault::Refused(Reason::BadForm));
    }
    item_of(alloc, known, number, fields)
}

/// What a line says that is not passed over.
#[tactic(auto, unfolding(crate::specs::LineReadings::line_at, crate::specs::LineReadings::said_at))]
fn said_line(alloc: Global, known: &Known, number: u32, line: &[u8]) -> Result<Option<Item>, Fault>
    requires small { IsSmall known.now }
    requires said { is_passed_over (number, line.now) ≡ false }
    ensures { Gives result (line_at known.now number line.now) }
{
    let mut fields = SmallVec::new(alloc);
    if !cut_line(&mut fields, line)? {
        return Err(Fault::Refused(Reason::NotAscii));
    }
    if number == 1 && !is_version_line(line) {
        return Err(Fault::Refused(Reason::BadVersion));
    }
    let item = full_item_of(alloc, known, number, fields.as_slice())?;
    Ok(Some(item))
}

/// What a line says, or nothing where it is passed over.
#[tactic(auto, unfolding(crate::specs::LineReadings::line_at, crate::specs::LineReadings::said_at))]
pub fn line_of(
    alloc: Global,
    known: &Known,
    number: u32,
    line: &[u8],
) -> Result<Option<Item>, Fault>
    requires { IsSmall known.now }
    ensures { Gives result (line_at known.now number line.now) }
{
    if !is_passed_over(number, line) {
        return said_line(alloc, known, number, line);
    }
    if !is_ascii_line(line) {
        return Err(Fault::Refused(Reason::NotAscii));
    }
    Ok(None)
}
