// Appends, syncs, pulls and trims, which are most of a script, read with no list of their fields. What is not found here
// is for `line_of`.
ghost use Rattle.std.specs.Prelude.{◌≡◌, ◌≤◌, ◌<◌, ◌∷◌, ◌++◌, Ok, Some, IfOk, IfSome, length};
ghost use Rattle.script_text.specs.declared.item.Item.TheVariants.{Asks};
ghost use Rattle.script_text.specs.Pieces.{fields_of, is_ascii_line};
ghost use Rattle.script_text.specs.Words.{word_text};
ghost use Rattle.script_text.specs.Items.{is_begun};
ghost use Rattle.script_text.specs.Known.{IsSmall, IsPlain};
ghost use Rattle.script_text.specs.Readings.{with_one, with_two};
ghost use Rattle.script_text.specs.CommandReadings.{append_at, pull_at, sync_at, trim_at};
ghost use Rattle.script_text.specs.LineReadings.{IsWellCut, IsAsked, line_at};

use crate::command::caller;
use crate::commands::{What, Word};
use crate::item::Stage;
use crate::known::Known;
use crate::line::is_passed_over;
use crate::names::colour_set;
use crate::pieces::{behind, is_text, is_transactional, visible_front};
use crate::script::Command;
use log_node::Text;
use std::alloc::{AllocError, Global};

// The first of several fields, which is not empty, and the bytes behind its space.
#[inline(always)]
fn first_field(bytes: &[u8]) -> Option<(&[u8], &[u8])>
    ensures fields { IfSome result (λ cut. fields_of bytes.now ≡ cut.0.now ∷ fields_of cut.1.now) }
    ensures ascii { IfSome result (λ cut. is_ascii_line bytes.now ≡ is_ascii_line cut.1.now) }
    ensures full { IfSome result (λ cut. 0 < length cut.0.now) }
{
    let end = visible_front(bytes);
    if end == 0 || end >= bytes.len() {
        return None;
    }
    if bytes[end] != b' ' {
        return None;
    }
    Some((&bytes[..end], behind(bytes, end)))
}

// What an append asks for, by the bytes behind its word.
#[inline(always)]
fn append(alloc: Global, known: &Known, args: &[u8]) -> Result<Option<What>, AllocError>
    requires { IsSmall known.now }
    ensures full { IfOk result (λ found. IfSome found (λ what. IsWellCut args.now)) }
    ensures what { IfOk result (λ found. IfSome found (λ what.
        with_two (append_at known.now) (fields_of args.now) ≡ Ok what)) }
    ensures plain { IfOk result (λ found. IfSome found IsPlain) }
{
    let Some((cols, text)) = first_field(args) else {
        return Ok(None);
    };
    if !is_text(text) || is_transactional(text) {
        return Ok(None);
    }
    let Ok((colours, _)) = colour_set(&known.script.colours, cols) else {
        return Ok(None);
    };
    let text = Text::copied(alloc, text)?;
    Ok(Some(What::Append { colours, text }))
}

// What a sync asks for, by the bytes behind its word.
#[inline(always)]
fn sync(known: &Known, field: &[u8]) -> Option<What>
    requires { IsSmall known.now }
    ensures full { IfSome result (λ what. IsWellCut field.now) }
    ensures what { IfSome result (λ what. with_one (sync_at known.now) (fields_of field.now) ≡ Ok what) }
    ensures plain { IfSome result IsPlain }
{
    let end = visible_front(field);
    if end == 0 || end < field.len() {
        return None;
    }
    match known.colour_at(field) {
        Ok(colour) => Some(What::Sync { colour }),
        Err(_) => None,
    }
}

// What a trim asks for, by the bytes behind its word.
#[inline(always)]
fn trim(known: &Known, field: &[u8]) -> Option<What>
    requires { IsSmall known.now }
    ensures full { IfSome result (λ what. IsWellCut field.now) }
    ensures what { IfSome result (λ what. with_one (trim_at known.now) (fields_of field.now) ≡ Ok what) }
    ensures plain { IfSome result IsPlain }
{
    let end = visible_front(field);
    if end == 0 || end < field.len() {
        return None;
    }
    match known.colour_at(field) {
        Ok(colour) => Some(What::Trim { colour }),
        Err(_) => None,
    }
}

// What a pull asks for, by the bytes behind its word.
#[inline(always)]
fn pull(known: &Known, args: &[u8]) -> Option<What>
    requires { IsSmall known.now }
    ensures full { IfSome result (λ what. IsWellCut args.now) }
    ensures what { IfSome result (λ what. with_two (pull_at known.now) (fields_of args.now) ≡ Ok what) }
    ensures plain { IfSome result IsPlain }
{
    let Some((name, field)) = first_field(args) else {
        return None;
    };
    let end = visible_front(field);
    if end == 0 || end < field.len() {
        return None;
    }
    let Ok(region) = known.region_at(name) else {
        return None;
    };
    match known.colour_at(field) {
        Ok(colour) => Some(What::Pull { region, colour }),
        Err(_) => None,
    }
}

// The bytes behind a word.
#[inline(always)]
fn behind_word(word: Word, bytes: &[u8]) -> Option<&[u8]>
    ensures { IfSome result (λ rest. bytes.now ≡ word_text word ++ rest.now) }
{
    bytes.strip_prefix(word.as_bytes())
}

// The bytes behind a word and its space.
#[inline(always)]
fn after(word: Word, bytes: &[u8]) -> Option<&[u8]>
    ensures { IfSome result (λ args. bytes.now ≡ word_text word ++ 32 ∷ args.now) }
{
    match behind_word(word, bytes) {
        Some([b' ', args @ ..]) => Some(args),
        _ => None,
    }
}

// What a pull or a trim asks for, by the bytes behind its client's name.
fn moved(known: &Known, bytes: &[u8]) -> Option<What>
    requires { IsSmall known.now }
    ensures asked { IfSome result (λ what. IsAsked known.now bytes.now what) }
    ensures plain { IfSome result IsPlain }
{
    if let Some(args) = after(Word::Pull, bytes) {
        return pull(known, args);
    }
    match after(Word::Trim, bytes) {
        Some(field) => trim(known, field),
        None => None,
    }
}

// What such a command asks for, by the bytes behind its client's name.
#[inline(always)]
fn asked(alloc: Global, known: &Known, bytes: &[u8]) -> Result<Option<What>, AllocError>
    requires { IsSmall known.now }
    ensures asked { IfOk result (λ found. IfSome found (λ what. IsAsked known.now bytes.now what)) }
    ensures plain { IfOk result (λ found. IfSome found IsPlain) }
{
    if let Some(args) = after(Word::Append, bytes) {
        return append(alloc, known, args);
    }
    match after(Word::Sync, bytes) {
        Some(field) => Ok(sync(known, field)),
        None => Ok(moved(known, bytes)),
    }
}

// Whether the header has ended.
#[inline(always)]
fn is_begun(stage: Stage) -> bool
    ensures { result ≡ is_begun stage }
{
    matches!(stage, Stage::Commands)
}

/// The command of a line that is an append, a sync, a pull or a trim and has no fault.
#[inline(always)]
pub fn frequent(
    alloc: Global,
    known: &Known,
    number: u32,
    line: &[u8],
) -> Result<Option<Command>, AllocError>
    requires { IsSmall known.now }
    ensures said { IfOk result (λ found. IfSome found (λ command.
        line_at known.now number line.now ≡ Ok (Some (Asks command)))) }
    ensures plain { IfOk result (λ found. IfSome found (λ command. IsPlain command.what)) }
{
    if number == 1 || is_passed_over(number, line) {
        return Ok(None);
    }
    if !is_begun(known.stage) {
        return Ok(None);
    }
    let Some((name, bytes)) = first_field(line) else {
        return Ok(None);
    };
    let Ok(client) = caller(known, name) else {
        return Ok(None);
    };
    match asked(alloc, known, bytes)? {
        Some(what) => Ok(Some(Command {
            line: number,
            client,
            what,
        })),
        None => Ok(None),
    }
}
