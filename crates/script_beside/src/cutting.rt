// Cutting a script's bytes into its header and parts behind it.
ghost use Rattle.std.specs.Prelude.{◌≡◌, ◌≤◌, ◌<◌, ◌++◌, ◌∷◌, [], ℕ, List, length, IfOk, IfSome, IsTrue, codes};
ghost use Rattle.script_text.specs.declared.limits.TheConstants.{MAX_BYTES, MAX_LINES};
ghost use Rattle.script_text.specs.Pieces.{lines_of};
ghost use Rattle.script_text.specs.Grammar.{IsScript};
ghost use Rattle.script_beside.specs.Joining.{IsHeader};
ghost use Rattle.script_beside.specs.Parts.{line_feeds, bytes_of, AreCuts, all_bytes, IsParted};

use crate::cuts::{Cut, Parted};
use memchr::{memchr, memmem};
use script_text::{MAX_BYTES, MAX_LINES, Script, parse};
use std::alloc::{AllocError, Global};

/// In how many parts a script's commands are read, several for each thread: one that begins late reads fewer.
pub const PARTS: usize = 16;

// A script of fewer bytes is read as a whole: threads would cost more than they give.
const LEAST: usize = 16_384;

// How many of the bytes are line feeds.
fn line_feeds(bytes: &[u8]) -> u32
    requires { length bytes.now ≤ MAX_BYTES }
    ensures count { result ≡ line_feeds bytes.now }
    ensures few { result ≤ length bytes.now }
{
    let mut count = 0;
    for b in bytes {
        if *b == b'\n' {
            count += 1;
        }
    }
    count
}

// How many lines the bytes have.
fn lines_in(bytes: &[u8]) -> u32
    requires some { 0 < length bytes.now }
    requires short { length bytes.now ≤ MAX_BYTES }
    ensures { length (lines_of bytes.now) ≤ result }
{
    let feeds = line_feeds(bytes);
    if bytes[bytes.len() - 1] == b'\n' {
        return feeds;
    }
    feeds + 1
}

// Whether a script of these bytes is within the limits, and worth the threads.
fn is_for_parts(bytes: &[u8]) -> bool
    ensures short { IsTrue result → length bytes.now ≤ MAX_BYTES }
    ensures few { IsTrue result → length (lines_of bytes.now) ≤ MAX_LINES }
{
    if bytes.len() < LEAST || bytes.len() > MAX_BYTES {
        return false;
    }
    lines_in(bytes) <= MAX_LINES
}

// The bytes up to the line that ends the header, and those behind it.
fn behind_header(bytes: &[u8]) -> Option<(&[u8], &[u8])>
    ensures whole { IfSome result (λ parts. bytes.now ≡ parts.0.now ++ parts.1.now) }
    ensures ends { IfSome result (λ parts. (front : List ℕ) × (parts.0.now ≡ front ++ 10 ∷ (codes "begin" ++ 10 ∷ []))) }
{
    match memmem::find(bytes, b"\nbegin\n") {
        Some(at) => Some(bytes.split_at(at + 7)),
        None => None,
    }
}

// What the header says, where it is one and nothing stands behind it.
fn header_script(alloc: Global, header: &[u8]) -> Option<Script>
    requires { (front : List ℕ) × (header.now ≡ front ++ 10 ∷ (codes "begin" ++ 10 ∷ [])) }
    ensures header { IfSome result (IsHeader header.now) }
    ensures first { IfSome result (IsScript header.now) }
{
    let Ok(script) = parse(alloc, header) else {
        return None;
    };
    if !script.commands.is_empty() {
        return None;
    }
    Some(script)
}

// The bytes up to the first line feed from a place on, with it, and those behind it.
fn first_part(bytes: &[u8], from: usize) -> Option<(&[u8], &[u8])>
    ensures whole { IfSome result (λ parts. bytes.now ≡ parts.0.now ++ parts.1.now) }
    ensures ends { IfSome result (λ parts. (front : List ℕ) × (parts.0.now ≡ front ++ 10 ∷ [])) }
{
    if bytes.len() <= from {
        return None;
    }
    match memchr(b'\n', &bytes[from..]) {
        Some(end) => Some(bytes.split_at(from + end + 1)),
        None => None,
    }
}

// The lines behind the header in parts of about the same length.
fn cuts_of(alloc: Global, lines: &[u8]) -> Result<Vec<Cut<'_>>, AllocError>
    requires { length lines.now ≤ MAX_BYTES }
    ensures whole { IfOk result (λ cuts. bytes_of cuts.items ≡ lines.now) }
    ensures cuts { IfOk result (λ cuts. AreCuts cuts.items) }
{
    let from = lines.len() / PARTS;
    let mut cuts = Vec::with_capacity(alloc, PARTS)?;
    let mut rest = lines;
    let mut before = 0;
    for _ in 1..PARTS {
        if let Some((bytes, after)) = first_part(rest, from) {
            cuts.push(Cut { bytes, before })?;
            before += line_feeds(bytes);
            rest = after;
        }
    }
    cuts.push(Cut {
        bytes: rest,
        before,
    })?;
    Ok(cuts)
}

/// The bytes in parts; `None` where they are not for that, or have no header that says a script without commands.
pub fn in_parts(alloc: Global, bytes: &[u8]) -> Result<Option<Parted<'_>>, AllocError>
    ensures whole { IfOk result (λ found. IfSome found (λ p. all_bytes p ≡ bytes.now)) }
    ensures limits { IfOk result (λ found. IfSome found IsParted) }
{
    if !is_for_parts(bytes) {
        return Ok(None);
    }
    let Some((header, lines)) = behind_header(bytes) else {
        return Ok(None);
    };
    let cuts = cuts_of(alloc, lines)?;
    match header_script(alloc, header) {
        Some(script) => Ok(Some(Parted {
            header,
            script,
            cuts,
        })),
        None => Ok(None),
    }
}
