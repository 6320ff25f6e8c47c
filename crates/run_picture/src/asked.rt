// Which drawing the words of a command line ask for.
ghost use Rattle.std.specs.Prelude.{◌≡◌, IfOk, map};
ghost use Rattle.std.specs.String.{string_bytes};
ghost use Rattle.command_words.specs.Parting.{texts_of};
ghost use Rattle.run_picture.specs.Asked.{drawing_at, drawing_by, drawing_of};

use command_words::{Words, split_words};
use std::alloc::{AllocError, Global};

/// A drawing of a run.
#[derive(Clone, Copy)]
pub enum Drawing {
    /// The nodes: a lane for each column, a box for each node, under its stamp.
    Picture,
    /// The commands: a lane for each client, a box for each command, in the order of the file.
    Timeline,
}

// The drawing that a word names.
fn drawing_at(word: &str) -> Option<Drawing>
    ensures { result ≡ drawing_at word.now }
{
    if word == "picture" {
        return Some(Drawing::Picture);
    }
    if word == "timeline" {
        return Some(Drawing::Timeline);
    }
    None
}

// The drawing that a word names with no other after it.
fn drawing_by(words: Words<'_>) -> Option<Drawing>
    ensures { result ≡ drawing_by (texts_of words.entry) }
{
    match words.number {
        None => drawing_at(words.word),
        Some(_) => None,
    }
}

/// The drawing that the words ask for, without the program's name.
pub fn read_words(alloc: Global, words: &[String]) -> Result<Option<Drawing>, AllocError>
    ensures { IfOk result (λ found. found ≡ drawing_of (map string_bytes words.now)) }
{
    match split_words(alloc, words)? {
        Some(words) => Ok(drawing_by(words)),
        None => Ok(None),
    }
}
