// What the words of a command line ask for.
ghost use Rattle.std.specs.Prelude.{◌≡◌, IfOk, get_or, map};
ghost use Rattle.std.specs.String.{string_bytes};
ghost use Rattle.script_text.specs.Pieces.{is_between};
ghost use Rattle.command_words.specs.Parting.{texts_of};
ghost use Rattle.run_script.specs.Words.{asked_by, rounds_asked, task_by, task_of};

use command_words::{Words, split_words};
use load_script::MAX_LOAD;
use std::alloc::{AllocError, Global};

/// How the commands of a script are done.
#[derive(Clone, Copy, Debug, PartialEq, Eq)]
pub enum Asked {
    /// The script's commands, done in the order of the file.
    Step,
    /// The commands of each client, done on a thread of its own.
    Run,
}

/// What the words of a command line ask for.
#[derive(Clone, Copy, Debug, PartialEq, Eq)]
pub enum Task {
    /// To run the script of the source in this way.
    Script(Asked),
    /// To run a load of this many rounds.
    Load { count: u32 },
    /// To judge the report that stands behind a script in the source.
    Check,
}

// How a script is done at the word, if it is one for that.
fn how_asked(word: &str) -> Option<Asked>
    ensures { result ≡ asked_by word.now }
{
    if word == "step" {
        return Some(Asked::Step);
    }
    if word == "run" {
        return Some(Asked::Run);
    }
    None
}

// Whether the word begins with a digit that is no 0.
fn begins_as_number(word: &str) -> bool
    ensures { result ≡ is_between 49 57 (get_or word.now 0 0) }
{
    match word.as_bytes() {
        [first, ..] => *first >= b'1' && *first <= b'9',
        [] => false,
    }
}

// The number of rounds that the word is, if it is one of a load.
fn rounds(word: &str) -> Option<u32>
    ensures { result ≡ rounds_asked word.now }
{
    if !begins_as_number(word) {
        return None;
    }
    match word.parse() {
        Ok(count) if count <= MAX_LOAD => Some(count),
        _ => None,
    }
}

// What a word asks for, and a word after it.
fn task_at(words: Words<'_>) -> Option<Task>
    ensures { result ≡ task_by (texts_of words.entry) }
{
    match words.number {
        None if words.word == "check" => Some(Task::Check),
        None => how_asked(words.word).map(|asked| Task::Script(asked)),
        Some(number) if words.word == "load" => rounds(number).map(|count| Task::Load { count }),
        Some(_) => None,
    }
}

/// What the words ask for, without the program's name.
pub fn read_words(alloc: Global, words: &[String]) -> Result<Option<Task>, AllocError>
    ensures { IfOk result (λ found. found ≡ task_of (map string_bytes words.now)) }
{
    match split_words(alloc, words)? {
        Some(words) => Ok(task_at(words)),
        None => Ok(None),
    }
}
