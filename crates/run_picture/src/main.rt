//! Reads a script of clients and commands over the shared log, runs it in the order of the file, and draws the run: its
//! nodes at the word `picture`, and its commands at the word `timeline`.
#![tactic(auto)]

ghost use Rattle.std.specs.Prelude.{◌≡◌, ◌≢◌};
ghost use Rattle.std.specs.IoError.{error_kind};
ghost use Rattle.run_picture.specs.declared.top.Status.{Status};

mod answers;
mod arrows;
mod asked;
mod boxes;
mod drawn;
mod labels;
mod lanes;
mod links;
mod look;
mod makers;
mod marks;
mod picture;
mod pieces;
mod places;
mod spots;
mod svg;
mod timeline;
mod top;

use fuzzy_io::{ReadSource, WriteSink};
use std::io::ErrorKind;
use std::process::ExitCode;
use std::{env, io};
use top::{Status, run};

// The words of the command line without the program's name.
fn words_of(rt: &HostRuntime) -> io::Result<Vec<String>> {
    Ok(env::args(rt)?.skip(1).collect(rt.alloc())?)
}

// The status where the words of the command line could not be had.
fn status_without_words(error: &io::Error) -> Status
    ensures no_memory { error_kind error.now ≡ ErrorKind.OutOfMemory → result ≡ Status.NoMemory }
    ensures bad_words { error_kind error.now ≢ ErrorKind.OutOfMemory → result ≡ Status.BadWords }
{
    match error.kind() {
        ErrorKind::OutOfMemory => Status::NoMemory,
        // A word that is no text is none that the program knows.
        _ => Status::BadWords,
    }
}

fn main(rt: HostRuntime) -> ExitCode {
    let mut source = ReadSource::open(rt.stdin());
    let mut sink = WriteSink::open(rt.stdout());
    let status = match words_of(&rt) {
        Ok(words) => run(rt.alloc(), words.as_slice(), &mut source, &mut sink),
        Err(error) => status_without_words(&error),
    };
    if let Some(complaint) = status.complaint() {
        let _ = eprintln!(rt; "{complaint}");
    }
    ExitCode::from(status.code())
}
