// The words of a command line, parted.
ghost use Rattle.std.specs.Prelude.{◌≡◌, IfOk, codes, map, option_map, string_bytes};
ghost use Rattle.std.specs.List.{list_all};
ghost use Rattle.clap.specs.Words.{app_of, first_value, found_of};
ghost use Rattle.command_words.specs.Parting.{is_plain_word, parted, texts_of};
ghost use Rattle.command_words.specs.Inside.{two_words};

use clap::error::ErrorKind;
use clap::{Arg, ArgMatches, Command};
use std::alloc::{AllocError, Global};

/// What stands in a command line.
#[derive(Clone, Copy, Debug, PartialEq, Eq)]
pub struct Words<'a> {
    /// The first word, which says what is asked.
    pub word: &'a str,
    /// The word after it, if there is one.
    pub number: Option<&'a str>,
}

// Whether the word neither begins with `-` nor is `help`.
fn is_plain(word: &str) -> bool
    ensures { result ≡ is_plain_word word.now }
{
    !word.starts_with('-') && word != "help"
}

// The command that takes a word and may take another.
fn command<'a>(alloc: Global) -> Result<Command<'a>, AllocError>
    ensures { IfOk result (λ command. app_of command ≡ two_words) }
{
    let word = Arg::new(alloc, "word").required(true);
    let number = Arg::new(alloc, "number");
    Command::new(alloc, "fuzzy_run")
        .no_binary_name(true)
        .arg(word)?
        .arg(number)
}

// Whether none of the words begins with `-` or is `help`.
fn are_plain(words: &[String]) -> bool
    ensures { result ≡ list_all is_plain_word (map string_bytes words.now) }
{
    words.iter().all(|word| is_plain(word.as_str()))
}

// The words that the command found.
fn words_of<'a>(matches: &ArgMatches<'a>) -> Option<Words<'a>>
    ensures { option_map texts_of result ≡ option_map
        (λ word. (word, first_value (found_of matches.now) (codes "number")))
        (first_value (found_of matches.now) (codes "word")) }
{
    let word = matches.get_str("word")?;
    let number = matches.get_str("number");
    Some(Words { word, number })
}

/// The words, which are without the program's name, where they are one or two, and none of them begins with `-` or is
/// `help`.
pub fn split_words<'a>(alloc: Global, words: &'a [String]) -> Result<Option<Words<'a>>, AllocError>
    ensures { IfOk result (λ found. option_map texts_of found ≡ parted (map string_bytes words.now)) }
{
    if !are_plain(words) {
        return Ok(None);
    }
    match command(alloc)?.try_get_matches_from(words) {
        Ok(matches) => Ok(words_of(&matches)),
        Err(error) if error.kind() == ErrorKind::OutOfMemory => Err(AllocError),
        Err(_) => Ok(None),
    }
}
