//! Measures what clients do over and over: turns at a cell, a stamp board, appends at a column, and what clients of a store
//! do, and syncs of a colour to which another appends.
//!
//! `bench turn`, `bench board`, `bench column`, `bench client` and `bench beside` do a little each, and print what came of it,
//! which is the same in every run; with no word all five do. With a number behind the word they do that much, and print how long it took.
#![tactic(auto)]

mod beside;
mod boards;
mod clients;
mod columns;
mod turns;

use command_words::{Words, split_words};
use std::alloc::Global;
use std::rt::Clock;
use std::sync::Wait;
use std::thread::Threads;
use std::{env, io};

const USAGE: &str = "usage: bench [turn, board, column, client or beside [N]]";

// The words of the command line without the program's name.
fn words_of(rt: &HostRuntime) -> io::Result<Vec<String>> {
    Ok(env::args(rt)?.skip(1).collect(rt.alloc())?)
}

fn count_all<R: Threads + Wait + Print + Clock + Sync>(rt: &R, alloc: Global) -> io::Result<()> {
    turns::count(rt, alloc)?;
    boards::count(rt, alloc)?;
    columns::count(rt, alloc)?;
    clients::count(rt, alloc)?;
    beside::count(rt, alloc)
}

fn count<R: Threads + Wait + Print + Clock + Sync>(
    rt: &R,
    alloc: Global,
    word: &str,
) -> io::Result<()> {
    match word {
        "turn" => turns::count(rt, alloc),
        "board" => boards::count(rt, alloc),
        "column" => columns::count(rt, alloc),
        "client" => clients::count(rt, alloc),
        "beside" => beside::count(rt, alloc),
        _ => println!(rt; "{USAGE}"),
    }
}

fn measure<R: Threads + Wait + Print + Clock + Sync>(
    rt: &R,
    alloc: Global,
    word: &str,
    number: u32,
) -> io::Result<()> {
    match word {
        "turn" => turns::measure(rt, alloc, u64::from(number)),
        "board" => boards::measure(rt, alloc, number),
        "column" => columns::measure(rt, alloc, u64::from(number)),
        "client" => clients::measure(rt, alloc, u64::from(number)),
        "beside" => beside::measure(rt, alloc, u64::from(number)),
        _ => println!(rt; "{USAGE}"),
    }
}

// Does what the words ask.
fn answer<R: Threads + Wait + Print + Clock + Sync>(
    rt: &R,
    alloc: Global,
    words: &Words,
) -> io::Result<()> {
    match words.number {
        None => count(rt, alloc, words.word),
        Some(number) => match number.parse::<u32>() {
            Ok(number) => measure(rt, alloc, words.word, number),
            Err(_) => println!(rt; "{USAGE}"),
        },
    }
}

fn main(rt: HostRuntime) -> io::Result<()> {
    let words = words_of(&rt)?;
    if words.is_empty() {
        return count_all(&rt, rt.alloc());
    }
    match split_words(rt.alloc(), words.as_slice())? {
        Some(words) => answer(&rt, rt.alloc(), &words),
        None => println!(&rt; "{USAGE}"),
    }
}
