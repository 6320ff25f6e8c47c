// The command lines.
ghost use Rattle.std.specs.Prelude.{◌≡◌, ◌≤◌, ◌==◌};
ghost use Rattle.std.specs.List.{list_any};
ghost use Rattle.log_node.specs.declared.limits.TheConstants.{MAX_COLOURS};
ghost use Rattle.script_text.specs.Known.{IsSmall};
ghost use Rattle.script_text.specs.Readings.{Gives, Takes, fields_in};
ghost use Rattle.script_text.specs.CommandReadings.{ended_well, what_at, worded_at, asked_at, caller_at, command_at};

use crate::commands::{What, Word};
use crate::fault::Fault;
use crate::given::Given;
use crate::item::Item;
use crate::known::Known;
use crate::names::number_at;
use crate::reads::HeldRead;
use crate::script::{Command, Reason};
use crate::table::{Last, fits};
use std::alloc::Global;

/// The tests after the fields.
#[tactic(auto, unfolding(crate::specs::CommandReadings::ended_well))]
fn ended_well(known: &Known, client: u8, last: Last, given: &Given) -> Result<(), Fault>
    requires { given.now.count ≤ MAX_COLOURS }
    ensures { Takes result given.now (ended_well known.now client last given.now) }
{
    match last {
        Last::Nothing => {}
        Last::StopFits => {
            if given.count < 2 {
                return Err(Fault::Refused(Reason::StopNeedsTwoColours));
            }
            if given.number > 2 * given.count as u64 + 2 {
                return Err(Fault::Refused(Reason::BadNumber));
            }
        }
        Last::ReadHeld => {
            let object = given.object;
            if !known.held.holds(HeldRead { client, object }) {
                return Err(Fault::Refused(Reason::NoRead));
            }
        }
    }
    Ok(())
}

/// What a command asks for, by its word's row.
#[tactic(auto, unfolding(crate::specs::CommandReadings::what_at))]
fn by_row(
    alloc: Global,
    known: &Known,
    client: u8,
    word: Word,
    args: &[&[u8]],
) -> Result<What, Fault>
    requires { IsSmall known.now }
    ensures { Gives result (what_at known.now client word (fields_in args.now)) }
{
    let (_, _, fields, last, _) = word.row();
    if !fits(fields, args) {
        return Err(Fault::Refused(Reason::BadForm));
    }
    let given = Given::of(alloc, known, fields, args)?;
    ended_well(known, client, last, &given)?;
    Ok(given.into_what(word))
}

#[tactic(auto, unfolding(crate::specs::CommandReadings::asked_at, crate::specs::CommandReadings::worded_at))]
fn asked(alloc: Global, known: &Known, client: u8, fields: &[&[u8]]) -> Result<What, Fault>
    requires { IsSmall known.now }
    ensures { Gives result (asked_at known.now client (fields_in fields.now)) }
{
    match fields {
        [] => Err(Fault::Refused(Reason::UnknownCommand)),
        [field, args @ ..] => match Word::of_bytes(known.script.version, field) {
            Some(word) => by_row(alloc, known, client, word, args),
            None => Err(Fault::Refused(Reason::UnknownCommand)),
        },
    }
}

fn is_stopped(stopped: &[u8], client: u8) -> bool
    ensures { result ≡ list_any (λ c. c == client) stopped.now }
{
    stopped.iter().any(|c| *c == client)
}

/// The client whose command a line is, by its name.
#[tactic(auto, unfolding(crate::specs::CommandReadings::caller_at))]
pub fn caller(known: &Known, name: &[u8]) -> Result<u8, Fault>
    requires { IsSmall known.now }
    ensures { Gives result (caller_at known.now name.now) }
{
    let client = number_at(&known.script.clients, name, Reason::UnknownClient)?;
    if is_stopped(known.stopped.as_slice(), client) {
        return Err(Fault::Refused(Reason::ClientStopped));
    }
    Ok(client)
}

/// What a command line says.
#[tactic(auto, unfolding(crate::specs::CommandReadings::command_at))]
pub fn command_line(
    alloc: Global,
    known: &Known,
    number: u32,
    name: &[u8],
    fields: &[&[u8]],
) -> Result<Item, Fault>
    requires { IsSmall known.now }
    ensures { Gives result (command_at known.now number name.now (fields_in fields.now)) }
{
    let client = caller(known, name)?;
    let what = asked(alloc, known, client, fields)?;
    Ok(Item::Asks {
        command: Command {
            line: number,
            client,
            what,
        },
    })
}
