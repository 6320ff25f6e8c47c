// What a client of a load asks in a round.
ghost use Rattle.std.specs.Prelude.{◌≡◌, ◌≤◌, ◌<◌, IfOk};
ghost use Rattle.load_script.specs.declared.script.TheConstants.{MAX_LOAD, CLIENTS};
ghost use Rattle.load_script.specs.Generated.{command_of, node_text, what_asked};

use crate::script::{CLIENTS, FIRST_LINE};
use log_node::{Colours, Text};
use script_text::{Command, What};
use std::alloc::{AllocError, Global};

// The sets of colours to which the choices 0 to 5 append.
const SETS: [Colours; 6] = [
    Colours(0b0001),
    Colours(0b0010),
    Colours(0b0100),
    Colours(0b1000),
    Colours(0b0011),
    Colours(0b0110),
];

fn text(alloc: Global, client: u8, round: u32) -> Result<Text, AllocError>
    ensures { IfOk result (λ text. text ≡ node_text client round) }
{
    let text = format!(in alloc; "t{client}-{round}")?;
    Text::copied(alloc, text.as_bytes())
}

fn what(alloc: Global, choice: u32, client: u8, round: u32) -> Result<What, AllocError>
    requires { client < CLIENTS }
    ensures { IfOk result (λ what. what ≡ what_asked choice client round) }
{
    let colour = (round % 4) as u8;
    match SETS.get(choice as usize) {
        Some(set) => Ok(What::Append {
            colours: *set,
            text: text(alloc, client, round)?,
        }),
        None if choice == 6 => Ok(What::Sync { colour }),
        None => Ok(What::Pull {
            region: (client + 1) % 2,
            colour,
        }),
    }
}

/// The command of a client in a round of a load.
pub fn command(alloc: Global, count: u32, round: u32, client: u8) -> Result<Command, AllocError>
    requires small { count ≤ MAX_LOAD }
    requires within { round < count }
    requires client { client < CLIENTS }
    ensures { IfOk result (λ command. command ≡ command_of count round client) }
{
    let number = u32::from(client);
    let choice = (7 * number + 3 * round + count) % 8;
    Ok(Command {
        line: FIRST_LINE + u32::from(CLIENTS) * round + number,
        client,
        what: what(alloc, choice, client, round)?,
    })
}
