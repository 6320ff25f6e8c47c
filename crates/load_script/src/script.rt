// The script of a load.
ghost use Rattle.std.specs.Prelude.{◌≡◌, ◌≤◌, ◌<◌, [], ◌∷◌, ◌++◌, IfOk, OnOk, map, codes};
ghost use Rattle.std.specs.List.{range_with_len};
ghost use Rattle.load_script.specs.Generated.{home_by_turns, numbered, round_of, rounds_of, load_script};

use crate::commands::command;
use log_node::{Homes, ListOf, Shape, Text};
use script_text::{Command, NameSet, Objects, Script};
use std::alloc::{AllocError, Global};

/// The most rounds of a load.
pub const MAX_LOAD: u32 = 2400;

/// How many clients a load has.
pub const CLIENTS: u8 = 8;

/// The line of a load's first command, where its script is written out: before it stand the version, the regions, the
/// colours, the clients and the header's end.
pub const FIRST_LINE: u32 = 13;

fn homes(alloc: Global) -> Result<Homes, AllocError>
    ensures { IfOk result (λ homes. homes ≡ map home_by_turns (range_with_len 0 CLIENTS)) }
{
    let mut homes = Homes::with_capacity(alloc, CLIENTS as usize)?;
    for client in 0..CLIENTS {
        homes.push(client % 2)?;
    }
    Ok(homes)
}

fn regions(alloc: Global) -> Result<NameSet, AllocError>
    ensures { IfOk result (λ names. names ≡ codes "east" ∷ codes "west" ∷ []) }
{
    let mut names = NameSet::new(alloc);
    names.push(Text::copied(alloc, b"east")?)?;
    names.push(Text::copied(alloc, b"west")?)?;
    Ok(names)
}

// Names of a letter and a digit.
fn numbered(alloc: Global, letter: u8, count: u8) -> Result<NameSet, AllocError>
    requires { count ≤ 10 }
    ensures { IfOk result (λ names. names ≡ numbered letter count) }
{
    let mut names = NameSet::new(alloc);
    for n in 0..count {
        names.push(Text::copied(alloc, &[letter, b'0' + n])?)?;
    }
    Ok(names)
}

// The commands of a round, behind those of the rounds before.
fn push_round(
    alloc: Global,
    count: u32,
    round: u32,
    commands: &mut ListOf<Command>,
) -> Result<(), AllocError>
    requires within { round < count }
    requires small { count ≤ MAX_LOAD }
    ensures { OnOk result (commands.new ≡ commands.old ++ round_of count round) }
{
    for client in 0..CLIENTS {
        commands.push(command(alloc, count, round, client)?)?;
    }
    Ok(())
}

fn commands(alloc: Global, count: u32) -> Result<ListOf<Command>, AllocError>
    requires { count ≤ MAX_LOAD }
    ensures { IfOk result (λ commands. commands ≡ rounds_of count count) }
{
    let mut commands = ListOf::with_capacity(alloc, CLIENTS as usize * count as usize)?;
    for round in 0..count {
        push_round(alloc, count, round, &mut commands)?;
    }
    Ok(commands)
}

/// The script of a load of this many rounds.
pub fn make(alloc: Global, count: u32) -> Result<Script, AllocError>
    requires { count ≤ MAX_LOAD }
    ensures { IfOk result (λ script. script ≡ load_script count) }
{
    Ok(Script {
        version: 1,
        shape: Shape {
            regions: 2,
            colours: 4,
            homes: homes(alloc)?,
            rows: 4096,
        },
        regions: regions(alloc)?,
        colours: numbered(alloc, b'c', 4)?,
        clients: numbered(alloc, b'k', CLIENTS)?,
        objects: Objects::new(alloc),
        commands: commands(alloc, count)?,
    })
}
