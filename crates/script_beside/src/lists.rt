// Lists of commands, one for each client.
ghost use Rattle.std.specs.Prelude.{◌≡◌, ◌<◌, ◌≤◌, ◌+◌, ◌^◌, length, map, IfOk};
ghost use Rattle.std.specs.List.{All};
ghost use Rattle.script_text.specs.declared.script.Command.{Command};
ghost use Rattle.script_beside.specs.Joining.{later};
ghost use Rattle.script_beside.specs.Lists.{AreEmptyLists, HaveOwn, AreOwn, AreBehind};

use crate::dealt::Share;
use log_node::ListOf;
use script_text::Command;
use std::alloc::{AllocError, Global};

/// This many empty lists, each with room for that many items.
pub fn empty_lists<T: Drop>(
    alloc: Global,
    count: usize,
    room: usize,
) -> Result<Vec<Vec<T>>, AllocError>
    ensures { IfOk result (λ lists. AreEmptyLists count lists.items) }
{
    let mut lists = Vec::with_capacity(alloc, count)?;
    for _ in 0..count {
        lists.push(Vec::with_capacity(alloc, room)?)?;
    }
    Ok(lists)
}

// The command, so many lines further down.
fn lowered(mut command: Command, before: u32) -> Command
    requires { command.line + before < 2 ^ 32 }
    ensures { result ≡ later before command }
{
    command.line += before;
    command
}

// Gives each command, so many lines further down, to its client, behind those that it has.
fn give(
    lists: &mut Vec<Vec<Command>>,
    commands: Vec<Command>,
    before: u32,
) -> Result<(), AllocError>
    requires callers { All (λ (c : Command). c.client < length lists.old.items) commands.items }
    requires lines { All (λ (c : Command). c.line < 2 ^ 32 → c.line + before < 2 ^ 32) commands.items }
    ensures { IfOk result (λ _. HaveOwn (map (later before) commands.items) lists.old.items lists.new.items) }
{
    for command in commands {
        let number = command.client as usize;
        lists[number].push(lowered(command, before))?;
    }
    Ok(())
}

/// The commands by client, each this many lines further down. The lists begin with room for somewhat more than an even share.
pub fn own_lists(
    alloc: Global,
    clients: usize,
    commands: ListOf<Command>,
    before: u32,
) -> Result<Vec<Vec<Command>>, AllocError>
    requires callers { All (λ (c : Command). c.client < clients) commands }
    requires lines { All (λ (c : Command). c.line < 2 ^ 32 → c.line + before < 2 ^ 32) commands }
    ensures { IfOk result (λ lists. AreOwn clients (map (later before) commands) lists.items) }
{
    let even = commands.len() / clients.max(1);
    let mut lists = empty_lists(alloc, clients, even.saturating_add(even / 8))?;
    give(&mut lists, commands.into_vec(), before)?;
    Ok(lists)
}

/// Puts each list behind the share of its number.
pub fn put_behind(shares: &mut Vec<Share>, lists: Vec<Vec<Command>>) -> Result<(), AllocError>
    requires { length lists.items ≤ length shares.old.items }
    ensures { IfOk result (λ _. AreBehind lists.items shares.old.items shares.new.items) }
{
    let mut number = 0;
    for list in lists {
        shares[number].push(list)?;
        number += 1;
    }
    Ok(())
}
