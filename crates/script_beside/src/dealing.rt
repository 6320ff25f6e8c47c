// The commands of a script by client.
ghost use Rattle.std.specs.Prelude.{◌<◌, length, IfOk};
ghost use Rattle.std.specs.List.{All};
ghost use Rattle.script_text.specs.declared.script.Command.{Command};
ghost use Rattle.script_beside.specs.Dealt.{IsDealt};

use crate::begins::{counts_of, greatest};
use crate::dealt::DealtScript;
use crate::lists::{empty_lists, own_lists, put_behind};
use log_node::ListOf;
use script_text::Script;
use std::alloc::{AllocError, Global};
use std::mem;

/// Deals the commands of a script out to its clients, each share in one piece.
pub fn deal(alloc: Global, mut script: Script) -> Result<DealtScript, AllocError>
    requires { All (λ (c : Command). c.client < length script.clients) script.commands }
    ensures { IfOk result (IsDealt script) }
{
    let clients = script.clients.len();
    let commands = mem::replace(&mut script.commands, ListOf::new(alloc));
    let lists = own_lists(alloc, clients, commands, 0)?;
    let counts = counts_of(alloc, lists.as_slice())?;
    let mut shares = empty_lists(alloc, clients, 1)?;
    put_behind(&mut shares, lists)?;
    Ok(DealtScript {
        header: script,
        shares,
        begins: greatest(counts.as_slice()),
    })
}
