// Reading a part of a script behind the script's header.
ghost use Rattle.std.specs.Prelude.{◌≡◌, ◌<◌, ◌++◌, Some, length, slice_get, IfOk, IfSome};
ghost use Rattle.std.specs.List.{list_any};
ghost use Rattle.script_text.specs.declared.script.Command.{Command};
ghost use Rattle.script_text.specs.Items.{is_stop};
ghost use Rattle.script_beside.specs.declared.cuts.Cut.{Cut};
ghost use Rattle.script_beside.specs.Parts.{IsRead, ArePartsRead};

use crate::begins::counts_of;
use crate::cuts::Cut;
use crate::lists::own_lists;
use fork_join::map_indices;
use script_text::{Command, ScriptFault, What, parse};
use std::alloc::{AllocError, Global};
use std::thread::Threads;

/// On how many threads parts are read, at most.
const THREADS: usize = 4;

/// What was read of a part.
#[derive(Drop)]
pub struct ReadPart {
    /// Its commands by client.
    pub lists: Vec<Vec<Command>>,
    /// Whether one of them stops its client.
    pub stops: bool,
    /// How many of each client's may begin a row.
    pub begins: Vec<usize>,
}

// The part's bytes behind the header's.
fn behind(alloc: Global, header: &[u8], bytes: &[u8]) -> Result<Vec<u8>, AllocError>
    ensures { IfOk result (λ all. all.items ≡ header.now ++ bytes.now) }
{
    let mut all = Vec::with_capacity(alloc, header.len() + bytes.len())?;
    all.extend_from_slice(header)?;
    all.extend_from_slice(bytes)?;
    Ok(all)
}

// Whether one of the commands stops its client.
fn has_stop(commands: &[Command]) -> bool
    ensures { result ≡ list_any (λ (c : Command). is_stop c.what) commands.now }
{
    commands
        .iter()
        .any(|command| matches!(command.what, What::Stop { .. }))
}

fn read(alloc: Global, header: &[u8], cut: &Cut<'_>) -> Result<ReadPart, ScriptFault>
    ensures { IfOk result (IsRead header.now cut.now) }
{
    let all = behind(alloc, header, cut.bytes)?;
    let script = parse(alloc, all.as_slice())?;
    let stops = has_stop(script.commands.as_slice());
    let lists = own_lists(alloc, script.clients.len(), script.commands, cut.before)?;
    let begins = counts_of(alloc, lists.as_slice())?;
    Ok(ReadPart {
        lists,
        stops,
        begins,
    })
}

// A part, where its lines are a script's behind the header and there is memory.
fn read_part(alloc: Global, header: &[u8], cut: &Cut<'_>) -> Option<ReadPart>
    ensures { IfSome result (IsRead header.now cut.now) }
{
    match read(alloc, header, cut) {
        Ok(part) => Some(part),
        Err(_) => None,
    }
}

/// The parts, which threads read one after another, where they can be made.
pub fn read_parts<R: Threads + Sync>(
    rt: &R,
    alloc: Global,
    header: &[u8],
    cuts: &[Cut<'_>],
) -> Result<Vec<Option<ReadPart>>, AllocError>
    ensures { IfOk result (λ parts. ArePartsRead header.now cuts.now parts.items) }
{
    map_indices(
        rt,
        alloc,
        cuts.len(),
        THREADS,
        &|number: usize| -> Option<ReadPart>
            requires { number < length cuts.now }
            ensures { (cut : Cut) → slice_get cuts.entry.now number ≡ Some cut → IfSome result (IsRead header.entry.now cut) }
        { read_part(alloc, header, &cuts[number]) },
    )
}
