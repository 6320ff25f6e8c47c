// The script that bytes are, read on threads.
ghost use Rattle.std.specs.Prelude.{IfOk, IfErr, IfSome};
ghost use Rattle.script_text.specs.declared.script.Script.{Script};
ghost use Rattle.script_text.specs.Grammar.{IsScript};
ghost use Rattle.script_text.specs.Parse.{IsFaultOf};
ghost use Rattle.script_beside.specs.Dealt.{IsDealt, GivesDealt};
ghost use Rattle.script_beside.specs.Parts.{all_bytes, IsParted, ArePartsRead};

use crate::begins::{add_each, greatest, no_counts};
use crate::cuts::Parted;
use crate::cutting::{PARTS, in_parts};
use crate::dealing::deal;
use crate::dealt::DealtScript;
use crate::lists::{empty_lists, put_behind};
use crate::part::{ReadPart, read_parts};
use script_text::{ScriptFault, parse};
use std::alloc::{AllocError, Global};
use std::thread::Threads;

// The parts in their order; `None` where one was not read, or where one stops a client and others follow it.
fn put_together(
    alloc: Global,
    parted: Parted<'_>,
    parts: Vec<Option<ReadPart>>,
) -> Result<Option<DealtScript>, AllocError>
    requires parted { IsParted parted }
    requires read { ArePartsRead parted.header.now parted.cuts.items parts.items }
    ensures { IfOk result (λ found. IfSome found (λ dealt. (script : Script) × IsScript (all_bytes parted.entry) script × IsDealt script dealt)) }
{
    let clients = parted.script.clients.len();
    let mut shares = empty_lists(alloc, clients, PARTS)?;
    let mut begins = no_counts(alloc, clients)?;
    let mut stops = false;
    for part in parts {
        let Some(part) = part else {
            return Ok(None);
        };
        if stops {
            return Ok(None);
        }
        stops = part.stops;
        add_each(&mut begins, part.begins.as_slice());
        put_behind(&mut shares, part.lists)?;
    }
    Ok(Some(DealtScript {
        header: parted.script,
        shares,
        begins: greatest(begins.as_slice()),
    }))
}

// The script, read in parts on threads; `None` where the bytes are not for that.
fn beside<R: Threads + Sync>(
    rt: &R,
    alloc: Global,
    bytes: &[u8],
) -> Result<Option<DealtScript>, AllocError>
    ensures { IfOk result (λ found. IfSome found (λ dealt. (script : Script) × IsScript bytes.now script × IsDealt script dealt)) }
{
    match in_parts(alloc, bytes)? {
        Some(parted) => {
            let parts = read_parts(rt, alloc, parted.header, parted.cuts.as_slice())?;
            put_together(alloc, parted, parts)
        }
        None => Ok(None),
    }
}

/// The script that the bytes are, with its commands dealt out to its clients. A long script is read in parts on threads.
pub fn parse_beside<R: Threads + Sync>(
    rt: &R,
    alloc: Global,
    bytes: &[u8],
) -> Result<DealtScript, ScriptFault>
    // What is read is a script.
    ensures accepted { IfOk result (λ dealt. (script : Script) × IsScript bytes.now script × IsDealt script dealt) }
    // A script is read as it is, unless memory runs out.
    ensures only { (script : Script) → IsScript bytes.now script → GivesDealt result script }
    // The line is the first faulty one, with its reason.
    ensures refused { IfErr result (IsFaultOf bytes.now) }
{
    match beside(rt, alloc, bytes)? {
        Some(dealt) => Ok(dealt),
        None => {
            let script = parse(alloc, bytes)?;
            Ok(deal(alloc, script)?)
        }
    }
}
