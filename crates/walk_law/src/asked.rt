// The colours on which a command appends.
ghost use Rattle.std.specs.Prelude.{◌≡◌, ◌∷◌, [], IfOk, Option};
ghost use Rattle.std.specs.Option.{option_copied};
ghost use Rattle.col_core.specs.Keeping.{Kept};
ghost use Rattle.script_text.specs.Commands.{use_of};
ghost use Rattle.lawful_run.specs.Callers.{Caller};
ghost use Rattle.lawful_run.specs.Deeds.{found_by};
ghost use Rattle.run_rules.specs.Told.{colours_asked};
ghost use Rattle.walk_law.specs.Asking.{AreFoundOf, AreLow, HaveLowColours, asked_of, changed_of};

use crate::object_colours::{
    colours_of, copied, key_shard, key_shards, kind_asked, listed, pair_shards, transaction_shards,
};
use log_node::{ColourList, ListOf};
use report_text::KeyAnswer;
use script_text::{Object, What};
use std::alloc::{AllocError, Global};
use tree_fold::{Change, change_keys, make_change, move_change, remove_change};

// The colours on which a change of a tree stands; none where there is no change.
fn change_shards(
    alloc: Global,
    own: &[u8],
    change: Option<Change>,
) -> Result<ColourList, AllocError>
    requires { AreLow own.now }
    ensures { IfOk result (λ asked. asked ≡ changed_of own.now change) }
{
    match change {
        Some(change) => {
            let keys = change_keys(alloc, &change)?;
            key_shards(alloc, own, keys.as_slice())
        }
        None => Ok(ListOf::new(alloc)),
    }
}

// One colour.
fn only(alloc: Global, colour: u8) -> Result<ColourList, AllocError>
    ensures { IfOk result (λ asked. asked ≡ colour ∷ []) }
{
    let mut colours = ListOf::new(alloc);
    colours.push(colour)?;
    Ok(colours)
}

// The colours on which a command appends, of an object with its own ones.
fn asked_of(
    alloc: Global,
    own: &[u8],
    what: &What,
    found: Option<&ListOf<KeyAnswer>>,
) -> Result<ColourList, AllocError>
    requires { AreLow own.now }
    ensures { IfOk result (λ asked. asked ≡ asked_of own.now (option_copied found.entry) what.now) }
{
    match what {
        What::Append { colours, .. } => listed(alloc, *colours),
        What::Stop { colours, .. } => listed(alloc, *colours),
        What::Put { key, .. } => key_shard(alloc, own, key.as_bytes()),
        What::Del { key, .. } => key_shard(alloc, own, key.as_bytes()),
        What::Decide { key, .. } => key_shard(alloc, own, key.as_bytes()),
        What::PutAll { pairs, .. } => pair_shards(alloc, own, pairs.as_slice()),
        What::Commit { pairs, .. } => transaction_shards(alloc, own, found, pairs.as_slice()),
        What::Enq { .. } | What::Deq { .. } => copied(alloc, own),
        What::Only { colour, .. } => only(alloc, *colour),
        What::Mk { path, value, .. } => {
            let change = make_change(alloc, path.as_bytes(), value.as_bytes())?;
            change_shards(alloc, own, change)
        }
        What::Rm { path, .. } => {
            let change = remove_change(alloc, path.as_bytes())?;
            change_shards(alloc, own, change)
        }
        What::Mv { source, target, .. } => {
            let change = move_change(alloc, source.as_bytes(), target.as_bytes())?;
            change_shards(alloc, own, change)
        }
        _ => Ok(ListOf::new(alloc)),
    }
}

/// The colours on which a command appends, in the order of its node, of a client whose last read of the object showed these
/// keys; these are given for a commit alone.
pub fn colours_asked(
    alloc: Global,
    objects: &[Object],
    what: &What,
    found: Option<&ListOf<KeyAnswer>>,
) -> Result<ColourList, AllocError>
    requires { HaveLowColours objects.now }
    ensures { (caller : Caller) (kept : Kept) → caller.objects ≡ objects.now
        → AreFoundOf (found_by (use_of what.now) kept) (option_copied found.entry)
        → IfOk result (λ asked. asked ≡ colours_asked caller kept what.now) }
{
    asked_of(alloc, colours_of(kind_asked(objects, what)), what, found)
}
