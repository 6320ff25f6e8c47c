// Changes that may be done, done on entries.
ghost use Rattle.std.specs.Prelude.{◌≡◌, IsTrue, OnOk, OnErr, None};
ghost use Rattle.std.specs.BTreeMap.{values};
ghost use Rattle.tree_fold.specs.Paths.{is_below_root};
ghost use Rattle.tree_fold.specs.Trees.{why};
ghost use Rattle.tree_fold.specs.Places.{AreTreeEntries, MakesChange};

use crate::change::Change;
use crate::entries::{Entries, Entry, put_entry, take_entry};
use crate::moving::{moved_branch, put_branch, take_out};
use crate::places::place_of;
use log_node::{Names, Text};
use std::alloc::{AllocError, Global};

/// Makes a path.
pub fn make(entries: &mut Entries, path: Names, value: Text) -> Result<(), AllocError>
    requires kept { AreTreeEntries entries.old.entries }
    requires path { IsTrue (is_below_root path) }
    requires done { why (values entries.old) (Change.Make path value) ≡ None }
    ensures ok { OnOk result (MakesChange entries.old.entries entries.new.entries (Change.Make path value)) }
    ensures err { OnErr result (entries.new.entries ≡ entries.old.entries) }
{
    put_entry(entries, Entry { path, value })?;
    Ok(())
}

/// Removes a path.
pub fn remove(entries: &mut Entries, path: &[Text])
    requires kept { AreTreeEntries entries.old.entries }
    requires path { IsTrue (is_below_root path.now) }
    requires done { why (values entries.old) (Change.Remove path.now) ≡ None }
    ensures { MakesChange entries.old.entries entries.new.entries (Change.Remove path.now) }
{
    take_entry(entries, place_of(path));
}

/// Puts the target in the place of the source. Without memory the entries stay as they are.
pub fn relocate(
    alloc: Global,
    entries: &mut Entries,
    source: &[Text],
    target: &[Text],
) -> Result<(), AllocError>
    requires kept { AreTreeEntries entries.old.entries }
    requires source { IsTrue (is_below_root source.now) }
    requires target { IsTrue (is_below_root target.now) }
    requires done { why (values entries.old) (Change.Move source.now target.now) ≡ None }
    ensures ok { OnOk result (MakesChange entries.old.entries entries.new.entries (Change.Move source.now target.now)) }
    ensures err { OnErr result (entries.new.entries ≡ entries.old.entries) }
{
    let moved = moved_branch(alloc, entries, source, target)?;
    put_branch(alloc, entries, moved.entries)?;
    take_out(entries, &moved.places);
    Ok(())
}
