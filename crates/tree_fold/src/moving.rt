// The move of a branch: its entries under their new paths, put in altogether or not at all.
ghost use Rattle.std.specs.Prelude.{◌≡◌, ◌++◌, ◌∷◌, [], List, true, false, IsTrue, cond, length, map, drop, filter, None, IfOk, OnOk, OnErr};
ghost use Rattle.std.specs.List.{AllByRecursion};
ghost use Rattle.std.specs.Map.{values_of};
ghost use Rattle.std.specs.BTreeMap.{IsOrdered, get, values};
ghost use Rattle.tree_fold.specs.declared.places.Place.{Place as At};
ghost use Rattle.tree_fold.specs.declared.entries.Entry.{Entry as Seen};
ghost use Rattle.tree_fold.specs.Paths.{Path, goes_on_from, is_below_root, is_path};
ghost use Rattle.tree_fold.specs.Trees.{value_in};
ghost use Rattle.tree_fold.specs.Places.{AreMoved, IsBranch, IsPlaced, has_place, place_cmp, place_of, renamed};

use crate::entries::{Entries, Entry, below, entry_of, put_entry, take_entry};
use crate::path::MAX_NAMES;
use crate::places::{Place, place_of, rest_of};
use log_node::{ListOf, Names, Text};
use std::alloc::{AllocError, Global};

/// A branch under its new paths.
#[derive(Drop)]
pub struct Moved {
    /// Where its entries stand.
    pub places: Vec<Place>,
    /// Its entries under their new paths, in the same order.
    pub entries: Vec<Entry>,
}

fn put_names(alloc: Global, names: &mut Names, more: &[Text]) -> Result<(), AllocError>
    ensures { OnOk result (names.new ≡ names.old ++ more.now) }
{
    for name in more {
        names.push(Text::copied(alloc, name.as_bytes())?)?;
    }
    Ok(())
}

// The names of both, one after another.
fn joined(alloc: Global, front: &[Text], rest: &[Text]) -> Result<Names, AllocError>
    ensures { IfOk result (λ names. names ≡ front.now ++ rest.now) }
{
    let mut names = ListOf::new(alloc);
    put_names(alloc, &mut names, front)?;
    put_names(alloc, &mut names, rest)?;
    Ok(names)
}

// The entry with the target in the place of this many first names.
fn renamed(alloc: Global, entry: &Entry, count: usize, target: &[Text]) -> Result<Entry, AllocError>
    ensures { IfOk result (λ moved. moved ≡ renamed count target.now entry.now) }
{
    let path = joined(alloc, target, rest_of(entry.path.as_slice(), count))?;
    let value = Text::copied(alloc, entry.value.as_bytes())?;
    Ok(Entry { path, value })
}

// Adds an entry to a branch.
fn put_moved(
    alloc: Global,
    moved: &mut Moved,
    entry: &Entry,
    count: usize,
    target: &[Text],
) -> Result<(), AllocError>
    ensures { (branch : List Seen) → AreMoved count target.now branch moved.old
        → OnOk result (AreMoved count target.now (branch ++ entry.now ∷ []) moved.new) }
{
    let put = renamed(alloc, entry, count, target)?;
    moved.places.push(place_of(entry.path.as_slice()))?;
    moved.entries.push(put)?;
    Ok(())
}

// Adds the entries that go on from the source to a branch.
fn put_below(
    alloc: Global,
    moved: &mut Moved,
    entries: &Entries,
    source: &[Text],
    target: &[Text],
) -> Result<(), AllocError>
    requires placed { AllByRecursion IsPlaced entries.now.entries }
    requires path { IsTrue (is_path source.now) }
    ensures { (branch : List Seen) → AreMoved (length source.now) target.now branch moved.old
        → OnOk result (AreMoved (length source.now) target.now
        (branch ++ values_of (filter (λ e. goes_on_from source.now e.1.path) entries.now.entries)) moved.new) }
{
    if source.len() < MAX_NAMES {
        for (_, entry) in below(entries, source) {
            put_moved(alloc, moved, entry, source.len(), target)?;
        }
    }
    Ok(())
}

/// The branch that begins with the source, with the target in its place.
pub fn moved_branch(
    alloc: Global,
    entries: &Entries,
    source: &[Text],
    target: &[Text],
) -> Result<Moved, AllocError>
    requires placed { AllByRecursion IsPlaced entries.now.entries }
    requires path { IsTrue (is_path source.now) }
    ensures { IfOk result (λ moved. (branch : List Seen) × IsBranch source.now (values entries.now) branch
        × AreMoved (length source.now) target.now branch moved) }
{
    let mut moved = Moved {
        places: Vec::new(alloc),
        entries: Vec::new(alloc),
    };
    if let Some(entry) = entry_of(entries, source) {
        put_moved(alloc, &mut moved, entry, source.len(), target)?;
    }
    put_below(alloc, &mut moved, entries, source, target)?;
    Ok(moved)
}

/// Takes out what stands at these places.
pub fn take_out(entries: &mut Entries, places: &[Place])
    requires placed { AllByRecursion IsPlaced entries.old.entries }
    requires ordered { IsOrdered place_cmp entries.old }
    ensures placed { AllByRecursion IsPlaced entries.new.entries }
    ensures ordered { IsOrdered place_cmp entries.new }
    ensures out { (place : At) → get place_cmp entries.new place
        ≡ cond (has_place place places.now) None (get place_cmp entries.old place) }
{
    for place in places {
        take_entry(entries, *place);
    }
}

// Puts entries in, the last first. Without memory some of them are left out.
fn put_in(entries: &mut Entries, mut moved: Vec<Entry>) -> Result<(), AllocError>
    requires placed { AllByRecursion IsPlaced entries.old.entries }
    requires ordered { IsOrdered place_cmp entries.old }
    requires paths { AllByRecursion (λ e. IsTrue (is_below_root e.path)) moved.items }
    ensures placed { AllByRecursion IsPlaced entries.new.entries }
    ensures ordered { IsOrdered place_cmp entries.new }
    ensures others { (place : At) → has_place place (map (λ e. place_of e.path) moved.items) ≡ false
        → get place_cmp entries.new place ≡ get place_cmp entries.old place }
    ensures ok { OnOk result ((path : Path) → value_in (values entries.new) path
        ≡ value_in (moved.items ++ values entries.old) path) }
{
    while let Some(entry) = moved.pop() {
        put_entry(entries, entry)?;
    }
    Ok(())
}

// The places of entries.
fn places_of(alloc: Global, entries: &[Entry]) -> Result<Vec<Place>, AllocError>
    ensures { IfOk result (λ places. places.items ≡ map (λ e. place_of e.path) entries.now) }
{
    let mut places = Vec::new(alloc);
    for entry in entries {
        places.push(place_of(entry.path.as_slice()))?;
    }
    Ok(places)
}

/// Puts entries in whose places are free. Without memory the entries stay as they are.
pub fn put_branch(alloc: Global, entries: &mut Entries, moved: Vec<Entry>) -> Result<(), AllocError>
    requires placed { AllByRecursion IsPlaced entries.old.entries }
    requires ordered { IsOrdered place_cmp entries.old }
    requires paths { AllByRecursion (λ e. IsTrue (is_below_root e.path)) moved.items }
    requires free { (place : At) → has_place place (map (λ e. place_of e.path) moved.items) ≡ true
        → get place_cmp entries.old place ≡ None }
    ensures placed { AllByRecursion IsPlaced entries.new.entries }
    ensures ordered { IsOrdered place_cmp entries.new }
    ensures ok { OnOk result ((path : Path) → value_in (values entries.new) path
        ≡ value_in (moved.items ++ values entries.old) path) }
    ensures err { OnErr result (entries.new.entries ≡ entries.old.entries) }
{
    let places = places_of(alloc, &moved)?;
    if put_in(entries, moved).is_err() {
        take_out(entries, &places);
        return Err(AllocError);
    }
    Ok(())
}
