// The paths that are there, each with its value, at its place: the entry of a path, those that come next after it, and all that
// go on from it.
ghost use Rattle.std.specs.Prelude.{◌≡◌, ◌≤◌, ◌-◌, ◌&&◌, IsTrue, nat_lt, length, filter, map, IfOk, OnOk, OnErr, Some, None};
ghost use Rattle.std.specs.List.{list_any, find, AllByRecursion};
ghost use Rattle.std.specs.Option.{option_copied};
ghost use Rattle.std.specs.BTreeMap.{IsOrdered, Updates, UpdatesBy, values};
ghost use Rattle.tree_fold.specs.Paths.{begins_with, goes_on_from, is_below_root, is_path, is_same};
ghost use Rattle.tree_fold.specs.Places.{IsPlaced, is_child, own_name, place_cmp, place_of};

use crate::path::MAX_NAMES;
use crate::places::{Place, name_numbers, own_name, place_of};
use log_node::{ListOf, Names, Text};
use std::alloc::{AllocError, Global};
use std::collections::BTreeMap;
use std::collections::btree_map::Range;

/// A path below the root that is there, and its value.
#[derive(Drop)]
pub struct Entry {
    pub path: Names,
    pub value: Text,
}

/// The entries of a tree, each at the place of its path.
pub type Entries = BTreeMap<Place, Entry>;

/// The path begins with all names of the front.
pub fn begins_with(front: &[Text], path: &[Text]) -> bool
    ensures { result ≡ begins_with front.now path.now }
{
    let [name, names @ ..] = front else {
        return true;
    };
    let [other, others @ ..] = path else {
        return false;
    };
    name.as_bytes() == other.as_bytes() && begins_with(names, others)
}

/// The entry of a path.
pub fn entry_of<'a>(entries: &'a Entries, path: &[Text]) -> Option<&'a Entry>
    requires placed { AllByRecursion IsPlaced entries.now.entries }
    requires path { IsTrue (is_path path.now) }
    ensures { option_copied result ≡ find (λ e. is_same path.now e.path) (values entries.now) }
{
    if path.is_empty() {
        return None;
    }
    entries.get(&place_of(path))
}

/// Puts an entry at the place of its path, over one that may stand there. Without memory the entries stay as they are.
pub fn put_entry(entries: &mut Entries, entry: Entry) -> Result<(), AllocError>
    requires placed { AllByRecursion IsPlaced entries.old.entries }
    requires path { IsTrue (is_below_root entry.path) }
    ensures placed { AllByRecursion IsPlaced entries.new.entries }
    ensures ordered { IsOrdered place_cmp entries.new }
    ensures ok { OnOk result (Updates place_cmp entries.old entries.new (place_of entry.path) (Some entry)) }
    ensures err { OnErr result (entries.new.entries ≡ entries.old.entries) }
{
    entries.insert(place_of(entry.path.as_slice()), entry)?;
    Ok(())
}

/// Takes out what stands at a place.
pub fn take_entry(entries: &mut Entries, place: Place)
    requires placed { AllByRecursion IsPlaced entries.old.entries }
    ensures placed { AllByRecursion IsPlaced entries.new.entries }
    ensures ordered { IsOrdered place_cmp entries.new }
    ensures out { UpdatesBy place_cmp (place_cmp place) entries.old entries.new None }
{
    entries.remove(&place);
}

/// The entries whose paths go on from this one.
pub fn below<'a>(entries: &'a Entries, path: &[Text]) -> Range<'a, Place, Entry>
    requires placed { AllByRecursion IsPlaced entries.now.entries }
    requires path { IsTrue (is_path path.now) }
    requires room { length path.now ≤ 3 }
    ensures { result ≡ filter (λ e. goes_on_from path.now e.1.path) entries.now.entries }
{
    let from = Place {
        parent: name_numbers(path, 0),
        name: 0,
    };
    let to = Place {
        parent: name_numbers(path, u64::MAX),
        name: u64::MAX,
    };
    entries.range(from..to)
}

/// The entries whose paths have one name more than this one, with which they begin, by this name.
pub fn children<'a>(entries: &'a Entries, path: &[Text]) -> Range<'a, Place, Entry>
    requires placed { AllByRecursion IsPlaced entries.now.entries }
    requires path { IsTrue (is_path path.now) }
    requires room { length path.now ≤ 3 }
    ensures { result ≡ filter (λ e. is_child path.now e.1.path) entries.now.entries }
{
    let parent = name_numbers(path, 0);
    entries.range(
        Place { parent, name: 0 }..Place {
            parent,
            name: u64::MAX,
        },
    )
}

// Some of these paths has more than so many names behind the first `names`.
fn any_deeper(mut entries: Range<'_, Place, Entry>, names: usize, room: usize) -> bool
    ensures { result ≡ list_any (λ e. nat_lt room (length e.1.path - names)) entries.entry }
{
    entries.any(|(_, entry)| room < entry.path.len().saturating_sub(names))
}

/// Some path that goes on from this one has more than so many names behind it.
pub fn goes_deeper(entries: &Entries, path: &[Text], room: usize) -> bool
    requires placed { AllByRecursion IsPlaced entries.now.entries }
    requires path { IsTrue (is_path path.now) }
    ensures { result ≡ list_any (λ e. goes_on_from path.now e.path && nat_lt room (length e.path - length path.now))
        (values entries.now) }
{
    path.len() < MAX_NAMES && any_deeper(below(entries, path), path.len(), room)
}

// The last names of these paths.
fn own_names(alloc: Global, entries: Range<'_, Place, Entry>) -> Result<Names, AllocError>
    ensures { IfOk result (λ names. names ≡ map (λ e. own_name e.1.path) entries.entry) }
{
    let mut names = ListOf::new(alloc);
    for (_, entry) in entries {
        names.push(Text::copied(alloc, own_name(entry.path.as_slice()))?)?;
    }
    Ok(names)
}

/// The last names of the paths that have one name more than this one, with which they begin, by these names.
pub fn names_in(alloc: Global, entries: &Entries, path: &[Text]) -> Result<Names, AllocError>
    requires placed { AllByRecursion IsPlaced entries.now.entries }
    requires path { IsTrue (is_path path.now) }
    ensures { IfOk result (λ names. names
        ≡ map (λ e. own_name e.1.path) (filter (λ e. is_child path.now e.1.path) entries.now.entries)) }
{
    if path.len() == MAX_NAMES {
        return Ok(ListOf::new(alloc));
    }
    own_names(alloc, children(entries, path))
}
