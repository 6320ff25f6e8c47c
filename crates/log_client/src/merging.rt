// The own lines of several colours in one order: they are merged, one after another.
ghost use Rattle.std.specs.Prelude.{◌≡◌, ◌<◌, ◌≤◌, ◌++◌, nat_le, length, take, drop, slice_get, IfOk, OnOk, false};
ghost use Rattle.std.specs.List.{All, filter, prefix_len};
ghost use Rattle.std.specs.Option.{option_map_or};
ghost use Rattle.log_node.specs.Order.{key_below, same_key};
ghost use Rattle.log_node.specs.Seen.{PlacedNode};
ghost use Rattle.log_node.specs.Sets.{members};
ghost use Rattle.object_fold.specs.Folds.{is_behind};
ghost use Rattle.playback.specs.Merging.{AreRising};
ghost use Rattle.log_client.specs.Reading.{keys_of};
ghost use Rattle.log_client.specs.Items.{part_of, are_parts, TakesUntil, AreMerged, AreMergedParts};

use crate::track::Track;
use log_node::{Colours, Item, Items, Key};
use std::alloc::{AllocError, Global};

// The items once more, at the end.
pub(crate) fn share_all(all: &mut Vec<Item>, items: &[Item]) -> Result<(), AllocError>
    ensures { OnOk result (all.new.items ≡ all.old.items ++ items.now) }
{
    for item in items {
        all.push(item.share()?)?;
    }
    Ok(())
}

// How many items at the front come before this one.
fn count_below(items: &[Item], item: &Item) -> usize
    ensures value { result ≡ prefix_len (λ (other : PlacedNode). key_below other.head.key item.now.head.key) items.now }
    ensures bound { result ≤ length items.now }
{
    items
        .iter()
        .take_while(|other| other.head.key.is_below(item.head.key))
        .count()
}

// Whether the item stands at a position.
fn stands_at(items: &[Item], at: usize, item: &Item) -> bool
    ensures { result
        ≡ option_map_or (λ (other : PlacedNode). same_key other.head.key item.now.head.key) (slice_get items.now at) false }
{
    match items.get(at) {
        Some(other) => other.head.key.is_same(item.head.key),
        None => false,
    }
}

// Takes from a position on the items that come before this one, and then this one. Answers where those behind it begin.
fn take_to(
    all: &mut Vec<Item>,
    others: &[Item],
    from: usize,
    item: Item,
) -> Result<usize, AllocError>
    requires { from ≤ length others.now }
    ensures bound { IfOk result (λ next. next ≤ length others.now) }
    ensures ok { IfOk result (λ next. TakesUntil all.old.items all.new.items others.now from next item) }
{
    let next = from + count_below(&others[from..], &item);
    let is_there = stands_at(others, next, &item);
    share_all(all, &others[from..next])?;
    all.push(item)?;
    if is_there { Ok(next + 1) } else { Ok(next) }
}

// Two lists in rising key as one, each key once.
fn merged(alloc: Global, items: Vec<Item>, others: &[Item]) -> Result<Vec<Item>, AllocError>
    ensures { IfOk result (λ all. AreMerged items.items others.now all.items) }
{
    let count = items.len().saturating_add(others.len());
    let mut all = Vec::with_capacity(alloc, count)?;
    let mut next = 0;
    for item in items {
        next = take_to(&mut all, others, next, item)?;
    }
    share_all(&mut all, &others[next..])?;
    Ok(all)
}

// How many items of a line do not come behind the last key, if there is one.
fn count_to(line: &[Item], last: Option<Key>) -> usize
    requires { AreRising (keys_of line.now) }
    ensures bound { result ≤ length line.now }
    ensures dropped { drop result line.now ≡ filter (λ (item : PlacedNode). is_behind last item.head.key) line.now }
{
    match last {
        Some(last) => line.partition_point(|item| !last.is_below(item.head.key)),
        None => 0,
    }
}

/// How many items of a line have stamps up to this one: they are its first.
pub fn count_up_to(line: &[Item], stamp: u64) -> usize
    requires { AreRising (keys_of line.now) }
    ensures bound { result ≤ length line.now }
    ensures taken { take result line.now ≡ filter (λ (item : PlacedNode). nat_le item.head.key.stamp stamp) line.now }
{
    line.partition_point(|item| item.head.key.stamp <= stamp)
}

// The items of a line that come behind the last key, if there is one, and have stamps up to this one.
fn part_of(line: &[Item], last: Option<Key>, stamp: u64) -> &[Item]
    requires { AreRising (keys_of line.now) }
    ensures { result.now ≡ part_of last stamp line.now }
{
    let behind = &line[count_to(line, last)..];
    &behind[..count_up_to(behind, stamp)]
}

// The nodes of the own lines of these colours that come behind the last key, if there is one, and have stamps up to this
// one, each once, in rising key.
pub(crate) fn items_read(
    alloc: Global,
    tracks: &[Track],
    colours: Colours,
    last: Option<Key>,
    stamp: u64,
) -> Result<Items, AllocError>
    requires within { All (λ colour. colour < length tracks.now) (members colours) }
    requires rising { All (λ (track : Track). AreRising (keys_of track.line)) tracks.now }
    ensures { IfOk result (λ items. AreMergedParts (are_parts tracks.now last stamp (members colours)) items) }
{
    let mut items = Vec::new(alloc);
    for colour in colours.members() {
        let line = tracks[colour as usize].line.as_slice();
        items = merged(alloc, items, part_of(line, last, stamp))?;
    }
    Ok(items.into())
}
