// Nodes that may be played: the next ones of their chains whose needs are played.
ghost use Rattle.std.specs.Prelude.{◌≡◌, ◌<◌, ◌≤◌, Some};
ghost use Rattle.log_node.specs.Vectors.{at, IsWithin};
ghost use Rattle.playback.specs.Orders.{next_place};
ghost use Rattle.playback.specs.Playing.{item_at};
ghost use Rattle.playback.specs.Inside.{free_in, first_of, free_before, GoesNext, IsNextRegion};

use col_core::View;
use log_node::{Counts, Item, Key};

/// A region whose next node is free, and that node's key.
#[derive(Clone, Copy, Debug, PartialEq, Eq)]
pub struct Free {
    pub region: u8,
    pub key: Key,
}

// The next node of a region's chain, where it is to be played and its needs are played.
fn free_in(view: &View, played: Counts, region: u8) -> Option<Free>
    requires region { region < 4 }
    requires from { at view.now.from region ≤ at played region }
    ensures { result ≡ free_in view.now played region }
{
    let number = region as usize;
    let position = played.0[number];
    if position >= view.cut.0[number] {
        return None;
    }
    let items = view.items.get(number)?;
    let item = items.get((position - view.from.0[number]) as usize)?;
    if item.head.needs.is_within(played) {
        Some(Free {
            region,
            key: item.head.key,
        })
    } else {
        None
    }
}

// Whether of two free nodes the one goes before the other.
fn is_before(a: Free, b: Free) -> bool
    ensures { result ≡ free_before a b }
{
    a.key.is_below(b.key) || (a.key.is_same(b.key) && a.region < b.region)
}

// Of two that may be free the one that goes first.
fn first_of(one: Option<Free>, other: Option<Free>) -> Option<Free>
    ensures { result ≡ first_of one other }
{
    match (one, other) {
        (None, _) => other,
        (Some(one), None) => Some(one),
        (Some(one), Some(other)) => {
            if is_before(other, one) {
                Some(other)
            } else {
                Some(one)
            }
        }
    }
}

/// The region whose next node is played next, where this many nodes of each chain are played.
pub(crate) fn next_region(view: &View, played: Counts) -> Option<u8>
    requires { IsWithin view.now.from played }
    ensures { IsNextRegion view.now played result }
{
    let last = free_in(view, played, 3);
    let third = first_of(free_in(view, played, 2), last);
    let second = first_of(free_in(view, played, 1), third);
    let first = first_of(free_in(view, played, 0), second);
    match first {
        None => None,
        Some(free) => Some(free.region),
    }
}

/// The next node of a region's chain.
pub(crate) fn next_item(view: &View, played: Counts, region: u8) -> &Item
    requires { GoesNext view.now played region }
    ensures { item_at view.now (next_place played region) ≡ Some result.now }
{
    let number = region as usize;
    let items = &view.items.as_slice()[number];
    &items.as_slice()[(played.0[number] - view.from.0[number]) as usize]
}
