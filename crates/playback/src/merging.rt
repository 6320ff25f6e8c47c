// The order of a region: the lines of its columns are merged, one after another.
ghost use Rattle.std.specs.Prelude.{◌≡◌, ◌≤◌, ◌∷◌, ◌++◌, List, length, take, drop, slice_get, IfOk, false};
ghost use Rattle.std.specs.List.{prefix_len};
ghost use Rattle.std.specs.Option.{option_map_or};
ghost use Rattle.log_node.specs.declared.ids.Key.{Key};
ghost use Rattle.log_node.specs.Order.{key_below, same_key};
ghost use Rattle.playback.specs.Merging.{merged, merged_behind, up_to, AreRising};

use log_node::Key;
use std::alloc::{AllocError, Global};

// How many keys at the front come before a key.
fn count_below(keys: &[Key], key: Key) -> usize
    ensures value { result ≡ prefix_len (λ other. key_below other key) keys.now }
    ensures bound { result ≤ length keys.now }
{
    keys.iter().take_while(|other| other.is_below(key)).count()
}

/// How many keys of a line have stamps up to this one: they are its first.
pub fn count_up_to(line: &[Key], stamp: u64) -> usize
    requires rising { AreRising line.now }
    ensures bound { result ≤ length line.now }
    ensures taken { take result line.now ≡ up_to stamp line.now }
{
    line.partition_point(|key| key.stamp <= stamp)
}

// Whether the key stands at a position.
fn stands_at(keys: &[Key], at: usize, key: Key) -> bool
    ensures { result ≡ option_map_or (λ other. same_key other key) (slice_get keys.now at) false }
{
    match keys.get(at) {
        Some(other) => other.is_same(key),
        None => false,
    }
}

// Takes from a position on the keys that come before a key, and then that key. Answers where those behind it begin.
fn take_to(all: &mut Vec<Key>, others: &[Key], from: usize, key: Key) -> Result<usize, AllocError>
    requires { from ≤ length others.now }
    ensures bound { IfOk result (λ next. next ≤ length others.now) }
    ensures ok { IfOk result (λ next. (rest : List Key → List Key)
        → all.new.items ++ rest (drop next others.now)
        ≡ all.old.items ++ merged_behind key rest (drop from others.now)) }
{
    let next = from + count_below(&others[from..], key);
    all.extend_from_slice(&others[from..next])?;
    all.push(key)?;
    if stands_at(others, next, key) {
        Ok(next + 1)
    } else {
        Ok(next)
    }
}

// Two lists in rising key as one, each key once.
fn merged(alloc: Global, keys: &[Key], others: &[Key]) -> Result<Vec<Key>, AllocError>
    ensures { IfOk result (λ all. all.items ≡ merged keys.now others.now) }
{
    let mut all = Vec::with_capacity(alloc, keys.len().saturating_add(others.len()))?;
    let mut next = 0;
    for key in keys {
        next = take_to(&mut all, others, next, *key)?;
    }
    all.extend_from_slice(&others[next..])?;
    Ok(all)
}

/// These keys with those of a line up to a stamp, in rising key, each once: so the lines of several columns are merged
/// one after another.
pub fn with_line(
    alloc: Global,
    keys: &[Key],
    line: &[Key],
    stamp: u64,
) -> Result<Vec<Key>, AllocError>
    requires rising { AreRising line.now }
    ensures { IfOk result (λ all. all.items ≡ merged keys.now (up_to stamp line.now)) }
{
    let count = count_up_to(line, stamp);
    merged(alloc, keys, &line[..count])
}
