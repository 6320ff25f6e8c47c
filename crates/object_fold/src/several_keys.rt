// Several keys at once, over the nodes of a stamped read.
ghost use Rattle.std.specs.Prelude.{◌≡◌, ◌<◌, ℕ, map, IfOk, IsTrue, nat_lt};
ghost use Rattle.std.specs.List.{list_all};
ghost use Rattle.object_fold.specs.Nodes.{object_node};
ghost use Rattle.object_fold.specs.Maps.{set_pairs, value_with, value_among, values_among};

use crate::shards::shard_of;
use log_node::{Form, Item, Keys, ListOf, MAX_COLOURS, Pair, Pairs, Text};
use object_form::read_form;
use std::alloc::{AllocError, Global};

/// Values, each of which may be none.
pub type Values = ListOf<Option<Text>>;

fn set_pairs(key: &[u8], old: Option<Text>, pairs: Pairs) -> Option<Text>
    ensures { result ≡ set_pairs key.now old pairs }
{
    let mut value = old;
    for pair in pairs.into_vec() {
        if pair.key.as_bytes() == key {
            value = Some(pair.value);
        }
    }
    value
}

fn value_with(key: &[u8], old: Option<Text>, form: Form) -> Option<Text>
    ensures { result ≡ value_with key.now old form }
{
    match form {
        Form::Put { key: other, value } => {
            if other.as_bytes() == key {
                Some(value)
            } else {
                old
            }
        }
        Form::Delete { key: other } => { if other.as_bytes() == key { None } else { old } }
        Form::PutAll { pairs } => set_pairs(key, old, pairs),
        Form::Transaction {
            reads: _reads,
            writes: _writes,
        } => old,
        Form::Enqueue { value: _value } => old,
        Form::Dequeue => old,
        Form::Causal {
            key: _key,
            value: _value,
        } => old,
        Form::Plain => old,
    }
}

// A key's value over the nodes that have the colour of its shard.
fn value_among(
    alloc: Global,
    colours: &[u8],
    nodes: &[Item],
    key: &[u8],
) -> Result<Option<Text>, AllocError>
    requires { IsTrue (list_all (λ colour. nat_lt colour MAX_COLOURS) colours.now) }
    ensures { IfOk result (λ value. value ≡ value_among colours.now (map object_node nodes.now) key.now) }
{
    let shard = shard_of(colours, key);
    let mut value = None;
    for item in nodes {
        let node = item.node();
        if node.colours.has(shard) {
            let form = read_form(alloc, &node.text)?;
            value = value_with(key, value, form);
        }
    }
    Ok(value)
}

/// The values of keys in a map with these colours, over nodes in rising key: for each key only nodes that have the
/// colour of its shard count. `AllocError` where memory is refused.
pub fn values_among(
    alloc: Global,
    colours: &[u8],
    nodes: &[Item],
    keys: &Keys,
) -> Result<Values, AllocError>
    requires { IsTrue (list_all (λ colour. nat_lt colour MAX_COLOURS) colours.now) }
    ensures { IfOk result (λ values. values ≡ values_among colours.now (map object_node nodes.now) keys.now) }
{
    let mut values = ListOf::new(alloc);
    for key in keys.as_slice() {
        let value = value_among(alloc, colours, nodes, key.as_bytes())?;
        values.push(value)?;
    }
    Ok(values)
}
