// What nodes are told, each behind those before it in the order of their keys.
ghost use Rattle.std.specs.Prelude.{◌≡◌, ◌++◌, List, IfOk, OnOk};
ghost use Rattle.object_fold.specs.Nodes.{ObjectNode};
ghost use Rattle.playback.specs.Merging.{AreRising};
ghost use Rattle.run_rules.specs.Computing.{node_read};
ghost use Rattle.object_law.specs.NodeTables.{node_in};
ghost use Rattle.object_law.specs.ToldNodes.{HasPlace, told_each, told_next};

use crate::node_table::NodeTable;
use log_node::Key;
use object_fold::NodeFold;
use std::alloc::{AllocError, Global};

// Feeds the node with a key, where there is one; what it is told.
fn tell<F: NodeFold>(
    alloc: Global,
    fold: &mut F,
    nodes: &NodeTable,
    key: Key,
) -> Result<Option<F::Told>, AllocError>
    ensures told { (fed : List ObjectNode) → F.Holds fold.old fed
        → IfOk result (λ told. told ≡ told_next F.told fed (node_read key (node_in nodes.now key.id))) }
    ensures fed { (fed : List ObjectNode) → F.Holds fold.old fed
        → OnOk result (F.Holds fold.new (fed ++ node_read key (node_in nodes.now key.id))) }
{
    match nodes.node(key.id) {
        Some(node) => fold.feed(alloc, key, &node.text),
        None => Ok(None),
    }
}

/// What each of the nodes with these keys is told by an object that is fed them in their order.
pub(crate) fn tell_each<F: NodeFold>(
    alloc: Global,
    nodes: &NodeTable,
    keys: &[Key],
) -> Result<Vec<Option<F::Told>>, AllocError>
    requires { AreRising keys.now }
    ensures { IfOk result (λ told. told.items ≡ told_each F.told nodes.now keys.now) }
{
    let mut fold = F::open(alloc);
    let mut told = Vec::with_capacity(alloc, keys.len())?;
    for key in keys {
        told.push(tell(alloc, &mut fold, nodes, *key)?)?;
    }
    Ok(told)
}

/// The place of a key, where it is one of these.
pub(crate) fn place_of(keys: &[Key], key: Key) -> Option<usize>
    requires { AreRising keys.now }
    ensures { HasPlace keys.now key result }
{
    let place = keys.partition_point(|other| other.is_below(key));
    match keys.get(place) {
        Some(found) => {
            if found.is_same(key) {
                Some(place)
            } else {
                None
            }
        }
        None => None,
    }
}
