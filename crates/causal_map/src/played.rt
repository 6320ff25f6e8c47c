// The nodes that a client has played, fed to a causal map that keeps what it was fed.
ghost use Rattle.std.specs.Prelude.{◌≡◌, ◌<◌, ◌^◌, List, length, IfOk, OnOk};
ghost use Rattle.object_fold.specs.Causal.{ChainNode, IsCausalAnswer};
ghost use Rattle.object_fold.specs.CausalStates.{IsCausalMap};
ghost use Rattle.causal_map.specs.Played.{AreInCausalOrder, KeepsFirst, chain_nodes};

use log_node::{Counts, Item, Names};
use object_fold::CausalMap;
use std::alloc::{AllocError, Global};

// The same needs, of which a proof then knows that they are four numbers.
fn four_numbers(needs: Counts) -> Counts
    ensures same { result ≡ needs }
    ensures four { length result.0 ≡ 4 }
{
    needs
}

// How many nodes the map was fed.
fn fed(map: &CausalMap) -> usize
    requires { (played : List ChainNode) × IsCausalMap map.now played × (length played < 2 ^ 64) }
    ensures { (played : List ChainNode) → IsCausalMap map.now played → result ≡ length played }
{
    let counts = map.counts();
    (counts.of_region(0) + counts.of_region(1) + counts.of_region(2) + counts.of_region(3)) as usize
}

// Feeds those that were not fed. Without memory the map has come a part of the way.
fn fold_on(alloc: Global, map: &mut CausalMap, nodes: &[Item]) -> Result<(), AllocError>
    requires played { AreInCausalOrder nodes.now }
    requires folds { KeepsFirst nodes.now map.old }
    ensures folds { KeepsFirst nodes.now map.new }
    ensures whole { OnOk result (IsCausalMap map.new (chain_nodes nodes.now)) }
{
    for place in fed(map)..nodes.len() {
        let item = &nodes[place];
        let node = item.node();
        let needs = four_numbers(item.head.needs);
        map.feed(alloc, node.region, needs, &node.text)?;
    }
    Ok(())
}

/// The values of the latest writes of a key among the nodes that were played, of which those that the map was fed are not fed
/// again. Without memory it has come a part of the way.
pub fn values(
    alloc: Global,
    map: &mut CausalMap,
    nodes: &[Item],
    key: &[u8],
) -> Result<Names, AllocError>
    requires played { AreInCausalOrder nodes.now }
    requires folds { KeepsFirst nodes.now map.old }
    ensures folds { KeepsFirst nodes.now map.new }
    ensures values { IfOk result (IsCausalAnswer (chain_nodes nodes.now) key.now) }
{
    fold_on(alloc, map, nodes)?;
    map.get(alloc, key)
}
