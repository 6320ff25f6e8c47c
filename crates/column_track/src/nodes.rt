// Nodes that stand for those of events: of them a journal says the id, the floor and the wants alone.
ghost use Rattle.std.specs.Prelude.{◌≡◌, map, IfOk};
ghost use Rattle.column_track.specs.Doing.{IsNodeOf};

use log_node::{Colours, Counts, Head, Id, Item, Items, ListOf, Node, Row, Text, Wants};
use std::alloc::{AllocError, Global};
use std::sync::Arc;

/// A node of the colour 0 in a region, with this id, this floor and these wants.
pub(crate) fn node_of(
    alloc: Global,
    region: u8,
    id: Id,
    floor: u64,
    wanted: Counts,
) -> Result<Arc<Node>, AllocError>
    ensures { IfOk result (λ node. IsNodeOf region id floor wanted node.value) }
{
    let mut wants = Wants::new(alloc);
    wants.push(wanted)?;
    let node = Node {
        id,
        region,
        colours: Colours::of(&[0]),
        text: Text::empty(alloc),
        floor,
        wants,
        row: Some(Row {
            client: id.client,
            number: 0,
        }),
    };
    Ok(Arc::new(alloc, node)?)
}

/// Nodes with these heads.
pub(crate) fn items_with(alloc: Global, heads: &[Head]) -> Result<Items, AllocError>
    ensures { IfOk result (λ items. map (λ i. i.head) items ≡ heads.now) }
{
    let none = Id {
        client: 0,
        count: 0,
    };
    let node = node_of(alloc, 0, none, 0, Counts::zeros())?;
    let mut items = Vec::with_capacity(alloc, heads.len())?;
    for head in heads {
        items.push(Item {
            head: *head,
            node: node.clone()?,
        })?;
    }
    Ok(ListOf::from(items))
}
