// The nodes that are appended.
ghost use Rattle.std.specs.Prelude.{◌≡◌, None, IfOk, ◌<◌, ◌^◌};
ghost use Rattle.bench.specs.Nodes.{IsAppended};

use log_node::{Colours, Id, Node, Text, Wants};
use std::alloc::{AllocError, Global};
use std::sync::Arc;

/// A node of a client and of the colour 0 alone, with no text.
pub fn node(alloc: Global, client: u8, count: u64) -> Result<Arc<Node>, AllocError>
    ensures { IfOk result (λ node. IsAppended client count node.value) }
{
    let node = Node {
        id: Id { client, count },
        region: 0,
        colours: Colours::of(&[0]),
        text: Text::empty(alloc),
        floor: 0,
        wants: Wants::new(alloc),
        row: None,
    };
    Ok(Arc::new(alloc, node)?)
}
