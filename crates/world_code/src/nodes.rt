// The nodes that clients appended, by their ids.
ghost use Rattle.std.specs.Prelude.{◌≡◌, None, Some, IfSome, slice_get};
ghost use Rattle.world_code.specs.WorldView.{world_of};

use crate::world::World;
use log_node::{Id, Node};
use std::sync::Arc;

impl World {
    /// The node that was appended under an id; `None` exactly where there is none.
    pub fn node(&self, id: Id) -> Option<&Arc<Node>>
        ensures some { IfSome result (λ node.
            slice_get ((world_of self.now).nodes id.client) id.count ≡ Some node.now.value) }
        ensures none { result ≡ None → slice_get ((world_of self.now).nodes id.client) id.count ≡ None }
    {
        match self.clients.get(id.client as usize) {
            Some(client) => client.node(id.count),
            None => None,
        }
    }
}
