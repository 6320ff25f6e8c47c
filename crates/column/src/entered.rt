// A node that entered a column, and what becomes of it for a reader and for a helper.
ghost use Rattle.std.specs.Prelude.{◌≡◌, length, IfOk};
ghost use Rattle.column.specs.Columns.{IsBegunOf, items_under, placed};

use log_node::{Begun, Counts, Head, Item, Items, Key, ListOf, Node};
use std::alloc::{AllocError, Global};
use std::marker::Model;
use std::sync::Arc;

/// A node that entered a column, with what it needs there. Contracts see the node itself.
#[derive(Drop)]
pub struct Entered {
    needs: Counts,
    node: Arc<Node>,
}

impl Model for Entered {
    ghost use Rattle.column.specs.Entering.{EnteredNode};

    ghost Value = { EnteredNode };

    ghost view = { λ a. record { needs = a.needs; node = a.node.value } };
}

/// The nodes as one reads them that stand in the line under these keys.
pub(crate) fn items_of(alloc: Global, keys: &[Key], nodes: &[Entered]) -> Result<Items, AllocError>
    requires { length keys.now ≡ length nodes.now }
    ensures { IfOk result (λ items. items ≡ items_under keys.now nodes.now) }
{
    let mut items = Vec::with_capacity(alloc, keys.len())?;
    for at in 0..keys.len() {
        items.push_reserved(nodes[at].item(keys[at])?);
    }
    Ok(ListOf::from(items))
}

impl Entered {
    /// A node with what it needs.
    pub fn of(needs: Counts, node: Arc<Node>) -> Entered
        ensures { result ≡ record { needs = needs; node = node.value } }
    {
        Entered { needs, node }
    }

    /// What the node needs.
    pub fn needs(&self) -> Counts
        ensures { result ≡ self.now.needs }
    {
        self.needs
    }

    /// The node as one reads it that stands in the line under this key.
    #[inline]
    pub fn item(&self, key: Key) -> Result<Item, AllocError>
        ensures { IfOk result (λ item. item ≡ placed key self.now) }
    {
        Ok(Item {
            head: Head {
                key,
                needs: self.needs,
            },
            node: self.node.clone()?,
        })
    }

    /// The begun append of a node of several colours, as a helper holds it. Where memory was refused, it is
    /// without its node. `None` exactly where the node has no row.
    pub fn begun(&self) -> Option<Begun>
        ensures { IsBegunOf result self.now.node }
    {
        let row = self.node.row?;
        Some(Begun {
            id: self.node.id,
            colours: self.node.colours,
            row,
            node: self.node.clone().ok(),
        })
    }
}
