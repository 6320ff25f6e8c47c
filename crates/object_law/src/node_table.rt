// The nodes that clients appended.
ghost use Rattle.std.specs.Prelude.{◌≡◌, ◌==◌, ◌<◌, ◌++◌, ◌∷◌, ℕ, [], IfOk, OnOk, length, if◌then◌else◌};
ghost use Rattle.std.specs.Option.{option_copied};
ghost use Rattle.object_law.specs.NodeTables.{node_in, nodes_at};

use log_node::{Id, ListOf, Node};
use std::alloc::{AllocError, Global};
use std::marker::Model;

/// The nodes that clients appended, by client, in the order of their ids. Contracts see the lists.
#[derive(Drop)]
pub struct NodeTable {
    lists: Vec<ListOf<Node>>,
}

impl Model for NodeTable {
    ghost use Rattle.std.specs.Prelude.{List};
    ghost use Rattle.log_node.specs.declared.node.Node.{Node as Appended};

    ghost Value = { List (List Appended) };

    ghost view = { λ t. t.lists.items };
}

impl NodeTable {
    /// Of so many clients, none of which has appended a node.
    pub(crate) fn new(alloc: Global, clients: usize) -> Result<NodeTable, AllocError>
        ensures many { IfOk result (λ t. length t ≡ clients) }
        ensures none { IfOk result (λ t. (client : ℕ) → nodes_at t client ≡ []) }
    {
        let mut lists = Vec::with_capacity(alloc, clients)?;
        for _ in 0..clients {
            lists.push(ListOf::new(alloc))?;
        }
        Ok(NodeTable { lists })
    }

    /// The nodes of one more client.
    pub(crate) fn add_client(&mut self, nodes: ListOf<Node>) -> Result<(), AllocError>
        ensures { OnOk result (self.new ≡ self.old ++ nodes ∷ []) }
    {
        self.lists.push(nodes)?;
        Ok(())
    }

    /// The node with this id, where there is one.
    pub(crate) fn node(&self, id: Id) -> Option<&Node>
        ensures { option_copied result ≡ node_in self.now id }
    {
        match self.lists.get(id.client as usize) {
            Some(list) => list.get(id.count as usize),
            None => None,
        }
    }

    /// The nodes of a client.
    pub(crate) fn of_client(&self, client: u8) -> &[Node]
        ensures { result.now ≡ nodes_at self.now client }
    {
        match self.lists.get(client as usize) {
            Some(list) => list.as_slice(),
            None => &[],
        }
    }

    /// One node more of a client, where the table has it.
    pub(crate) fn add(&mut self, client: u8, node: Node) -> Result<(), AllocError>
        ensures many { OnOk result (length self.new ≡ length self.old) }
        ensures added { OnOk result ((other : ℕ) → other < length self.old → nodes_at self.new other
            ≡ (if other == client then nodes_at self.old other ++ node ∷ [] else nodes_at self.old other)) }
    {
        let at = client as usize;
        if at < self.lists.len() {
            self.lists[at].push(node)?;
        }
        Ok(())
    }

    /// The lists of nodes, by client; takes no memory.
    pub(crate) fn into_lists(self) -> Vec<ListOf<Node>>
        ensures { result.items ≡ self }
    {
        self.lists
    }
}
