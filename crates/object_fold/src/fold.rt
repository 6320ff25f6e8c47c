// One-thread objects, to which nodes are fed.
ghost use Rattle.std.specs.Prelude.{◌≡◌, ◌++◌, ◌∷◌, List, [], Option, IfOk, OnOk, OnErr};
ghost use Rattle.object_fold.specs.Nodes.{ObjectNode, keyed_node};

use log_node::{Key, Node, Text};
use std::alloc::{AllocError, Global};

/// What nodes leave, which are fed one after another in rising key.
///
/// Who implements it says by two ghost members what the object is: which values stand for it after nodes, and what a node is
/// told behind others.
pub trait NodeFold: Drop {
    /// What a node is told that the object answers.
    type Told: Drop;

    // the value stands for the object after these nodes
    ghost Holds: { Self → List ObjectNode → Type 0 };

    // what a node is told behind these nodes, if it is one that is answered
    ghost told: { List ObjectNode → ObjectNode → Option Self.Told };

    /// The object after no node. Takes no memory.
    fn open(alloc: Global) -> Self
        ensures { Holds result [] };

    /// Feeds the next node, and gives what it is told. At an error the object is as before.
    fn feed(
        &mut self,
        alloc: Global,
        key: Key,
        text: &Text,
    ) -> Result<Option<Self::Told>, AllocError>
        ensures told { (nodes : List ObjectNode) (node : ObjectNode) → node.key ≡ key → node.text ≡ text.now
            → Holds self.old nodes → IfOk result (λ answer. answer ≡ told nodes node) }
        ensures ok { (nodes : List ObjectNode) (node : ObjectNode) → node.key ≡ key → node.text ≡ text.now
            → Holds self.old nodes → OnOk result (Holds self.new (nodes ++ node ∷ [])) }
        ensures err { (nodes : List ObjectNode) → Holds self.old nodes → OnErr result (Holds self.new nodes) };
}

/// What the nodes of one line leave, which are fed one after another.
///
/// Who implements it says by ghost members what the object is: which values stand for it after nodes, and what of it no node
/// changes.
pub trait LineFold: Drop {
    // the value stands for the object after these nodes
    ghost Holds: { Self → List ObjectNode → Type 0 };

    // what it was opened with, which stays
    ghost Opened: { Type 0 };

    ghost opened: { Self → Opened };

    /// Feeds the next node of the line. At an error the object is as before.
    fn feed(&mut self, alloc: Global, key: Key, node: &Node) -> Result<(), AllocError>
        ensures opened { opened self.new ≡ opened self.old }
        ensures ok { (nodes : List ObjectNode) → Holds self.old nodes
            → OnOk result (Holds self.new (nodes ++ keyed_node key node.now ∷ [])) }
        ensures err { (nodes : List ObjectNode) → Holds self.old nodes → OnErr result (Holds self.new nodes) };
}
