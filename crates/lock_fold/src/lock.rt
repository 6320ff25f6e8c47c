// One lock, folded from the nodes of its colour.
ghost use Rattle.std.specs.Prelude.{◌≡◌, ◌++◌, ◌∷◌, [], List, IfOk, OnOk, OnErr, slice_get};
ghost use Rattle.object_fold.specs.Nodes.{ObjectNode};
ghost use Rattle.lock_fold.specs.Tickets.{HasTickets, tickets_after, told_behind, without};

use log_node::{Key, Text};
use std::alloc::{AllocError, Global};

/// The text of a node that asks for the lock.
pub const ASK: &str = "ask";

/// The text of a node that leaves the lock, or the places behind it.
pub const LEAVE: &str = "leave";

/// One ask: the client that asked, and its fencing token, which is the stamp of the node that asked.
#[derive(Clone, Copy, Debug, PartialEq, Eq)]
pub struct Ticket {
    pub client: u8,
    pub token: u64,
}

/// The lock after some nodes: the tickets of those who have not left, in the order of the log. The first one holds.
#[derive(Drop)]
pub struct Lock {
    waiting: Vec<Ticket>,
}

// The client's tickets are handed back.
fn hand_back(waiting: &mut Vec<Ticket>, client: u8)
    ensures { waiting.new.items ≡ without client waiting.old.items }
{
    waiting.retain(|ticket| ticket.client != client);
}

impl Lock {
    /// A lock for which nobody has asked. Takes no memory.
    pub fn new(alloc: Global) -> Lock
        ensures { HasTickets result [] }
    {
        Lock {
            waiting: Vec::new(alloc),
        }
    }

    /// The ticket that holds the lock, if there is one.
    pub fn holder(&self) -> Option<Ticket>
        ensures { (nodes : List ObjectNode) → HasTickets self.now nodes → result ≡ slice_get (tickets_after nodes) 0 }
    {
        self.waiting.first().copied()
    }

    /// Feeds the next node. One that asks is told how many tickets are before its own. At an error the lock is as before.
    pub fn feed(&mut self, key: Key, text: &Text) -> Result<Option<usize>, AllocError>
        ensures told { (nodes : List ObjectNode) (node : ObjectNode) → node.key ≡ key → node.text ≡ text.now
            → HasTickets self.old nodes → IfOk result (λ told. told ≡ told_behind nodes node) }
        ensures ok { (nodes : List ObjectNode) (node : ObjectNode) → node.key ≡ key → node.text ≡ text.now
            → HasTickets self.old nodes → OnOk result (HasTickets self.new (nodes ++ node ∷ [])) }
        ensures err { (nodes : List ObjectNode) → HasTickets self.old nodes → OnErr result (HasTickets self.new nodes) }
    {
        let client = key.id.client;
        if text.as_bytes() == ASK.as_bytes() {
            let before = self.waiting.len();
            self.waiting.push(Ticket {
                client,
                token: key.stamp,
            })?;
            return Ok(Some(before));
        }
        if text.as_bytes() == LEAVE.as_bytes() {
            hand_back(&mut self.waiting, client);
        }
        Ok(None)
    }
}
