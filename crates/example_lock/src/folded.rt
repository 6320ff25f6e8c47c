// The lock, as an object that is folded over nodes.
ghost use Rattle.std.specs.Prelude.{◌≡◌, List, slice_get};
ghost use Rattle.object_fold.specs.Nodes.{ObjectNode};
ghost use Rattle.lock_fold.specs.Tickets.{tickets_after, told_behind};
ghost use Rattle.example_lock.specs.Desks.{HasLock};

use lock_fold::{Lock, Ticket};
use log_node::{Key, Text};
use region_fold::NodeFold;
use std::alloc::{AllocError, Global};

/// The lock after nodes. A node that asks is told how many tickets are before its own.
#[derive(Drop)]
pub struct Folded {
    lock: Lock,
}

impl NodeFold for Folded {
    type Told = usize;

    ghost Holds = { HasLock };

    ghost told = { told_behind };

    fn open(alloc: Global) -> Self {
        Folded {
            lock: Lock::new(alloc),
        }
    }

    fn feed(&mut self, _alloc: Global, key: Key, text: &Text) -> Result<Option<usize>, AllocError> {
        self.lock.feed(key, text)
    }
}

impl Folded {
    /// The ticket that holds the lock, if there is one.
    pub fn holder(&self) -> Option<Ticket>
        ensures { (nodes : List ObjectNode) → HasLock self.now nodes → result ≡ slice_get (tickets_after nodes) 0 }
    {
        self.lock.holder()
    }
}
