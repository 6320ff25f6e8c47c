// The end from which nodes come.
ghost use Rattle.std.specs.Prelude.{IsTrue, ◌↔◌};
ghost use Rattle.ring_ends.specs.Givens.{IsOfItsHead};

use log_node::{Item, MAX_STAMP};
use rtrb::Consumer;
use std::alloc::AllocError;

/// The end of a ring from which nodes come, with those that came and that no one has taken yet.
#[derive(Drop)]
pub struct Receives {
    pub(crate) consumer: Consumer<Item>,
    pub waiting: Vec<Item>,
}

impl Receives {
    ghost use Rattle.std.specs.Prelude.{◌≡◌, ◌++◌, List, OnOk, OnErr};
    ghost use Rattle.log_node.specs.Seen.{PlacedNode};
    ghost use Rattle.ring_ends.specs.Givens.{OfTheirHeads, BeginsOtherwise};
    ghost use Rattle.ring_ends.specs.Rings.{ring_received, got, left};

    /// Receives what is there: nodes of this region, each under its own id and a stamp that there is. A refusal loses
    /// nothing. One that is none of these, which no one sends, stays in the ring.
    pub fn receive(&mut self, region: u8) -> Result<(), AllocError>
        ensures ring { ring_received self.new ≡ ring_received self.old }
        ensures ok { OnOk result ((more : List PlacedNode) × (got self.new ≡ got self.old ++ more) × (self.new.waiting.items ≡ self.old.waiting.items ++ more) × OfTheirHeads region more) }
        ensures all { OnOk result (BeginsOtherwise region (left self.new)) }
        ensures err { OnErr result ((got self.new ≡ got self.old) × (self.new.waiting.items ≡ self.old.waiting.items)) }
    {
        let known = self.consumer.slots();
        self.waiting.reserve(known)?;
        for _ in 0..known {
            if !is_of_its_head(self.consumer.peek_known(), region) {
                break;
            }
            let item = self.consumer.pop_known();
            self.waiting.push_reserved(item);
        }
        Ok(())
    }
}

// Whether the node is of the region, under its own id and a stamp that there is.
fn is_of_its_head(item: &Item, region: u8) -> bool
    ensures { IsTrue result ↔ IsOfItsHead region item.now }
{
    let node = item.node();
    node.id == item.head.key.id && item.head.key.stamp <= MAX_STAMP && node.region == region
}
