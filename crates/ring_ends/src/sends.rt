// The end into which nodes go.
ghost use Rattle.std.specs.Prelude.{◌≡◌, length};
ghost use Rattle.rtrb.specs.Ring.{sent};

use log_node::Item;
use rtrb::Producer;

/// The end of a ring into which nodes go, for a node's region.
#[derive(Drop)]
pub struct Sends {
    pub(crate) producer: Producer<Item>,
    pub(crate) count: u64,
    ghost counts: { length (sent producer) ≡ count },
}

impl Sends {
    ghost use Rattle.std.specs.Prelude.{ℕ, ◌+◌, ◌^◌, ◌<◌, [], ◌∷◌, ◌++◌};
    ghost use Rattle.ring_ends.specs.Rings.{ring_sent, gone, room_of};

    /// How many nodes have gone into the ring.
    pub fn sent(&self) -> u64
        ensures { result ≡ length (gone self.now) }
    {
        self.count
    }

    /// How many nodes the ring takes now. The other end may free more places at any time.
    pub fn room(&mut self) -> usize
        ensures ring { ring_sent self.new ≡ ring_sent self.old }
        ensures gone { gone self.new ≡ gone self.old }
        ensures room { result ≡ room_of self.new }
    {
        self.producer.slots()
    }

    /// A node goes into the ring, which has room for it.
    pub fn send(&mut self, item: Item)
        requires room { 0 < room_of self.old }
        requires count { length (gone self.old) + 1 < 2 ^ 64 }
        ensures ring { ring_sent self.new ≡ ring_sent self.old }
        ensures gone { gone self.new ≡ gone self.old ++ item ∷ [] }
        ensures room { room_of self.old ≡ room_of self.new + 1 }
    {
        self.producer.push_reserved(item);
        self.count += 1;
    }
}
