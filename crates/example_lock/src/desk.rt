// A client at the lock.
ghost use Rattle.std.specs.Prelude.{◌≡◌, ◌<◌, IfOk, IfErr, codes};
ghost use Rattle.log_client.specs.Clients.{IsClient};
ghost use Rattle.example_lock.specs.Desks.{IsDesk, Asks, Leaves, Looks, LookRefused, WriteRefused, Writes};

use crate::folded::Folded;
use fuzzy_io::OpenGate;
use lock_fold::{ASK, LEAVE, Ticket};
use log_client::{Client, ObjectFault, Store};
use log_node::{Colours, Text};
use region_fold::RegionFold;
use std::alloc::Global;
use std::sync::Wait;

// The lock's one colour.
const COLOURS: [u8; 1] = [0];

/// A place in the queue for the lock.
#[derive(Clone, Copy, Debug, PartialEq, Eq)]
pub struct Place {
    /// The fencing token: the stamp of the ask. Whoever asks later has a greater one.
    pub token: u64,
    /// How many tickets are before this one; with 0 it holds the lock.
    pub before: usize,
}

/// A client at the lock of its region. It asks, looks who holds, and leaves.
#[derive(Drop)]
pub struct Desk {
    client: Client,
    fold: RegionFold<Folded>,
}

impl Desk {
    /// The desk of a client. Takes no memory.
    pub fn open(alloc: Global, client: Client) -> Desk
        ensures client { result.client ≡ client }
        ensures desk { (s : Store) → IsClient s client → 0 < s.size.colours → IsDesk s result }
    {
        Desk {
            client,
            fold: RegionFold::open(alloc),
        }
    }

    // Appends a node, and answers its stamp and what it is told.
    fn write<R: Wait>(
        &mut self,
        rt: &R,
        alloc: Global,
        store: &Store,
        text: &str,
    ) -> Result<(u64, Option<usize>), ObjectFault>
        requires { IsDesk store.now self.old }
        ensures desk { IsDesk store.now self.new }
        ensures ok { IfOk result (λ r. Writes store.now self.old.client self.new.client text.now r.0 r.1) }
        ensures err { IfErr result (WriteRefused store.now self.old.client self.new.client text.now) }
    {
        let Ok(text) = Text::copied(alloc, text.as_bytes()) else {
            return Err(ObjectFault::NoMemory);
        };
        let client = &mut self.client;
        let set = Colours::of(&COLOURS);
        let (told, own, _read) = self
            .fold
            .append_and_read(rt, alloc, client, store, &OpenGate, &COLOURS, set, text)?;
        Ok((own.stood.key.stamp, told))
    }

    /// Asks for the lock, behind all who asked before. Waits as an append and a read do.
    pub fn ask<R: Wait>(
        &mut self,
        rt: &R,
        alloc: Global,
        store: &Store,
    ) -> Result<Place, ObjectFault>
        requires { IsDesk store.now self.old }
        ensures desk { IsDesk store.now self.new }
        ensures ok { IfOk result (Asks store.now self.old.client self.new.client) }
        ensures err { IfErr result (WriteRefused store.now self.old.client self.new.client (codes "ask")) }
    {
        let (token, told) = self.write(rt, alloc, store, ASK)?;
        Ok(Place {
            token,
            before: told.unwrap_or(0),
        })
    }

    /// Leaves the lock, and each place behind it that the client has. Waits as an append and a read do.
    pub fn leave<R: Wait>(
        &mut self,
        rt: &R,
        alloc: Global,
        store: &Store,
    ) -> Result<(), ObjectFault>
        requires { IsDesk store.now self.old }
        ensures desk { IsDesk store.now self.new }
        ensures ok { IfOk result (λ _. Leaves store.now self.old.client self.new.client) }
        ensures err { IfErr result (WriteRefused store.now self.old.client self.new.client (codes "leave")) }
    {
        let _own = self.write(rt, alloc, store, LEAVE)?;
        Ok(())
    }

    /// The ticket that holds the lock, if there is one. Waits as a read does.
    pub fn holder<R: Wait>(
        &mut self,
        rt: &R,
        alloc: Global,
        store: &Store,
    ) -> Result<Option<Ticket>, ObjectFault>
        requires { IsDesk store.now self.old }
        ensures desk { IsDesk store.now self.new }
        ensures ok { IfOk result (Looks store.now self.old.client self.new.client) }
        ensures err { IfErr result (LookRefused store.now self.old.client self.new.client) }
    {
        match self.fold.read(rt, alloc, &mut self.client, store, &COLOURS) {
            Ok(_read) => Ok(self.fold.state().holder()),
            Err(fault) => Err(ObjectFault::Sync(fault)),
        }
    }
}
