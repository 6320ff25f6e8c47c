// Appends to one colour that may only stand next.
ghost use Rattle.std.specs.Prelude.{◌≡◌, ◌<◌, IfOk, IfErr};
ghost use Rattle.log_client.specs.Clients.{IsClient, Helps, tracks_of};
ghost use Rattle.log_client.specs.Calls.{IsExplained};
ghost use Rattle.log_client.specs.Reading.{RestsOn};
ghost use Rattle.log_client.specs.Guarded.{IsNextPoint, OnlyAs, OnlyRefused};

use crate::answers::Appended;
use crate::client::Client;
use crate::store::Store;
use append_core::only;
use column::OnlyFault;
use log_node::{Colours, Text};
use std::alloc::Global;
use std::sync::Wait;

impl Client {
    /// Appends the client's next node to one colour, only where nothing has come between: exactly where no entry is open there
    /// and the own line is as long as the client has played of it, which is then its position. Nothing is helped, and nothing
    /// is played. Waits for the column's turn.
    pub fn only<R: Wait>(
        &mut self,
        rt: &R,
        alloc: Global,
        store: &Store,
        colour: u8,
        text: Text,
    ) -> Result<Appended, OnlyFault>
        requires client { IsClient store.now self.old }
        requires colour { colour < store.now.size.colours }
        ensures client { RestsOn store.now self.old self.new }
        ensures plays { tracks_of self.new ≡ tracks_of self.old }
        ensures idle { Helps self.new → Helps self.old }
        ensures ok { IfOk result (λ a. IsExplained store.now self.old self.new (OnlyAs colour text a)) }
        ensures point { IfOk result (IsNextPoint self.old colour) }
        ensures err { IfErr result (OnlyRefused store.now self.old self.new colour text) }
    {
        let region = store.region(self.region);
        let Ok(node) = self.next_node(alloc, Colours::of(&[colour]), text, None) else {
            return Err(OnlyFault::NoMemory);
        };
        let id = node.id;
        let hold = &mut self.holds[self.region as usize];
        match only(rt, alloc, region, hold, colour, &node) {
            Ok(stood) => {
                self.count += 1;
                self.floor = stood.key.stamp.max(self.floor);
                Ok(Appended {
                    id,
                    row: None,
                    stood,
                })
            }
            Err(fault) => Err(fault),
        }
    }
}
