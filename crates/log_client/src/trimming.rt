// Trims.
ghost use Rattle.std.specs.Prelude.{◌<◌, IfOk, IfErr, OnOk};
ghost use Rattle.log_client.specs.Fits.{HaveGoneOn};
ghost use Rattle.log_client.specs.Clients.{IsClient, Finished, Helps, holds_of};
ghost use Rattle.log_client.specs.Growing.{HasGrown};
ghost use Rattle.log_client.specs.Calls.{IsExplained, IsSame, IsOfColumn, TrimsAs, TrimRefused};

use crate::client::Client;
use crate::faults::TrimFault;
use crate::store::Store;
use log_node::{At, Counts};
use playback::Snapshot;
use std::sync::Wait;

impl Client {
    /// Drops nodes of the colour below the snapshot's counts that every other region has asked past, and answers the base.
    /// The snapshot is one of the client's region and the colour. Waits for the column's turn.
    #[tactic(auto, using(crate::proofs::Going::Growing::grown_same))]
    pub fn trim<R: Wait>(
        &mut self,
        rt: &R,
        store: &Store,
        colour: u8,
        snapshot: &Snapshot,
    ) -> Result<(At, Counts), TrimFault>
        requires client { IsClient store.now self.old }
        requires colour { colour < store.now.size.colours }
        ensures client { IsClient store.now self.new }
        ensures same { IsSame self.old self.new }
        ensures goes { HaveGoneOn (holds_of self.old) (holds_of self.new) }
        ensures grows { HasGrown self.old self.new }
        ensures finished { Finished self.old → Finished self.new }
        ensures idle { Helps self.new → Helps self.old }
        ensures column { OnOk result (IsOfColumn self.old colour snapshot.now) }
        ensures ok { IfOk result (λ r.
            IsExplained store.now self.old self.new (TrimsAs colour snapshot.now.counts r.0 r.1)) }
        ensures err { IfErr result (TrimRefused store.now self.old self.new colour snapshot.now) }
    {
        if snapshot.region != self.region || snapshot.colour != colour {
            return Err(TrimFault::OtherColumn {
                region: snapshot.region,
                colour: snapshot.colour,
            });
        }
        let region = store.region(self.region);
        let hold = &mut self.holds[self.region as usize];
        match region.trim(rt, hold, colour, snapshot.counts) {
            Ok(answer) => Ok(answer),
            Err(_) => Err(TrimFault::NoMemory),
        }
    }
}
