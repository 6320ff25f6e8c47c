// Pulls.
ghost use Rattle.std.specs.Prelude.{◌≡◌, ◌≢◌, ◌<◌, ◌↔◌, Err, IfOk, IfErr, length, slice_get, Some};
ghost use Rattle.chain_store.specs.declared.hold.Hold.{Hold};
ghost use Rattle.chain_store.specs.Holds.{IsHold};
ghost use Rattle.region_pull.specs.Stores.{AreOfOneStore};
ghost use Rattle.log_client.specs.Fits.{HaveGoneOn};
ghost use Rattle.log_client.specs.Clients.{IsClient, Finished, Helps, holds_of};
ghost use Rattle.log_client.specs.Growing.{HasGrown};
ghost use Rattle.log_client.specs.Between.{PullsBetween, LeavesBetween};
ghost use Rattle.log_client.specs.Calls.{IsExplained, IsSame, PullsAs, PullRefused};

use crate::client::Client;
use crate::store::Store;
use chain_store::{Hold, Region};
use region_pull::{PullFault, Pulled, pull};
use std::sync::Wait;

// Pulls from the one region to the other, of the holds by region.
fn pull_between<R: Wait>(
    rt: &R,
    from: &Region,
    to: &Region,
    holds: &mut Vec<Hold>,
    colour: u8,
) -> Result<Pulled, PullFault>
    requires store { AreOfOneStore from.now to.now colour }
    requires apart { from.now.number ≢ to.now.number }
    requires within { (from.now.number < length holds.old.items) × (to.now.number < length holds.old.items) }
    requires from_hold { (h : Hold) × (slice_get holds.old.items from.now.number ≡ Some h) × IsHold from.now h }
    requires to_hold { (h : Hold) × (slice_get holds.old.items to.now.number ≡ Some h) × IsHold to.now h }
    ensures ok { IfOk result (PullsBetween from.now to.now colour holds.old.items holds.new.items) }
    ensures err { IfErr result (LeavesBetween from.now to.now colour holds.old.items holds.new.items) }
{
    let far = from.number() as usize;
    let own = to.number() as usize;
    if far < own {
        let (low, high) = holds.split_at_mut(own);
        pull(rt, from, to, &mut low[far], &mut high[0], colour)
    } else {
        let (low, high) = holds.split_at_mut(far);
        pull(rt, from, to, &mut high[0], &mut low[own], colour)
    }
}

impl Client {
    /// Brings what is new of another region's line of the colour into the column of the client's region. Each step waits
    /// for one turn.
    #[tactic(auto, using(crate::proofs::Going::Growing::grown_same))]
    pub fn pull<R: Wait>(
        &mut self,
        rt: &R,
        store: &Store,
        from: u8,
        colour: u8,
    ) -> Result<Pulled, PullFault>
        requires client { IsClient store.now self.old }
        requires from { from < length store.now.regions }
        requires colour { colour < store.now.size.colours }
        ensures client { IsClient store.now self.new }
        ensures same { IsSame self.old self.new }
        ensures goes { HaveGoneOn (holds_of self.old) (holds_of self.new) }
        ensures grows { HasGrown self.old self.new }
        ensures finished { Finished self.old → Finished self.new }
        ensures idle { Helps self.new → Helps self.old }
        ensures ok { IfOk result (λ p. IsExplained store.now self.old self.new (PullsAs from colour p)) }
        ensures same_region { (result ≡ Err PullFault.SameRegion) ↔ (from ≡ self.old.region) }
        ensures err { IfErr result (PullRefused store.now self.old self.new from colour) }
    {
        if from == self.region {
            return Err(PullFault::SameRegion);
        }
        let other = store.region(from);
        let own = store.region(self.region);
        pull_between(rt, other, own, &mut self.holds, colour)
    }
}
