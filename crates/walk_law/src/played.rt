// The greatest stamp of the nodes that a sync played.
ghost use Rattle.std.specs.Prelude.{◌≡◌, ◌≤◌, ◌<◌, length, map, take, drop};
ghost use Rattle.log_node.specs.declared.ids.Key.{Key as NodeKey};
ghost use Rattle.log_node.specs.Outcomes.{greatest};
ghost use Rattle.col_core.specs.Cuts.{chain, held as held_of};
ghost use Rattle.col_core.specs.Computed.{dated};
ghost use Rattle.col_core.specs.History.{line};
ghost use Rattle.col_core.specs.Legal.{IsColumnHistory};
ghost use Rattle.col_core.specs.Log.{first};
ghost use Rattle.col_core.specs.PlayOrder.{greatest_between};
ghost use Rattle.walk_law.specs.Behind.{StampsRise, greatest_of};
ghost use Rattle.walk_law.specs.Walking.{journal_walked, log_walked};

use crate::subject::Subject;
use log_node::{Counts, Key};
use report_text::SyncPiece;

// The greatest stamp in a stretch of keys whose stamps do not fall; 0 where there are none.
fn last_stamp(keys: &[Key], from: u64, to: u64) -> u64
    requires rises { StampsRise keys.now }
    requires within { to ≤ length keys.now }
    ensures { result ≡ greatest (map (λ (k : NodeKey). k.stamp) (drop from (take to keys.now))) }
{
    if from < to {
        keys[to as usize - 1].stamp
    } else {
        0
    }
}

impl Subject<'_> {
    // The line of a column after all events.
    fn line(&self, region: u8, colour: u8) -> &[Key]
        requires region { region < self.now.script.shape.regions }
        requires colour { colour < self.now.script.shape.colours }
        ensures line { result.now ≡ line (journal_walked self.now region colour) }
        ensures rises { StampsRise result.now }
    {
        let track = self.track(region, colour);
        track.agrees();
        track.line()
    }

    // How many nodes of each region a column held after so many events, or after all where there are fewer.
    fn held(&self, region: u8, colour: u8, events: u64) -> Counts
        requires region { region < self.now.script.shape.regions }
        requires colour { colour < self.now.script.shape.colours }
        ensures held { result ≡ held_of region (first (log_walked self.now) region colour events) }
        ensures lawful { IsColumnHistory region self.now.script.shape.regions
            (dated region (journal_walked self.now region colour)) }
    {
        let all = self.journal(region, colour).len() as u64;
        let track = self.track(region, colour);
        track.agrees();
        track.mark(events.min(all)).held
    }

    // The greatest stamp of a region's nodes that a sync of a column played, from the snapshot of the sync before; the column
    // held so many nodes then.
    fn greatest_of(&self, own: u8, region: u8, held: Counts, start: Counts, sync: SyncPiece) -> u64
        requires own { own < self.now.script.shape.regions }
        requires region { region < self.now.script.shape.regions }
        requires colour { sync.colour < self.now.script.shape.colours }
        requires held { held ≡ held_of own (first (log_walked self.now) own sync.colour sync.events) }
        requires lawful { IsColumnHistory own self.now.script.shape.regions
            (dated own (journal_walked self.now own sync.colour)) }
        ensures { result ≡ greatest_of self.now own sync.colour sync.events start sync.counts region }
    {
        self.agrees();
        let to = sync.counts.least(held).of_region(region);
        last_stamp(self.line(region, sync.colour), start.of_region(region), to)
    }

    /// The greatest stamp of the nodes that a sync of a region's column played, from the snapshot of the sync before.
    pub(crate) fn greatest_played(&self, own: u8, start: Counts, sync: SyncPiece) -> u64
        ensures { result ≡ greatest_between (chain own (first (log_walked self.now) own sync.colour sync.events)) start sync.counts }
    {
        self.agrees();
        if !self.has_column(own, sync.colour) {
            return 0;
        }
        let held = self.held(own, sync.colour, sync.events);
        let mut greatest = 0;
        for region in 0..self.script().shape.regions {
            greatest = greatest.max(self.greatest_of(own, region, held, start, sync));
        }
        greatest
    }
}
