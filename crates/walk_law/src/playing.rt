// The order in which a sync plays nodes.
ghost use Rattle.std.specs.Prelude.{◌≡◌, ◌<◌, ◌∷◌, ℕ, List, length, slice_get, true, IfSome, ◌+◌, ◌^◌};
ghost use Rattle.std.specs.List.{AllZip};
ghost use Rattle.log_node.specs.declared.node.Node.{Node};
ghost use Rattle.log_node.specs.Vectors.{IsWithin, all_regions, at, one_more};
ghost use Rattle.col_core.specs.Keeping.{Kept};
ghost use Rattle.lawful_run.specs.Callers.{caller_of};
ghost use Rattle.column_track.specs.Tracks.{Tells};
ghost use Rattle.playback.specs.Orders.{play_order};
ghost use Rattle.col_core.specs.PlayOrder.{goes_first};
ghost use Rattle.run_rules.specs.Telling.{log_of, replies_to};
ghost use Rattle.run_rules.specs.Shown.{SyncsAsTold};
ghost use Rattle.walk_law.specs.Keepings.{IsCounted};
ghost use Rattle.walk_law.specs.Ninth.{PlaysShown, ShowsPlace};
ghost use Rattle.walk_law.specs.Playing.{IsNextOf, free_head, lines_of};

use crate::copies::head_at;
use crate::keeping::Keeping;
use crate::subject::Subject;
use col_core::play_order_is_unique;
use log_node::{Counts, Head, Item};
use playback::play_order_is_lawful;
use report_text::SyncPiece;

// A region whose next node is played next, and that node's head.
#[derive(Clone, Copy)]
struct Next {
    region: u8,
    head: Head,
}

// Whether of two next nodes the one goes first.
fn is_before(one: Next, other: Next) -> bool
    ensures { result ≡ goes_first one.head (record { region = one.region; position = 0 }) other.head
        (record { region = other.region; position = 0 }) }
{
    one.head.key.is_below(other.head.key)
        || (one.head.key.is_same(other.head.key) && one.region < other.region)
}

// The counts with one more node of a region, which has one more to be played.
fn one_more(played: Counts, region: u8, to: Counts) -> Counts
    requires region { region < 4 }
    requires room { at played region < at to region }
    ensures { result ≡ one_more played region }
{
    let _last = to.of_region(region);
    played.one_more(region)
}

impl Subject<'_> {
    // The head at a position of a region's own line of a colour.
    fn head(&self, region: u8, colour: u8, position: u64) -> Option<Head>
        ensures head { result ≡ slice_get (lines_of self.now colour region) position }
        ensures within { IfSome result (λ h. position + 1 < 2 ^ 64) }
    {
        if !self.has_column(region, colour) {
            return None;
        }
        let journal = self.journal(region, colour);
        head_at(journal, self.track(region, colour), position as usize)
    }

    /// The next node of a region's chain, where it is to be played and its needs are played.
    pub fn free_head(&self, colour: u8, played: Counts, to: Counts, region: u8) -> Option<Head>
        requires { region < 4 }
        ensures { result ≡ free_head (lines_of self.now colour) played to region }
    {
        let position = played.of_region(region);
        if position >= to.of_region(region) {
            return None;
        }
        let head = self.head(region, colour, position)?;
        if head.needs.is_within(played) {
            Some(head)
        } else {
            None
        }
    }

    // The one that is played next of one more region and of those before.
    fn with_region(
        &self,
        colour: u8,
        played: Counts,
        to: Counts,
        region: u8,
        next: Option<Next>,
    ) -> Option<Next>
        requires { region < 4 }
        ensures { (regions : List ℕ) → IsNextOf (lines_of self.now colour) played to regions next
            → IsNextOf (lines_of self.now colour) played to (region ∷ regions) result }
    {
        let Some(head) = self.free_head(colour, played, to, region) else {
            return next;
        };
        let one = Next { region, head };
        match next {
            Some(other) => {
                if is_before(other, one) {
                    Some(other)
                } else {
                    Some(one)
                }
            }
            None => Some(one),
        }
    }

    // The node that is played next, where so many of each chain are played.
    fn next(&self, colour: u8, played: Counts, to: Counts) -> Option<Next>
        ensures { IsNextOf (lines_of self.now colour) played to all_regions result }
    {
        let last = self.with_region(colour, played, to, 3, None);
        let third = self.with_region(colour, played, to, 2, last);
        let second = self.with_region(colour, played, to, 1, third);
        self.with_region(colour, played, to, 0, second)
    }

    // Whether node lines show the keys of a colour's nodes from one vector to another, in the order of play.
    fn plays_keys(&self, colour: u8, from: Counts, to: Counts, nodes: &[Item]) -> bool
        requires { IsWithin from to }
        ensures { Tells result (AllZip (ShowsPlace (lines_of self.now colour)) (play_order (lines_of self.now colour) from to)
            nodes.now) }
    {
        let mut played = from;
        for item in nodes {
            let Some(next) = self.next(colour, played, to) else {
                return false;
            };
            if !next.head.key.is_same(item.head.key) {
                return false;
            }
            played = one_more(played, next.region, to);
        }
        self.next(colour, played, to).is_none()
    }
}

impl Keeping {
    // Whether node lines show the keys of the nodes that a sync played, in the order of play.
    pub(crate) fn plays(
        &self,
        subject: &Subject<'_>,
        client: u8,
        sync: SyncPiece,
        nodes: &[Item],
    ) -> bool
        requires { client < length subject.now.report.clients }
        ensures { (told : ℕ → List Node) (kept : Kept) → sync.colour < subject.now.script.shape.colours
            → IsCounted (replies_to subject.now.report client) kept self.now
            → SyncsAsTold (log_of subject.now.report told) (caller_of subject.now.script client) kept sync → Tells result
            (PlaysShown (log_of subject.now.report told) (caller_of subject.now.script client) kept sync.colour sync.events
            sync.counts nodes.now) }
    {
        play_order_is_unique();
        play_order_is_lawful();
        subject.agrees();
        let own = subject.own(client);
        if !subject.is_in_shape(own, sync.colour) {
            return false;
        }
        subject.track(own, sync.colour).agrees();
        let from = self.start(sync.colour).least(sync.counts);
        subject.plays_keys(sync.colour, from, sync.counts, nodes)
    }
}
