// The cut: the greatest vector that can be reached, by adding the nodes whose needs are covered one at a time. Cuts are
// this project's own; needs are the cross-edges of Lockerman et al., "The FuzzyLog" (OSDI 2018).
ghost use Rattle.std.specs.Prelude.{◌≡◌, ◌+◌, ◌<◌, ◌≤◌, ◌^◌, IsTrue, MatchOption, slice_get};
ghost use Rattle.log_node.specs.Vectors.{at, IsWithin};
ghost use Rattle.log_node.specs.Reach.{Reachable, IsGreatestReachable, is_covered, IsStuck};
ghost use Rattle.snapshot_cut.specs.Stuck.{IsFree};

use crate::needs_view::NeedsView;
use log_node::Counts;

// Whether the next node of a region's chain needs no more than the vector.
fn is_free<V: NeedsView>(view: &V, v: Counts, region: u8) -> bool
    requires region { region < 4 }
    requires base { at (V.bases view.now) region ≤ at v region }
    ensures value { result ≡ is_covered v (slice_get (V.chains view.now region) (at v region)) }
    ensures room { IsTrue result → at v region + 1 < 2 ^ 64 }
{
    let position = v.of_region(region);
    position < view.count(region) && view.needs(region, position).is_within(v)
}

// The first region whose next node can be added.
fn free_region<V: NeedsView>(view: &V, v: Counts) -> Option<u8>
    requires { IsWithin (V.bases view.now) v }
    ensures { MatchOption result (IsStuck (V.chains view.now) v) (IsFree (V.chains view.now) v) }
{
    for region in 0..4 {
        if is_free(view, v, region) {
            return Some(region);
        }
    }
    None
}

/// The greatest vector that can be reached, where `from` can be reached and counts at least the nodes whose needs are
/// not told. Takes no memory. Each node that is added costs a few reads.
pub fn admit<V: NeedsView>(view: &V, from: Counts) -> Counts
    requires reached { Reachable (V.chains view.now) from }
    requires base { IsWithin (V.bases view.now) from }
    ensures { IsGreatestReachable (V.chains view.now) result }
{
    let mut cut = from;
    while let Some(region) = free_region(view, cut) {
        cut = cut.one_more(region);
    }
    cut
}
