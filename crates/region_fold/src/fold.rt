// An object over a client, and what of it is folded.
ghost use Rattle.std.specs.Prelude.{◌≡◌, [], ℕ, List, None};
ghost use Rattle.log_client.specs.declared.client.Client.{Client};
ghost use Rattle.region_fold.specs.Reads.{KeepsFold};

use object_fold::{KeptFold, NodeFold};
use std::alloc::Global;

/// An object over a client, folded in the order of its region: the object after the first nodes that stamped reads had, and the
/// key of the last of these.
///
/// It is kept beside one client, with which all calls are made. Calls of one fold are given the same colours.
#[derive(Drop)]
pub struct RegionFold<F> {
    pub(crate) kept: KeptFold<F>,
}

impl<F> RegionFold<F> {
    /// The object after what was folded.
    pub fn state(&self) -> &F
        ensures { result.now ≡ self.now.kept.state }
    {
        &self.kept.state
    }
}

impl<F: NodeFold> RegionFold<F> {
    /// The fold of no node. Takes no memory.
    pub fn open(alloc: Global) -> RegionFold<F>
        ensures state { F.Holds result.kept.state [] }
        ensures last { result.kept.last ≡ None }
        ensures kept { (client : Client) (colours : List ℕ)
            → KeepsFold F.Holds client colours result.kept }
    {
        RegionFold {
            kept: KeptFold::open(alloc),
        }
    }
}
