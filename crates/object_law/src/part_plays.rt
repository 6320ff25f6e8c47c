// Parts of transactional maps that are played from answer to answer.
ghost use Rattle.std.specs.Prelude.{◌≡◌, ◌<◌, List, OnOk};
ghost use Rattle.log_node.specs.declared.node.Node.{Node as Appended};
ghost use Rattle.part_fold.specs.PartStates.{IsPart};
ghost use Rattle.column_track.specs.Tracks.{Tells};
ghost use Rattle.object_law.specs.PartAnswers.{IsPartPlay, IsPlaceOf};
ghost use Rattle.object_law.specs.Tenth.{line_nodes};

use crate::line_play::LinePlay;
use crate::node_table::NodeTable;
use part_fold::PartFold;
use std::alloc::{AllocError, Global};
use walk_law::Subject;

/// The shard of a colour in a region: its place among the colours of its object, and how many these are.
#[derive(Clone, Copy, PartialEq, Eq)]
pub(crate) struct Shard {
    pub(crate) region: u8,
    pub(crate) colour: u8,
    pub(crate) place: u8,
    pub(crate) colours: u8,
}

/// The part of a shard, over the own line of its colour.
#[derive(Drop)]
pub(crate) struct PartPlay {
    shard: Shard,
    play: LinePlay<PartFold>,
}

/// The first place of a colour among those of an object.
pub(crate) fn place_of(own: &[u8], colour: u8) -> Option<usize>
    ensures { IsPlaceOf own.now colour result }
{
    own.iter().position(|other| *other == colour)
}

impl PartPlay {
    /// Before any node.
    pub(crate) fn open(alloc: Global, subject: &Subject<'_>, shard: Shard) -> PartPlay
        requires { shard.place < shard.colours }
        ensures holds { (table : List (List Appended)) → IsPartPlay subject.now table result }
        ensures shard { result.shard ≡ shard }
    {
        let _subject = subject;
        PartPlay {
            shard,
            play: LinePlay::of(PartFold::open(alloc, shard.place, shard.colours)),
        }
    }

    /// Whether it is that of this shard.
    pub(crate) fn is_of(&self, shard: Shard) -> bool
        ensures { Tells result (self.now.shard ≡ shard) }
    {
        self.shard == shard
    }

    /// The part.
    pub(crate) fn part(&self) -> &PartFold
        ensures { result.now ≡ self.now.play.fold }
    {
        &self.play.fold
    }

    /// Goes to so many nodes of the line.
    pub(crate) fn go_to(
        &mut self,
        alloc: Global,
        subject: &Subject<'_>,
        nodes: &NodeTable,
        count: u64,
    ) -> Result<(), AllocError>
        requires holds { IsPartPlay subject.now nodes.now self.old }
        requires region { self.old.shard.region < subject.now.script.shape.regions }
        requires colour { self.old.shard.colour < subject.now.script.shape.colours }
        requires place { self.old.shard.place < self.old.shard.colours }
        ensures part { OnOk result (IsPart self.new.play.fold
            (line_nodes subject.now nodes.now self.old.shard.region self.old.shard.colour count)) }
        ensures holds { OnOk result (IsPartPlay subject.now nodes.now self.new) }
        ensures shard { self.new.shard ≡ self.old.shard }
    {
        let line = subject.track(self.shard.region, self.shard.colour).line();
        let place = (count as usize).min(line.len());
        let fresh = PartFold::open(alloc, self.shard.place, self.shard.colours);
        self.play.go_to(alloc, nodes, line, place, fresh)?;
        Ok(())
    }
}
