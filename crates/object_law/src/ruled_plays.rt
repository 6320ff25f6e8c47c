// Transactional maps with what became of their transactions, played from decision to decision.
ghost use Rattle.std.specs.Prelude.{◌≡◌, List, IfOk, OnOk};
ghost use Rattle.log_node.specs.declared.node.Node.{Node as Appended};
ghost use Rattle.object_fold.specs.Transactions.{verdict_of};
ghost use Rattle.part_fold.specs.Agreement.{outcome};
ghost use Rattle.column_track.specs.Tracks.{Tells};
ghost use Rattle.object_law.specs.ObjectAnswers.{IsKeyOrder};
ghost use Rattle.object_law.specs.PartAnswers.{IsRuledPlay};
ghost use Rattle.object_law.specs.Tenth.{stamped_nodes};

use crate::key_order::KeyOrder;
use crate::node_table::NodeTable;
use crate::region_play::RegionPlay;
use log_node::Key;
use part_fold::RuledFold;
use playback::region_order_is_lawful;
use std::alloc::{AllocError, Global};
use walk_law::Subject;

/// What became of the transactions among the nodes of some colours of a region, in its order.
#[derive(Drop)]
pub(crate) struct RuledPlay {
    order: KeyOrder,
    play: RegionPlay<RuledFold>,
}

impl RuledPlay {
    /// Before any node.
    pub(crate) fn new(alloc: Global, subject: &Subject<'_>, order: KeyOrder) -> RuledPlay
        requires { IsKeyOrder subject.now order }
        ensures holds { (table : List (List Appended)) → IsRuledPlay subject.now table result }
        ensures order { result.order ≡ order }
    {
        let _subject = subject;
        RuledPlay {
            order,
            play: RegionPlay::new(alloc),
        }
    }

    /// Whether it is that of this region and these colours.
    pub(crate) fn is_of(&self, region: u8, colours: &[u8]) -> bool
        ensures { Tells result ((self.now.order.region ≡ region) × (self.now.order.colours ≡ colours.now)) }
    {
        self.order.is_of(region, colours)
    }

    /// Whether the transaction with this key commits among the nodes up to a stamp; none where there is none.
    pub(crate) fn outcome(
        &mut self,
        alloc: Global,
        subject: &Subject<'_>,
        nodes: &NodeTable,
        stamp: u64,
        key: Key,
    ) -> Result<Option<bool>, AllocError>
        requires { IsRuledPlay subject.now nodes.now self.old }
        ensures told { IfOk result (λ o. o ≡ outcome (verdict_of
            (stamped_nodes subject.now nodes.now self.old.order.region self.old.order.colours stamp) key)) }
        ensures holds { OnOk result (IsRuledPlay subject.now nodes.now self.new) }
        ensures order { self.new.order ≡ self.old.order }
    {
        region_order_is_lawful();
        subject.agrees();
        let place = self.order.count(subject, stamp);
        self.play.go_to(alloc, nodes, self.order.keys(), place)?;
        Ok(self.play.fold.outcome(key))
    }
}
