// What becomes of the transactions among the nodes of some colours of a region.
ghost use Rattle.std.specs.Prelude.{◌≡◌, ◌<◌, List, Some, IfOk, OnOk};
ghost use Rattle.std.specs.List.{All};
ghost use Rattle.std.specs.Option.{option_copied};
ghost use Rattle.log_node.specs.declared.node.Node.{Node as Appended};
ghost use Rattle.object_fold.specs.Transactions.{verdict_of};
ghost use Rattle.column_track.specs.Tracks.{Tells};
ghost use Rattle.lawful_run.specs.Explains.{ShowsVerdict};
ghost use Rattle.lawful_run.specs.Objects.{shown_verdict};
ghost use Rattle.object_law.specs.AnswerPlays.{AreTxRulings, IsRulingAt, IsTxRuling};
ghost use Rattle.object_law.specs.ObjectAnswers.{IsKeyOrder};
ghost use Rattle.object_law.specs.Tenth.{stamped_nodes};

use crate::key_order::KeyOrder;
use crate::node_table::NodeTable;
use crate::order_ids::OrderId;
use crate::told_nodes::{place_of, tell_each};
use log_node::{Key, Text};
use object_fold::{TxState, Verdict};
use playback::region_order_is_lawful;
use std::alloc::{AllocError, Global};
use std::collections::BTreeMap;
use walk_law::{Subject, copied, same_text};

/// The nodes of some colours of a region, in its order, with what becomes of each.
#[derive(Drop)]
pub(crate) struct TxRuling {
    order: KeyOrder,
    told: Vec<Option<Verdict>>,
}

// Whether a verdict is the one that is shown.
fn is_shown(verdict: &Verdict, conflict: &Option<Text>, stamp: u64) -> bool
    ensures { Tells result (verdict.now ≡ shown_verdict conflict.now stamp) }
{
    match conflict {
        Some(key) => match verdict {
            Verdict::Conflict {
                key: other,
                stamp: at,
            } => same_text(other, key) && *at == stamp,
            Verdict::Committed { stamp: _at } => false,
        },
        None => match verdict {
            Verdict::Committed { stamp: at } => *at == stamp,
            Verdict::Conflict {
                key: _key,
                stamp: _at,
            } => false,
        },
    }
}

// Whether there is a verdict and it is the one that is shown.
fn is_found(verdict: Option<&Verdict>, conflict: &Option<Text>, stamp: u64) -> bool
    ensures { Tells result (option_copied verdict.entry ≡ Some (shown_verdict conflict.now stamp)) }
{
    match verdict {
        Some(verdict) => is_shown(verdict, conflict, stamp),
        None => false,
    }
}

impl TxRuling {
    /// By the nodes of a table.
    pub(crate) fn open(
        alloc: Global,
        subject: &Subject<'_>,
        nodes: &NodeTable,
        order: KeyOrder,
    ) -> Result<TxRuling, AllocError>
        requires { IsKeyOrder subject.now order }
        ensures holds { IfOk result (IsTxRuling subject.now nodes.now) }
        ensures order { IfOk result (λ p. p.order ≡ order) }
    {
        region_order_is_lawful();
        subject.agrees();
        let told = tell_each::<TxState>(alloc, nodes, order.keys())?;
        Ok(TxRuling { order, told })
    }

    /// Whether it is that of this region and these colours.
    pub(crate) fn is_of(&self, region: u8, colours: &[u8]) -> bool
        ensures { Tells result ((self.now.order.region ≡ region) × (self.now.order.colours ≡ colours.now)) }
    {
        self.order.is_of(region, colours)
    }

    // The verdict on the transaction with a key among the nodes up to a stamp.
    fn verdict(
        &self,
        subject: &Subject<'_>,
        nodes: &NodeTable,
        stamp: u64,
        own: Key,
    ) -> Option<&Verdict>
        requires { IsTxRuling subject.now nodes.now self.now }
        ensures { option_copied result
            ≡ verdict_of (stamped_nodes subject.now nodes.now self.now.order.region self.now.order.colours stamp) own }
    {
        let _nodes = nodes;
        region_order_is_lawful();
        subject.agrees();
        let count = self.order.count(subject, stamp);
        match place_of(self.order.keys(), own) {
            Some(place) => {
                if place < count {
                    self.told[place].as_ref()
                } else {
                    None
                }
            }
            None => None,
        }
    }

    /// Whether the nodes up to a stamp have this verdict on the own one.
    pub(crate) fn shows_verdict(
        &self,
        subject: &Subject<'_>,
        nodes: &NodeTable,
        read_stamp: u64,
        own: Key,
        conflict: &Option<Text>,
        stamp: u64,
    ) -> bool
        requires { IsTxRuling subject.now nodes.now self.now }
        ensures { Tells result (ShowsVerdict conflict.now stamp own
            (stamped_nodes subject.now nodes.now self.now.order.region self.now.order.colours read_stamp)) }
    {
        is_found(
            self.verdict(subject, nodes, read_stamp, own),
            conflict,
            stamp,
        )
    }
}

/// What becomes of the transactions of all colours of regions that commits asked for so far. The table says at which place each stands;
/// what stands there says itself what it is of.
#[derive(Drop)]
pub(crate) struct TxRulings {
    rulings: Vec<TxRuling>,
    places: BTreeMap<OrderId, usize>,
}

impl TxRulings {
    /// None yet.
    pub(crate) fn new(alloc: Global, subject: &Subject<'_>) -> TxRulings
        ensures { (table : List (List Appended)) → AreTxRulings subject.now table result }
    {
        let _subject = subject;
        TxRulings {
            rulings: Vec::new(alloc),
            places: BTreeMap::new(alloc),
        }
    }

    // Whether that of these colours of a region stands at a place.
    fn is_at(&self, place: usize, region: u8, colours: &[u8]) -> bool
        ensures { Tells result (IsRulingAt self.now region colours.now place) }
    {
        match self.rulings.get(place) {
            Some(ruling) => ruling.is_of(region, colours),
            None => false,
        }
    }

    // One more, and its place.
    fn add(
        &mut self,
        alloc: Global,
        subject: &Subject<'_>,
        nodes: &NodeTable,
        region: u8,
        colours: &[u8],
    ) -> Result<usize, AllocError>
        requires rulings { AreTxRulings subject.now nodes.now self.old }
        requires region { region < subject.now.script.shape.regions }
        requires colours { All (λ colour. colour < subject.now.script.shape.colours) colours.now }
        ensures at { IfOk result (IsRulingAt self.new region colours.now) }
        ensures rulings { OnOk result (AreTxRulings subject.now nodes.now self.new) }
    {
        let place = self.rulings.len();
        let order = KeyOrder::of(alloc, subject, region, copied(alloc, colours)?)?;
        self.rulings
            .push(TxRuling::open(alloc, subject, nodes, order)?)?;
        self.places.insert(OrderId::of(region, colours), place)?;
        Ok(place)
    }

    // The place of that of these colours of a region.
    fn place(
        &mut self,
        alloc: Global,
        subject: &Subject<'_>,
        nodes: &NodeTable,
        region: u8,
        colours: &[u8],
    ) -> Result<usize, AllocError>
        requires rulings { AreTxRulings subject.now nodes.now self.old }
        requires region { region < subject.now.script.shape.regions }
        requires colours { All (λ colour. colour < subject.now.script.shape.colours) colours.now }
        ensures at { IfOk result (IsRulingAt self.new region colours.now) }
        ensures rulings { OnOk result (AreTxRulings subject.now nodes.now self.new) }
    {
        match self.places.get(&OrderId::of(region, colours)).copied() {
            Some(place) => {
                if self.is_at(place, region, colours) {
                    Ok(place)
                } else {
                    self.add(alloc, subject, nodes, region, colours)
                }
            }
            None => self.add(alloc, subject, nodes, region, colours),
        }
    }

    /// Whether the nodes of some colours of a region up to a stamp have this verdict on the own one.
    pub(crate) fn shows_verdict(
        &mut self,
        alloc: Global,
        subject: &Subject<'_>,
        nodes: &NodeTable,
        region: u8,
        colours: &[u8],
        read_stamp: u64,
        own: Key,
        conflict: &Option<Text>,
        stamp: u64,
    ) -> Result<bool, AllocError>
        requires rulings { AreTxRulings subject.now nodes.now self.old }
        requires region { region < subject.now.script.shape.regions }
        requires colours { All (λ colour. colour < subject.now.script.shape.colours) colours.now }
        ensures told { IfOk result (λ b. Tells b (ShowsVerdict conflict.now stamp own
            (stamped_nodes subject.now nodes.now region colours.now read_stamp))) }
        ensures rulings { OnOk result (AreTxRulings subject.now nodes.now self.new) }
    {
        let place = self.place(alloc, subject, nodes, region, colours)?;
        Ok(self.rulings[place].shows_verdict(subject, nodes, read_stamp, own, conflict, stamp))
    }
}
