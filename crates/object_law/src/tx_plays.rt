// Transactional maps that are played from read to read.
ghost use Rattle.std.specs.Prelude.{◌≡◌, ◌<◌, ◌≤◌, ℕ, List, length, take, IfOk, OnOk};
ghost use Rattle.std.specs.List.{All};
ghost use Rattle.std.specs.Option.{option_copied};
ghost use Rattle.log_node.specs.declared.node.Node.{Node as Appended};
ghost use Rattle.object_fold.specs.Nodes.{ObjectNode};
ghost use Rattle.object_fold.specs.States.{IsTxState};
ghost use Rattle.object_fold.specs.Transactions.{values_after};
ghost use Rattle.column_track.specs.Tracks.{Tells};
ghost use Rattle.lawful_run.specs.Objects.{AreAnswers};
ghost use Rattle.object_law.specs.AnswerPlays.{AreTxPlays, IsTxAt};
ghost use Rattle.object_law.specs.ObjectAnswers.{IsKeyOrder, IsTxPlay};
ghost use Rattle.object_law.specs.Tenth.{stamped_nodes};

use crate::key_order::KeyOrder;
use crate::node_table::NodeTable;
use crate::order_ids::OrderId;
use crate::queue_plays::is_found;
use crate::region_play::RegionPlay;
use log_node::Text;
use object_fold::TxState;
use report_text::KeyAnswer;
use std::alloc::{AllocError, Global};
use std::collections::BTreeMap;
use walk_law::{Subject, copied, same_text};

/// The transactional map over the nodes of some colours of a region, in its order.
#[derive(Drop)]
pub(crate) struct TxPlay {
    order: KeyOrder,
    play: RegionPlay<TxState>,
}

/// Whether an answer is this key with the value that is found.
pub(crate) fn is_answer(answer: &KeyAnswer, key: &Text, found: Option<&Text>) -> bool
    ensures { Tells result ((answer.now.key ≡ key.now) × (answer.now.value ≡ option_copied found.entry)) }
{
    same_text(&answer.key, key) && is_found(&answer.value, found)
}

// Whether these are the keys that are asked for, each with its value.
fn are_values(state: &TxState, asked: &[Text], shown: &[KeyAnswer]) -> bool
    ensures { (nodes : List ObjectNode) → IsTxState state.now nodes
        → Tells result (AreAnswers asked.now (values_after nodes asked.now) shown.now) }
{
    if asked.len() != shown.len() {
        return false;
    }
    for at in 0..asked.len() {
        let key = &asked[at];
        if !is_answer(&shown[at], key, state.value(key.as_bytes())) {
            return false;
        }
    }
    true
}

impl TxPlay {
    /// Before any node.
    pub(crate) fn new(alloc: Global, subject: &Subject<'_>, order: KeyOrder) -> TxPlay
        requires { IsKeyOrder subject.now order }
        ensures holds { (table : List (List Appended)) → IsTxPlay subject.now table result }
        ensures order { result.order ≡ order }
    {
        let _subject = subject;
        TxPlay {
            order,
            play: RegionPlay::new(alloc),
        }
    }

    /// Whether it is that of this region and these colours.
    pub(crate) fn is_of(&self, region: u8, colours: &[u8]) -> bool
        ensures { Tells result ((self.now.order.region ≡ region) × (self.now.order.colours ≡ colours.now)) }
    {
        self.order.is_of(region, colours)
    }

    /// Whether these are the keys that are asked for, each with its value behind the nodes up to a stamp.
    pub(crate) fn are_values(
        &mut self,
        alloc: Global,
        subject: &Subject<'_>,
        nodes: &NodeTable,
        stamp: u64,
        asked: &[Text],
        shown: &[KeyAnswer],
    ) -> Result<bool, AllocError>
        requires { IsTxPlay subject.now nodes.now self.old }
        ensures told { IfOk result (λ b. Tells b (AreAnswers asked.now
            (values_after (stamped_nodes subject.now nodes.now self.old.order.region self.old.order.colours stamp) asked.now) shown.now)) }
        ensures holds { OnOk result (IsTxPlay subject.now nodes.now self.new) }
        ensures order { self.new.order ≡ self.old.order }
    {
        let place = self.order.count(subject, stamp);
        self.play.go_to(alloc, nodes, self.order.keys(), place)?;
        Ok(are_values(&self.play.fold, asked, shown))
    }
}

/// The transactional maps of all colours of regions that reads asked for so far. The table says at which place each stands; what
/// stands there says itself what it is of.
#[derive(Drop)]
pub(crate) struct TxPlays {
    plays: Vec<TxPlay>,
    places: BTreeMap<OrderId, usize>,
}

impl TxPlays {
    /// None yet.
    pub(crate) fn new(alloc: Global, subject: &Subject<'_>) -> TxPlays
        ensures { (table : List (List Appended)) → AreTxPlays subject.now table result }
    {
        let _subject = subject;
        TxPlays {
            plays: Vec::new(alloc),
            places: BTreeMap::new(alloc),
        }
    }

    // Whether the map of these colours of a region stands at a place.
    fn is_at(&self, place: usize, region: u8, colours: &[u8]) -> bool
        ensures { Tells result (IsTxAt self.now region colours.now place) }
    {
        match self.plays.get(place) {
            Some(play) => play.is_of(region, colours),
            None => false,
        }
    }

    // One more map, before any node, and its place.
    fn add(
        &mut self,
        alloc: Global,
        subject: &Subject<'_>,
        region: u8,
        colours: &[u8],
    ) -> Result<usize, AllocError>
        requires region { region < subject.now.script.shape.regions }
        requires colours { All (λ colour. colour < subject.now.script.shape.colours) colours.now }
        ensures at { IfOk result (IsTxAt self.new region colours.now) }
        ensures plays { (table : List (List Appended)) → AreTxPlays subject.now table self.old
            → OnOk result (AreTxPlays subject.now table self.new) }
    {
        let place = self.plays.len();
        let order = KeyOrder::of(alloc, subject, region, copied(alloc, colours)?)?;
        self.plays.push(TxPlay::new(alloc, subject, order))?;
        self.places.insert(OrderId::of(region, colours), place)?;
        Ok(place)
    }

    // The place of the map of these colours of a region.
    fn place(
        &mut self,
        alloc: Global,
        subject: &Subject<'_>,
        region: u8,
        colours: &[u8],
    ) -> Result<usize, AllocError>
        requires region { region < subject.now.script.shape.regions }
        requires colours { All (λ colour. colour < subject.now.script.shape.colours) colours.now }
        ensures at { IfOk result (IsTxAt self.new region colours.now) }
        ensures plays { (table : List (List Appended)) → AreTxPlays subject.now table self.old
            → OnOk result (AreTxPlays subject.now table self.new) }
    {
        match self.places.get(&OrderId::of(region, colours)).copied() {
            Some(place) => {
                if self.is_at(place, region, colours) {
                    Ok(place)
                } else {
                    self.add(alloc, subject, region, colours)
                }
            }
            None => self.add(alloc, subject, region, colours),
        }
    }

    /// Whether these are the keys that are asked for, each with its value behind the nodes of some colours of a region up to a stamp.
    pub(crate) fn are_values(
        &mut self,
        alloc: Global,
        subject: &Subject<'_>,
        nodes: &NodeTable,
        region: u8,
        colours: &[u8],
        stamp: u64,
        asked: &[Text],
        shown: &[KeyAnswer],
    ) -> Result<bool, AllocError>
        requires plays { AreTxPlays subject.now nodes.now self.old }
        requires region { region < subject.now.script.shape.regions }
        requires colours { All (λ colour. colour < subject.now.script.shape.colours) colours.now }
        ensures told { IfOk result (λ b. Tells b (AreAnswers asked.now
            (values_after (stamped_nodes subject.now nodes.now region colours.now stamp) asked.now) shown.now)) }
        ensures plays { OnOk result (AreTxPlays subject.now nodes.now self.new) }
    {
        let place = self.place(alloc, subject, region, colours)?;
        self.plays[place].are_values(alloc, subject, nodes, stamp, asked, shown)
    }
}
