// Several keys of maps that are played from read to read.
ghost use Rattle.std.specs.Prelude.{◌≡◌, ◌<◌, ◌≤◌, ℕ, List, length, take, IfOk, OnOk};
ghost use Rattle.std.specs.List.{All};
ghost use Rattle.log_node.specs.declared.node.Node.{Node as Appended};
ghost use Rattle.object_fold.specs.Maps.{values_among};
ghost use Rattle.object_fold.specs.Nodes.{ObjectNode};
ghost use Rattle.column_track.specs.Tracks.{Tells};
ghost use Rattle.lawful_run.specs.Objects.{AreAnswers};
ghost use Rattle.object_law.specs.AmongMaps.{IsAmongMap};
ghost use Rattle.walk_law.specs.Asking.{AreLow};
ghost use Rattle.object_law.specs.AnswerPlays.{AreSeveralPlays, IsSeveralAt};
ghost use Rattle.object_law.specs.ObjectAnswers.{IsKeyOrder, IsSeveralPlay, colours_used};
ghost use Rattle.object_law.specs.Tenth.{stamped_nodes};

use crate::among_map::AmongMap;
use crate::key_order::KeyOrder;
use crate::line_play::LinePlay;
use crate::node_table::NodeTable;
use crate::order_ids::OrderId;
use crate::shard_plays::colours_used;
use crate::tx_plays::is_answer;
use log_node::{ColourList, Text};
use report_text::KeyAnswer;
use std::alloc::{AllocError, Global};
use std::collections::BTreeMap;
use walk_law::{Subject, copied};

/// A map with these colours over the nodes of some of them in a region, in its order.
#[derive(Drop)]
pub(crate) struct SeveralPlay {
    own: ColourList,
    order: KeyOrder,
    play: LinePlay<AmongMap>,
}

// Whether these are the keys that are asked for, each with its value.
fn are_values(map: &AmongMap, asked: &[Text], shown: &[KeyAnswer]) -> bool
    requires { AreLow map.now.colours }
    ensures { (nodes : List ObjectNode) → IsAmongMap map.now nodes
        → Tells result (AreAnswers asked.now (values_among map.now.colours nodes asked.now) shown.now) }
{
    if asked.len() != shown.len() {
        return false;
    }
    for at in 0..asked.len() {
        let key = &asked[at];
        if !is_answer(&shown[at], key, map.get(key.as_bytes())) {
            return false;
        }
    }
    true
}

impl SeveralPlay {
    /// Before any node.
    pub(crate) fn new(
        alloc: Global,
        subject: &Subject<'_>,
        own: ColourList,
        order: KeyOrder,
    ) -> Result<SeveralPlay, AllocError>
        requires { IsKeyOrder subject.now order }
        ensures holds { (table : List (List Appended)) → IfOk result (IsSeveralPlay subject.now table) }
        ensures own { IfOk result (λ p. p.own ≡ own) }
        ensures order { IfOk result (λ p. p.order ≡ order) }
    {
        let _subject = subject;
        let colours = copied(alloc, own.as_slice())?;
        Ok(SeveralPlay {
            own,
            order,
            play: LinePlay::of(AmongMap::new(alloc, colours)),
        })
    }

    /// Whether it is that of a map with these own colours, over these colours of a region.
    pub(crate) fn is_of(&self, own: &[u8], region: u8, colours: &[u8]) -> bool
        ensures { Tells result ((self.now.own ≡ own.now) × (self.now.order.region ≡ region) × (self.now.order.colours ≡ colours.now)) }
    {
        self.own.as_slice() == own && self.order.is_of(region, colours)
    }

    /// Whether these are the keys that are asked for, each with its value behind the nodes up to a stamp.
    pub(crate) fn are_values(
        &mut self,
        alloc: Global,
        subject: &Subject<'_>,
        nodes: &NodeTable,
        stamp: u64,
        asked: &[Text],
        shown: &[KeyAnswer],
    ) -> Result<bool, AllocError>
        requires holds { IsSeveralPlay subject.now nodes.now self.old }
        requires low { AreLow self.old.own }
        ensures told { IfOk result (λ b. Tells b (AreAnswers asked.now (values_among self.old.own
            (stamped_nodes subject.now nodes.now self.old.order.region self.old.order.colours stamp) asked.now) shown.now)) }
        ensures holds { OnOk result (IsSeveralPlay subject.now nodes.now self.new) }
        ensures own { self.new.own ≡ self.old.own }
        ensures order { self.new.order ≡ self.old.order }
    {
        let place = self.order.count(subject, stamp);
        let fresh = AmongMap::new(alloc, copied(alloc, self.own.as_slice())?);
        self.play
            .go_to(alloc, nodes, self.order.keys(), place, fresh)?;
        Ok(are_values(&self.play.fold, asked, shown))
    }
}

// What several keys of an object are read of.
#[derive(Clone, Copy, Debug, PartialEq, Eq, PartialOrd, Ord)]
struct SeveralId {
    object: u8,
    order: OrderId,
}

/// The maps of all objects of which several keys were asked for so far, one for each list of colours that were read. The table says at
/// which place each stands; what stands there says itself what it is of.
#[derive(Drop)]
pub(crate) struct SeveralPlays {
    plays: Vec<SeveralPlay>,
    places: BTreeMap<SeveralId, usize>,
}

impl SeveralPlays {
    /// None yet.
    pub(crate) fn new(alloc: Global, subject: &Subject<'_>) -> SeveralPlays
        ensures { (table : List (List Appended)) → AreSeveralPlays subject.now table result }
    {
        let _subject = subject;
        SeveralPlays {
            plays: Vec::new(alloc),
            places: BTreeMap::new(alloc),
        }
    }

    // Whether the map of an object over these colours of a region stands at a place.
    fn is_at(&self, place: usize, own: &[u8], region: u8, colours: &[u8]) -> bool
        ensures { Tells result (IsSeveralAt self.now own.now region colours.now place) }
    {
        match self.plays.get(place) {
            Some(play) => play.is_of(own, region, colours),
            None => false,
        }
    }

    // One more map, before any node, and its place.
    fn add(
        &mut self,
        alloc: Global,
        subject: &Subject<'_>,
        object: u8,
        region: u8,
        colours: &[u8],
    ) -> Result<usize, AllocError>
        requires region { region < subject.now.script.shape.regions }
        requires colours { All (λ colour. colour < subject.now.script.shape.colours) colours.now }
        ensures at { IfOk result (IsSeveralAt self.new (colours_used subject.now.script object) region colours.now) }
        ensures plays { (table : List (List Appended)) → AreSeveralPlays subject.now table self.old
            → OnOk result (AreSeveralPlays subject.now table self.new) }
    {
        let place = self.plays.len();
        let own = copied(alloc, colours_used(subject.script(), object))?;
        let order = KeyOrder::of(alloc, subject, region, copied(alloc, colours)?)?;
        self.plays
            .push(SeveralPlay::new(alloc, subject, own, order)?)?;
        let id = SeveralId {
            object,
            order: OrderId::of(region, colours),
        };
        self.places.insert(id, place)?;
        Ok(place)
    }

    // The place of the map of an object over these colours of a region.
    fn place(
        &mut self,
        alloc: Global,
        subject: &Subject<'_>,
        object: u8,
        region: u8,
        colours: &[u8],
    ) -> Result<usize, AllocError>
        requires region { region < subject.now.script.shape.regions }
        requires colours { All (λ colour. colour < subject.now.script.shape.colours) colours.now }
        ensures at { IfOk result (IsSeveralAt self.new (colours_used subject.now.script object) region colours.now) }
        ensures plays { (table : List (List Appended)) → AreSeveralPlays subject.now table self.old
            → OnOk result (AreSeveralPlays subject.now table self.new) }
    {
        let id = SeveralId {
            object,
            order: OrderId::of(region, colours),
        };
        let own = colours_used(subject.script(), object);
        match self.places.get(&id).copied() {
            Some(place) => {
                if self.is_at(place, own, region, colours) {
                    Ok(place)
                } else {
                    self.add(alloc, subject, object, region, colours)
                }
            }
            None => self.add(alloc, subject, object, region, colours),
        }
    }

    /// Whether these are the keys of an object that are asked for, each with its value behind the nodes of some colours of a region up
    /// to a stamp.
    pub(crate) fn are_values(
        &mut self,
        alloc: Global,
        subject: &Subject<'_>,
        nodes: &NodeTable,
        object: u8,
        region: u8,
        colours: &[u8],
        stamp: u64,
        asked: &[Text],
        shown: &[KeyAnswer],
    ) -> Result<bool, AllocError>
        requires plays { AreSeveralPlays subject.now nodes.now self.old }
        requires region { region < subject.now.script.shape.regions }
        requires colours { All (λ colour. colour < subject.now.script.shape.colours) colours.now }
        ensures told { IfOk result (λ b. Tells b (AreAnswers asked.now (values_among (colours_used subject.now.script object)
            (stamped_nodes subject.now nodes.now region colours.now stamp) asked.now) shown.now)) }
        ensures plays { OnOk result (AreSeveralPlays subject.now nodes.now self.new) }
    {
        subject.agrees();
        let place = self.place(alloc, subject, object, region, colours)?;
        self.plays[place].are_values(alloc, subject, nodes, stamp, asked, shown)
    }
}
