// Transactional maps that are played on from read to read, while what the reads found is computed.
ghost use Rattle.std.specs.Prelude.{◌≡◌, ◌++◌, ◌<◌, ◌≤◌, List, length, slice_index_or, take, IfOk, OnOk};
ghost use Rattle.std.specs.List.{All};
ghost use Rattle.object_fold.specs.Nodes.{ObjectNode};
ghost use Rattle.object_fold.specs.States.{IsTxState};
ghost use Rattle.object_fold.specs.Transactions.{versions_after};
ghost use Rattle.column_track.specs.Tracks.{Tells};
ghost use Rattle.run_rules.specs.Computing.{any_decisions, keys_shown, node_read};
ghost use Rattle.run_rules.specs.Keeping.{Keeps};
ghost use Rattle.object_law.specs.Drafts.{AreDrafts};
ghost use Rattle.object_law.specs.Found.{AreFoundBelow, AreFoundPlays, IsFoundAt, IsFoundPlay, StandsAs, found_nodes, node_finding, stamped_keys};
ghost use Rattle.object_law.specs.ObjectAnswers.{IsKeyOrder};
ghost use Rattle.walk_law.specs.Finds.{FindsKeys, finds_at};

use crate::drafts::DraftTable;
use crate::finds::Finds;
use crate::found_laws::texts_stand;
use crate::key_order::KeyOrder;
use crate::node_told::text_used;
use crate::order_ids::OrderId;
use log_node::{ColourList, Key, ListOf, Text, Version, Versions};
use object_fold::TxState;
use report_text::KeyAnswer;
use std::alloc::{AllocError, Global};
use std::collections::BTreeMap;
use walk_law::Subject;

/// The transactional map over the nodes of some colours of a region, in its order.
#[derive(Drop)]
pub(crate) struct FoundPlay {
    order: KeyOrder,
    state: TxState,
    count: usize,
}

// Feeds the node with a key, with the text that it has where reads found this.
fn feed(
    state: &mut TxState,
    alloc: Global,
    subject: &Subject<'_>,
    drafts: &DraftTable,
    finds: &Finds,
    key: Key,
) -> Result<(), AllocError>
    requires client { key.id.client < length subject.now.report.clients }
    requires drafts { AreDrafts subject.now any_decisions drafts.now }
    requires keys { FindsKeys subject.now.report (finds_at finds.now) }
    ensures { (nodes : List ObjectNode) → IsTxState state.old nodes
        → OnOk result (IsTxState state.new (nodes ++ node_read key (node_finding subject.now (finds_at finds.now) key.id))) }
{
    let Some(draft) = drafts.draft(key.id) else {
        return Ok(());
    };
    match draft.used {
        Some(used) => {
            let text = text_used(alloc, subject, key.id.client, finds, used)?;
            let _verdict = state.feed(alloc, key, &text)?;
        }
        None => {
            let _verdict = state.feed(alloc, key, &draft.node.text)?;
        }
    }
    Ok(())
}

// The key at a place.
fn key_at(keys: &[Key], place: usize) -> Key
    requires { place < length keys.now }
    ensures { result ≡ slice_index_or keys.now place result }
{
    keys[place]
}

// The versions of the keys that a read shows.
fn versions(alloc: Global, state: &TxState, shown: &[KeyAnswer]) -> Result<Versions, AllocError>
    ensures { (nodes : List ObjectNode) → IsTxState state.now nodes
        → IfOk result (λ found. found ≡ versions_after nodes (keys_shown shown.now)) }
{
    let mut versions = ListOf::new(alloc);
    for answer in shown {
        let writer = state.writer(answer.key.as_bytes());
        let key = Text::copied(alloc, answer.key.as_bytes())?;
        versions.push(Version { key, writer })?;
    }
    Ok(versions)
}

impl FoundPlay {
    // Before any node.
    fn new(alloc: Global, subject: &Subject<'_>, order: KeyOrder) -> FoundPlay
        requires { IsKeyOrder subject.now order }
        ensures play { IsFoundPlay subject.now result }
        ensures order { result.order ≡ order }
    {
        let _subject = subject;
        FoundPlay {
            order,
            state: TxState::new(alloc),
            count: 0,
        }
    }

    // Whether it is that of this region and these colours.
    fn is_of(&self, region: u8, colours: &[u8]) -> bool
        ensures { Tells result ((self.now.order.region ≡ region) × (self.now.order.colours ≡ colours.now)) }
    {
        self.order.is_of(region, colours)
    }

    // Feeds the nodes up to a place.
    fn go_on(
        &mut self,
        alloc: Global,
        subject: &Subject<'_>,
        drafts: &DraftTable,
        finds: &Finds,
        count: usize,
    ) -> Result<(), AllocError>
        requires play { IsFoundPlay subject.now self.old }
        requires within { count ≤ length self.old.order.keys.items }
        requires behind { self.old.count ≤ count }
        requires drafts { AreDrafts subject.now any_decisions drafts.now }
        requires keys { FindsKeys subject.now.report (finds_at finds.now) }
        requires stand { All (StandsAs subject.now (finds_at finds.now)) (take count self.old.order.keys.items) }
        ensures play { OnOk result (IsFoundPlay subject.now self.new) }
        ensures count { OnOk result (self.new.count ≡ count) }
        ensures order { self.new.order ≡ self.old.order }
    {
        while self.count < count {
            let key = key_at(self.order.keys(), self.count);
            feed(&mut self.state, alloc, subject, drafts, finds, key)?;
            self.count += 1;
        }
        Ok(())
    }

    // Goes to a place; from the beginning where that is an earlier one.
    fn go_to(
        &mut self,
        alloc: Global,
        subject: &Subject<'_>,
        drafts: &DraftTable,
        finds: &Finds,
        count: usize,
    ) -> Result<(), AllocError>
        requires play { IsFoundPlay subject.now self.old }
        requires within { count ≤ length self.old.order.keys.items }
        requires drafts { AreDrafts subject.now any_decisions drafts.now }
        requires keys { FindsKeys subject.now.report (finds_at finds.now) }
        requires stand { All (StandsAs subject.now (finds_at finds.now)) (take count self.old.order.keys.items) }
        ensures play { OnOk result (IsFoundPlay subject.now self.new) }
        ensures count { OnOk result (self.new.count ≡ count) }
        ensures order { self.new.order ≡ self.old.order }
    {
        if count < self.count {
            self.state = TxState::new(alloc);
            self.count = 0;
        }
        self.go_on(alloc, subject, drafts, finds, count)
    }

    // The versions of the keys that a read shows behind the nodes up to its stamp, by what the reads below that found.
    fn find(
        &mut self,
        alloc: Global,
        subject: &Subject<'_>,
        drafts: &DraftTable,
        finds: &Finds,
        stamp: u64,
        shown: &[KeyAnswer],
    ) -> Result<Versions, AllocError>
        requires play { IsFoundPlay subject.now self.old }
        requires drafts { AreDrafts subject.now any_decisions drafts.now }
        requires keeps { Keeps subject.now.script subject.now.report 9 }
        requires found { AreFoundBelow subject.now stamp (finds_at finds.now) }
        ensures found { IfOk result (λ found. found ≡ versions_after (found_nodes subject.now
            (stamped_keys subject.now self.old.order.region self.old.order.colours stamp)) (keys_shown shown.now)) }
        ensures play { OnOk result (IsFoundPlay subject.now self.new) }
    {
        texts_stand();
        subject.agrees();
        let count = self.order.count(subject, stamp);
        self.go_to(alloc, subject, drafts, finds, count)?;
        versions(alloc, &self.state, shown)
    }
}

/// The plays of all colours that were read so far. The table says at which place each stands; what stands there says itself what it
/// is of.
#[derive(Drop)]
pub(crate) struct FoundPlays {
    plays: Vec<FoundPlay>,
    places: BTreeMap<OrderId, usize>,
}

impl FoundPlays {
    /// None yet.
    pub(crate) fn new(alloc: Global, subject: &Subject<'_>) -> FoundPlays
        ensures { AreFoundPlays subject.now result }
    {
        let _subject = subject;
        FoundPlays {
            plays: Vec::new(alloc),
            places: BTreeMap::new(alloc),
        }
    }

    // Whether the play of these colours of a region stands at a place.
    fn is_at(&self, place: usize, region: u8, colours: &[u8]) -> bool
        ensures { Tells result (IsFoundAt self.now region colours.now place) }
    {
        match self.plays.get(place) {
            Some(play) => play.is_of(region, colours),
            None => false,
        }
    }

    // One more play, before any node, and its place.
    fn add(
        &mut self,
        alloc: Global,
        subject: &Subject<'_>,
        region: u8,
        colours: ColourList,
    ) -> Result<usize, AllocError>
        requires region { region < subject.now.script.shape.regions }
        requires colours { All (λ colour. colour < subject.now.script.shape.colours) colours }
        requires plays { AreFoundPlays subject.now self.old }
        ensures at { IfOk result (IsFoundAt self.new region colours) }
        ensures plays { OnOk result (AreFoundPlays subject.now self.new) }
    {
        let place = self.plays.len();
        let id = OrderId::of(region, colours.as_slice());
        let order = KeyOrder::of(alloc, subject, region, colours)?;
        self.plays.push(FoundPlay::new(alloc, subject, order))?;
        self.places.insert(id, place)?;
        Ok(place)
    }

    // The place of the play of these colours of a region.
    fn place(
        &mut self,
        alloc: Global,
        subject: &Subject<'_>,
        region: u8,
        colours: ColourList,
    ) -> Result<usize, AllocError>
        requires region { region < subject.now.script.shape.regions }
        requires colours { All (λ colour. colour < subject.now.script.shape.colours) colours }
        requires plays { AreFoundPlays subject.now self.old }
        ensures at { IfOk result (IsFoundAt self.new region colours) }
        ensures plays { OnOk result (AreFoundPlays subject.now self.new) }
    {
        let id = OrderId::of(region, colours.as_slice());
        if let Some(place) = self.places.get(&id).copied() {
            if self.is_at(place, region, colours.as_slice()) {
                return Ok(place);
            }
        }
        self.add(alloc, subject, region, colours)
    }

    /// The versions of the keys that a read of these colours of a region shows behind the nodes up to its stamp, by what the reads below
    /// that found.
    pub(crate) fn find(
        &mut self,
        alloc: Global,
        subject: &Subject<'_>,
        drafts: &DraftTable,
        finds: &Finds,
        region: u8,
        colours: ColourList,
        stamp: u64,
        shown: &[KeyAnswer],
    ) -> Result<Versions, AllocError>
        requires region { region < subject.now.script.shape.regions }
        requires colours { All (λ colour. colour < subject.now.script.shape.colours) colours }
        requires plays { AreFoundPlays subject.now self.old }
        requires drafts { AreDrafts subject.now any_decisions drafts.now }
        requires keeps { Keeps subject.now.script subject.now.report 9 }
        requires found { AreFoundBelow subject.now stamp (finds_at finds.now) }
        ensures found { IfOk result (λ found. found
            ≡ versions_after (found_nodes subject.now (stamped_keys subject.now region colours stamp)) (keys_shown shown.now)) }
        ensures plays { OnOk result (AreFoundPlays subject.now self.new) }
    {
        let place = self.place(alloc, subject, region, colours)?;
        self.plays[place].find(alloc, subject, drafts, finds, stamp, shown)
    }
}
