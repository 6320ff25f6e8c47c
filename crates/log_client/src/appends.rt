// Appends.
ghost use Rattle.std.specs.Prelude.{◌≡◌, ◌≢◌, ◌⊎◌, ◌↔◌, ◌<◌, ◌≤◌, ◌^◌, ◌+◌, ℕ, true, nat_lt, [], ◌∷◌, ◌++◌, length, map, None, Some, Err, IfErr, IfOk, IfSome, OnErr, OnOk};
ghost use Rattle.log_node.specs.declared.ids.Row.{Row};
ghost use Rattle.log_node.specs.declared.limits.TheConstants.{MAX_STAMP};
ghost use Rattle.log_node.specs.Sets.{has, members};
ghost use Rattle.stamp_board.specs.Rows.{AreColours};
ghost use Rattle.stamp_board.specs.Seats.{IsLater};
ghost use Rattle.stamp_board.specs.Views.{Grows};
ghost use Rattle.chain_store.specs.Histories.{FitsColumn};
ghost use Rattle.chain_store.specs.Rows.{OneNode};
ghost use Rattle.chain_store.specs.Steps.{HasSingleCause};
ghost use Rattle.chain_store.specs.Holds.{IsHold, SameBut, SeesMoreIn, entries_seen, view_of};
ghost use Rattle.append_core.specs.declared.stood.Point.{Point};
ghost use Rattle.append_core.specs.Standing.{HoldAppendsOne};
ghost use Rattle.append_core.specs.Several.{IsStopOf, HoldLeaves, HoldAppendsSeveral, own_row};
ghost use Rattle.lawful_run.specs.Callers.{row_taken};
ghost use Rattle.log_client.specs.Fits.{HaveGoneOn};
ghost use Rattle.log_client.specs.Clients.{IsClient, Finished, Helps, holds_of, nodes_of_rows, starts_of, tracks_of};
ghost use Rattle.log_client.specs.Growing.{HasGrown};
ghost use Rattle.log_client.specs.Appends.{AreColoursOf, IsStopWithin, next_node, AppendsAs, AppendRefused, HasNoRow, AppendStopped};
ghost use Rattle.log_client.specs.Calls.{IsExplained, IsSame};
ghost use Rattle.log_client.specs.Inside.{CallsAppend};

use crate::answers::Appended;
use crate::client::Client;
use crate::store::Store;
use append_core::{MultiFault, Stood, multi, single};
use chain_store::{Hold, Region};
use column::ColumnFault;
use fuzzy_io::Gate;
use log_node::{Colours, Id, Node, Row, Text, Wants};
use std::alloc::{AllocError, Global};
use std::sync::{Arc, Wait};

// The node enters the colour and stands. What the client's seat loads of the board at the end shows that each row which it
// knows is of one node: so it helped no append of its own.
fn stand<R: Wait>(
    rt: &R,
    alloc: Global,
    region: &Region,
    hold: &mut Hold,
    colour: u8,
    node: &Arc<Node>,
) -> Result<Stood, ColumnFault>
    requires hold { IsHold region.now hold.old }
    requires colour { colour < region.now.board.size.colours }
    requires id { (node.now.value.id.client ≡ hold.old.passes.number) × (hold.old.next ≤ node.now.value.id.count) }
    requires row { node.now.value.row ≡ None }
    requires node { FitsColumn region.now.number colour node.now.value }
    ensures hold { IsHold region.now hold.new }
    ensures seat { IsLater hold.old.seat hold.new.seat }
    ensures next { OnOk result (hold.new.next ≡ node.now.value.id.count + 1) }
    ensures ok { IfOk result (HoldAppendsOne hold.old hold.new node.now.value colour) }
    ensures one { OnOk result ((row : Row) → OneNode (view_of hold.new) row) }
    ensures cause { IfErr result (HasSingleCause (entries_seen hold.new colour) node.now.value.floor) }
    ensures err { OnErr result (SeesMoreIn colour hold.old hold.new × (hold.new.next ≡ hold.old.next)) }
    ensures others { OnErr result (SameBut colour hold.old hold.new × (hold.new.seat ≡ hold.old.seat)) }
{
    match single(rt, alloc, region, hold, colour, node) {
        Ok(stood) => {
            let first = Row {
                client: node.id.client,
                number: 0,
            };
            let _last = region.last(hold, first);
            Ok(stood)
        }
        Err(fault) => Err(fault),
    }
}

// Why an append to several colours does not stand, and whether its row was begun.
#[derive(Clone, Copy)]
struct Left {
    fault: MultiFault,
    begun: bool,
}

// Whether the row of the hold's client is begun.
fn is_begun(region: &Region, hold: &Hold, row: Row) -> bool
    requires { IsHold region.now hold.now }
    ensures { result ≡ nat_lt row.number hold.now.seat.used }
{
    match region.next_row(hold) {
        Ok(next) => row.number < next.number,
        Err(full) => row.number < full.used,
    }
}

// The node, which names the client's next row, enters its colours and stands in all of them. As in `stand`, what is loaded
// at the end shows that the client helped no older append of its own.
fn stand_in_all<R: Wait, G: Gate>(
    rt: &R,
    alloc: Global,
    region: &Region,
    hold: &mut Hold,
    gate: &G,
    node: &Arc<Node>,
    row: Row,
    stop: Option<u8>,
) -> Result<Stood, Left>
    requires hold { IsHold region.now hold.old }
    requires id { (node.now.value.id.client ≡ hold.old.passes.number) × (hold.old.next ≤ node.now.value.id.count) }
    requires count { node.now.value.id.count < 2 ^ 63 }
    requires row { (row ≡ own_row hold.old) × (node.now.value.row ≡ Some row) }
    requires room { hold.old.seat.used < region.now.board.size.rows }
    requires region { node.now.value.region ≡ region.now.number }
    requires colours { AreColours region.now.board.size node.now.value.colours }
    requires floor { node.now.value.floor ≤ MAX_STAMP }
    requires stop { IfSome stop (IsStopOf node.now.value) }
    ensures hold { IsHold region.now hold.new }
    ensures seat { Grows (view_of hold.old) (view_of hold.new) }
    ensures ok { IfOk result (HoldAppendsSeveral region.now hold.old hold.new node.now.value) }
    ensures one { OnOk result ((other : Row) → OneNode (view_of hold.new) other) }
    ensures whole { OnOk result (stop ≡ None) }
    ensures err { IfErr result (λ left. HoldLeaves region.now hold.old hold.new node.now.value stop left.fault) }
    ensures begun { IfErr result (λ left. left.begun ≡ nat_lt hold.old.seat.used hold.new.seat.used) }
{
    match multi(rt, alloc, region, hold, gate, node, stop) {
        Ok(stood) => {
            let _last = region.last(hold, row);
            Ok(stood)
        }
        Err(fault) => {
            let begun = is_begun(region, hold, row);
            Err(Left { fault, begun })
        }
    }
}

impl Client {
    // What the client has played of the colours.
    fn played_counts(&self, alloc: Global, colours: Colours) -> Result<Wants, AllocError>
        requires { (c : ℕ) → has colours c ≡ true → c < length (tracks_of self.now) }
        ensures { IfOk result (λ wants. wants ≡ map (starts_of self.now) (members colours)) }
    {
        let mut wants = Wants::new(alloc);
        for colour in colours.members() {
            wants.push(self.snapshot(colour).counts)?;
        }
        Ok(wants)
    }

    // The client's next node.
    pub(crate) fn next_node(
        &self,
        alloc: Global,
        colours: Colours,
        text: Text,
        row: Option<Row>,
    ) -> Result<Arc<Node>, AllocError>
        requires colours { (c : ℕ) → has colours c ≡ true → c < length (tracks_of self.now) }
        requires row { row ≡ row_taken self.now.number (length (nodes_of_rows self.now)) (members colours) }
        ensures { IfOk result (λ node. node.value ≡ next_node self.now colours text) }
    {
        let wants = self.played_counts(alloc, colours)?;
        let node = Node {
            id: Id {
                client: self.number,
                count: self.count,
            },
            region: self.region,
            colours,
            text,
            floor: self.floor,
            wants,
            row,
        };
        Ok(Arc::new(alloc, node)?)
    }

    // An append to one colour.
    fn append_alone<R: Wait>(
        &mut self,
        rt: &R,
        alloc: Global,
        store: &Store,
        colour: u8,
        colours: Colours,
        text: Text,
    ) -> Result<Appended, MultiFault>
        requires client { IsClient store.now self.old }
        requires colour { colour < store.now.size.colours }
        requires colours { AreColoursOf store.now colours }
        requires one { members colours ≡ colour ∷ [] }
        ensures { CallsAppend store.now self.old self.new colours text None result }
    {
        let Ok(node) = self.next_node(alloc, colours, text, None) else {
            return Err(MultiFault::NoMemory);
        };
        let id = node.id;
        let region = store.region(self.region);
        let hold = &mut self.holds[self.region as usize];
        match stand(rt, alloc, region, hold, colour, &node) {
            Ok(stood) => {
                self.count += 1;
                self.floor = stood.key.stamp.max(self.floor);
                Ok(Appended {
                    id,
                    row: None,
                    stood,
                })
            }
            Err(ColumnFault::StampEnd { clock: _ }) => Err(MultiFault::StampEnd { colour }),
            Err(ColumnFault::NoMemory) => Err(MultiFault::NoMemory),
        }
    }

    // An append to several colours. The place for its node among those of the client's rows is taken before its row is
    // begun.
    fn append_several<R: Wait, G: Gate>(
        &mut self,
        rt: &R,
        alloc: Global,
        store: &Store,
        gate: &G,
        colours: Colours,
        text: Text,
        stop: Option<u8>,
    ) -> Result<Appended, MultiFault>
        requires client { IsClient store.now self.old }
        requires colours { AreColours store.now.size colours }
        requires stop { IfSome stop (IsStopWithin colours) }
        requires not_at_once { stop ≢ Some 0 }
        ensures { CallsAppend store.now self.old self.new colours text stop result }
    {
        let region = store.region(self.region);
        let row = match region.next_row(&self.holds[self.region as usize]) {
            Ok(row) => row,
            Err(full) => return Err(MultiFault::Full { used: full.used }),
        };
        let Ok(node) = self.next_node(alloc, colours, text, Some(row)) else {
            return Err(MultiFault::NoMemory);
        };
        let Ok(()) = self.rows.reserve(1) else {
            return Err(MultiFault::NoMemory);
        };
        let id = node.id;
        let hold = &mut self.holds[self.region as usize];
        match stand_in_all(rt, alloc, region, hold, gate, &node, row, stop) {
            Ok(stood) => {
                self.rows.push_reserved(node);
                self.count += 1;
                self.floor = stood.key.stamp.max(self.floor);
                Ok(Appended {
                    id,
                    row: Some(row.number),
                    stood,
                })
            }
            Err(left) => {
                if left.begun {
                    self.rows.push_reserved(node);
                    self.count += 1;
                    return Err(left.fault);
                }
                Err(left.fault)
            }
        }
    }

    /// Appends the client's next node to the colours of its region's columns, with the client's floor and what it has
    /// played of them as wants. On Ok it stands in the lines of all of them, behind all nodes that the client knew to stand
    /// there. Several colours take the client's next row; the gate is passed between their steps, and with a stop the append
    /// stops after that many. Open entries in its way are helped. Nothing is played, not even the own node: `played`, `line`
    /// and `snapshot` answer of each colour what they did before. Waits for turns of the columns.
    #[tactic(auto, using(crate::proofs::Going::Growing::grown_same))]
    pub fn append<R: Wait, G: Gate>(
        &mut self,
        rt: &R,
        alloc: Global,
        store: &Store,
        gate: &G,
        colours: Colours,
        text: Text,
        stop: Option<u8>,
    ) -> Result<Appended, MultiFault>
        requires client { IsClient store.now self.old }
        requires colours { AreColoursOf store.now colours }
        requires stop { IfSome stop (IsStopWithin colours) }
        ensures client { IsClient store.now self.new }
        ensures same { IsSame self.old self.new }
        ensures goes { HaveGoneOn (holds_of self.old) (holds_of self.new) }
        ensures grows { HasGrown self.old self.new }
        ensures plays { tracks_of self.new ≡ tracks_of self.old }
        ensures finished { Finished self.old → Finished self.new ⊎ AppendStopped result }
        // An append that is to stop helps nobody.
        ensures idle { stop ≢ None → Helps self.new → Helps self.old }
        ensures ok { IfOk result (λ a. IsExplained store.now self.old self.new (AppendsAs colours text a)) }
        ensures whole { OnOk result (stop ≡ None) }
        ensures points { IfOk result (λ a. map (λ (p : Point). p.colour) a.stood.points ≡ members colours) }
        ensures err { IfErr result (AppendRefused store.now self.old self.new colours text stop) }
        // Two answers come before memory is asked for.
        ensures at_once { stop ≡ Some 0 → (result ≡ Err (MultiFault.Stopped 0)) × (self.new ≡ self.old) }
        ensures full { (used : ℕ) → (result ≡ Err (MultiFault.Full used)) ↔ HasNoRow store.now self.old colours stop used }
    {
        if stop == Some(0) {
            return Err(MultiFault::Stopped { steps: 0 });
        }
        if colours.count() > 1 {
            return self.append_several(rt, alloc, store, gate, colours, text, stop);
        }
        match colours.first() {
            Some(colour) => self.append_alone(rt, alloc, store, colour, colours, text),
            None => unreachable!(),
        }
    }
}
