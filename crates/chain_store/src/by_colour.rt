// The calls of a region on one column, each under one turn of it.
ghost use Rattle.std.specs.Prelude.{◌≡◌, ◌≢◌, ◌<◌, ◌≤◌, ◌+◌, ℕ, true, Ok, None, length, IfErr, IfOk, IfSome, OnOk, OnErr};
ghost use Rattle.std.specs.List.{position, filter, find};
ghost use Rattle.std.specs.Option.{option_map};
ghost use Rattle.log_node.specs.declared.marks.Mark.TheVariants.{Number, Fenced};
ghost use Rattle.log_node.specs.declared.marks.Why.TheVariants.{StampEnd};
ghost use Rattle.log_node.specs.declared.node.At.TheVariants.{Look};
ghost use Rattle.log_node.specs.declared.node.Node.{Node};
ghost use Rattle.log_node.specs.Order.{same_key};
ghost use Rattle.log_node.specs.Seen.{BegunAppend};
ghost use Rattle.log_node.specs.Sets.{has};
ghost use Rattle.log_node.specs.Standings.{Standing, open_entry};
ghost use Rattle.col_core.specs.History.{clock, entries, entry_key, line, IsAtEnd};
ghost use Rattle.col_core.specs.Ids.{IsFinal};
ghost use Rattle.column.specs.Columns.{is_open_below};
ghost use Rattle.stamp_board.specs.Views.{KnowsMark, KnowsOutcome};
ghost use Rattle.stamp_board.specs.Seats.{IsLater};
ghost use Rattle.col_core.specs.Cuts.{held};
ghost use Rattle.chain_store.specs.Histories.{FitsColumn};
ghost use Rattle.chain_store.specs.Columns.{told_single, told_propose, told_settle};
ghost use Rattle.chain_store.specs.Marks.{stamps_of, numbers};
ghost use Rattle.chain_store.specs.Rows.{IsBegunRow, place_after};
ghost use Rattle.chain_store.specs.Proposals.{HasProposal, IsMarkedOpen};
ghost use Rattle.chain_store.specs.Steps.{HasSingleCause, MatchAt};
ghost use Rattle.chain_store.specs.Passes.{dated_in};
ghost use Rattle.chain_store.specs.Regions.{tag_at};
ghost use Rattle.chain_store.specs.Holds.{IsHold, KnowsAppend, SameBut, seen_in, entries_seen, view_of};
ghost use Rattle.chain_store.specs.Holds.{SeesMoreIn, MakesOneIn, LooksIn, RaisesIn, GivesIn, CarriesIn, WaitsIn, TrimsIn};
ghost use Rattle.chain_store.specs.Moves.{held_in};

use crate::calls::{Single, single_in};
use crate::changes::{carry_in, drain_in, feed_in, give_in, raise_in, trim_in};
use crate::hold::Hold;
use crate::looks::{clock_in, held_in, place_in};
use crate::region::Region;
use crate::rows::{Proposed, Settled, below_in, propose_in, settle_in};
use column::{Below, ColumnFault};
use log_node::{At, Begun, Counts, Key, MAX_STAMP, Mark, Node, Outcome};
use std::alloc::{AllocError, Global};
use std::sync::{Arc, Wait};

impl Region {
    /// The node enters the colour's column as final under the next stamp. Answers its position in the line too, which is
    /// `None` where an open entry stands before it.
    pub fn single<R: Wait>(
        &self,
        rt: &R,
        hold: &mut Hold,
        colour: u8,
        node: &Arc<Node>,
    ) -> Result<Single, ColumnFault>
        requires hold { IsHold self.now hold.old }
        requires colour { colour < self.now.board.size.colours }
        requires id { (node.now.value.id.client ≡ hold.old.passes.number) × (hold.old.next ≤ node.now.value.id.count) }
        requires row { node.now.value.row ≡ None }
        requires node { FitsColumn self.now.number colour node.now.value }
        ensures hold { IsHold self.now hold.new }
        ensures others { SameBut colour hold.old hold.new }
        ensures seat { hold.new.seat ≡ hold.old.seat }
        ensures next { OnOk result (hold.new.next ≡ node.now.value.id.count + 1) }
        ensures ok { IfOk result (λ s.
            MakesOneIn colour hold.old hold.new (told_single colour hold.old.passes.number node.now.value s.stamp) s.at) }
        ensures position { IfOk result (λ s. s.position
            ≡ position (λ k. same_key k (entry_key s.stamp node.now.value.id)) (line (entries_seen hold.new colour))) }
        ensures cause { IfErr result (HasSingleCause (entries_seen hold.new colour) node.now.value.floor) }
        ensures err { OnErr result (SeesMoreIn colour hold.old hold.new × (hold.new.next ≡ hold.old.next)) }
    {
        let by = hold.passes.number;
        let pass = &mut hold.passes.items[colour as usize];
        let entered = single_in(rt, self.column(colour), pass, by, node);
        self.behind(rt, &mut hold.desks, colour, by, entered.is_ok());
        match entered {
            Ok(answer) => {
                hold.next = node.id.count + 1;
                Ok(answer)
            }
            Err(fault) => Err(fault),
        }
    }

    /// The position of a key in the line of the colour's column, counted from 0; `None` exactly where it is not in the
    /// line.
    pub fn place<R: Wait>(&self, rt: &R, hold: &mut Hold, colour: u8, key: Key) -> (At, Option<u64>)
        requires hold { IsHold self.now hold.old }
        requires colour { colour < self.now.board.size.colours }
        ensures hold { IsHold self.now hold.new }
        ensures others { SameBut colour hold.old hold.new }
        ensures same { (hold.new.seat ≡ hold.old.seat) × (hold.new.next ≡ hold.old.next) }
        ensures look { LooksIn colour hold.old hold.new result.0 }
        ensures place { result.1 ≡ position (λ k. same_key k key) (line (entries_seen hold.new colour)) }
    {
        let by = hold.passes.number;
        let pass = &mut hold.passes.items[colour as usize];
        place_in(rt, self.column(colour), pass, by, key)
    }

    /// The clock of the colour's column.
    pub fn clock<R: Wait>(&self, rt: &R, hold: &mut Hold, colour: u8) -> (At, u64)
        requires hold { IsHold self.now hold.old }
        requires colour { colour < self.now.board.size.colours }
        ensures hold { IsHold self.now hold.new }
        ensures others { SameBut colour hold.old hold.new }
        ensures same { (hold.new.seat ≡ hold.old.seat) × (hold.new.next ≡ hold.old.next) }
        ensures look { LooksIn colour hold.old hold.new result.0 }
        ensures clock { result.1 ≡ clock (entries_seen hold.new colour) }
    {
        let by = hold.passes.number;
        let pass = &mut hold.passes.items[colour as usize];
        clock_in(rt, self.column(colour), pass, by)
    }

    /// How many nodes of each region's chain the colour's column has.
    pub fn held<R: Wait>(&self, rt: &R, hold: &mut Hold, colour: u8) -> (At, Counts)
        requires hold { IsHold self.now hold.old }
        requires colour { colour < self.now.board.size.colours }
        ensures hold { IsHold self.now hold.new }
        ensures others { SameBut colour hold.old hold.new }
        ensures same { (hold.new.seat ≡ hold.old.seat) × (hold.new.next ≡ hold.old.next) }
        ensures look { LooksIn colour hold.old hold.new result.0 }
        ensures held { result.1 ≡ held self.now.number (dated_in (tag_at self.now colour) (seen_in hold.new colour)) }
    {
        let by = hold.passes.number;
        let pass = &mut hold.passes.items[colour as usize];
        held_in(rt, self.column(colour), pass, by)
    }

    /// Raises the clock of the colour's column.
    pub fn raise<R: Wait>(
        &self,
        rt: &R,
        hold: &mut Hold,
        colour: u8,
        to: u64,
    ) -> Result<At, AllocError>
        requires hold { IsHold self.now hold.old }
        requires colour { colour < self.now.board.size.colours }
        requires to { to ≤ MAX_STAMP }
        ensures hold { IsHold self.now hold.new }
        ensures others { SameBut colour hold.old hold.new }
        ensures same { (hold.new.seat ≡ hold.old.seat) × (hold.new.next ≡ hold.old.next) }
        ensures ok { IfOk result (RaisesIn colour hold.old hold.new to) }
        ensures err { OnErr result (SeesMoreIn colour hold.old hold.new) }
    {
        let by = hold.passes.number;
        let pass = &mut hold.passes.items[colour as usize];
        let raised = raise_in(rt, self.column(colour), pass, by, to);
        let event = matches!(raised, Ok(At::Event(_)));
        self.behind(rt, &mut hold.desks, colour, by, event);
        raised
    }

    /// Notes in the colour's column that another region has asked past a number, and answers the line's length.
    pub fn give<R: Wait>(
        &self,
        rt: &R,
        hold: &mut Hold,
        colour: u8,
        region: u8,
        from: u64,
    ) -> Result<(At, u64), AllocError>
        requires hold { IsHold self.now hold.old }
        requires colour { colour < self.now.board.size.colours }
        requires other { (region ≢ self.now.number) × (region < self.now.regions) }
        ensures hold { IsHold self.now hold.new }
        ensures others { SameBut colour hold.old hold.new }
        ensures same { (hold.new.seat ≡ hold.old.seat) × (hold.new.next ≡ hold.old.next) }
        ensures ok { IfOk result (λ r. GivesIn colour hold.old hold.new region from r.0 r.1) }
        ensures err { OnErr result (SeesMoreIn colour hold.old hold.new) }
    {
        let by = hold.passes.number;
        let pass = &mut hold.passes.items[colour as usize];
        let given = give_in(rt, self.column(colour), pass, by, region, from);
        self.behind(rt, &mut hold.desks, colour, by, given.is_ok());
        given
    }

    /// Sends own nodes of the colour to another region, in their order, until the ring is full or none is left. Where memory
    /// is refused, those before stay sent.
    pub fn feed<R: Wait>(
        &self,
        rt: &R,
        hold: &mut Hold,
        colour: u8,
        region: u8,
    ) -> Result<(), AllocError>
        requires hold { IsHold self.now hold.old }
        requires colour { colour < self.now.board.size.colours }
        requires other { (region ≢ self.now.number) × (region < self.now.regions) }
        ensures hold { IsHold self.now hold.new }
        ensures others { SameBut colour hold.old hold.new }
        ensures same { (hold.new.seat ≡ hold.old.seat) × (hold.new.next ≡ hold.old.next) }
        ensures sees { SeesMoreIn colour hold.old hold.new }
    {
        let by = hold.passes.number;
        let pass = &mut hold.passes.items[colour as usize];
        feed_in(rt, self.column(colour), pass, by, region)
    }

    /// Receives nodes of the colour that another region sent, and answers how many of its chain are held or received. Where
    /// memory is refused, none is lost.
    pub fn drain<R: Wait>(
        &self,
        rt: &R,
        hold: &mut Hold,
        colour: u8,
        region: u8,
    ) -> Result<u64, AllocError>
        requires hold { IsHold self.now hold.old }
        requires colour { colour < self.now.board.size.colours }
        requires other { (region ≢ self.now.number) × (region < self.now.regions) }
        ensures hold { IsHold self.now hold.new }
        ensures others { SameBut colour hold.old hold.new }
        ensures same { (hold.new.seat ≡ hold.old.seat) × (hold.new.next ≡ hold.old.next) }
        ensures sees { SeesMoreIn colour hold.old hold.new }
        ensures count { IfOk result (λ n. held_in (tag_at self.now colour) (seen_in hold.new colour) region ≤ n) }
    {
        let by = hold.passes.number;
        let pass = &mut hold.passes.items[colour as usize];
        drain_in(rt, self.column(colour), pass, by, region)
    }

    /// Takes over all nodes of the colour that were received from another region, and answers how many that are, an event
    /// exactly where there is one. `None`, and nothing changes, where fewer than so many of its chain are held or received.
    pub fn carry<R: Wait>(
        &self,
        rt: &R,
        hold: &mut Hold,
        colour: u8,
        region: u8,
        least: u64,
    ) -> Result<Option<(At, u64)>, AllocError>
        requires hold { IsHold self.now hold.old }
        requires colour { colour < self.now.board.size.colours }
        requires other { (region ≢ self.now.number) × (region < self.now.regions) }
        ensures hold { IsHold self.now hold.new }
        ensures others { SameBut colour hold.old hold.new }
        ensures same { (hold.new.seat ≡ hold.old.seat) × (hold.new.next ≡ hold.old.next) }
        ensures ok { IfOk result (λ carried. IfSome carried (λ r.
            CarriesIn colour hold.old hold.new (tag_at self.now colour) region least r.0 r.1)) }
        ensures none { result ≡ Ok None → WaitsIn colour hold.old hold.new (tag_at self.now colour) region least }
        ensures err { OnErr result (SeesMoreIn colour hold.old hold.new) }
    {
        let by = hold.passes.number;
        let pass = &mut hold.passes.items[colour as usize];
        let carried = carry_in(rt, self.column(colour), pass, by, region, least);
        let event = matches!(carried, Ok(Some((At::Event(_), _))));
        self.behind(rt, &mut hold.desks, colour, by, event);
        carried
    }

    /// Drops nodes of the colour below these counts that every other region has asked past, and answers the base.
    pub fn trim<R: Wait>(
        &self,
        rt: &R,
        hold: &mut Hold,
        colour: u8,
        counts: Counts,
    ) -> Result<(At, Counts), AllocError>
        requires hold { IsHold self.now hold.old }
        requires colour { colour < self.now.board.size.colours }
        ensures hold { IsHold self.now hold.new }
        ensures others { SameBut colour hold.old hold.new }
        ensures same { (hold.new.seat ≡ hold.old.seat) × (hold.new.next ≡ hold.old.next) }
        ensures ok { IfOk result (λ r. TrimsIn colour hold.old hold.new (tag_at self.now colour) counts r.0 r.1) }
        ensures err { OnErr result (SeesMoreIn colour hold.old hold.new) }
    {
        let by = hold.passes.number;
        let pass = &mut hold.passes.items[colour as usize];
        let trimmed = trim_in(rt, self.column(colour), pass, by, counts);
        self.behind(rt, &mut hold.desks, colour, by, trimmed.is_ok());
        trimmed
    }

    /// Proposes a begun append in the colour's column: where its row has no mark there, its node enters as open and the
    /// mark is its number, or, where the node cannot enter, the mark is a fence. The hold then knows the mark.
    pub fn propose<R: Wait>(&self, rt: &R, hold: &mut Hold, colour: u8, begun: &Begun) -> Proposed
        requires hold { IsHold self.now hold.old }
        requires colour { colour < self.now.board.size.colours }
        requires begun { KnowsAppend self.now hold.old begun.now }
        requires coloured { has begun.now.colours colour ≡ true }
        ensures hold { IsHold self.now hold.new }
        ensures others { SameBut colour hold.old hold.new }
        ensures same { IsLater hold.old.seat hold.new.seat × (hold.new.next ≡ hold.old.next) }
        ensures known { KnowsMark (view_of hold.new) begun.now.row colour result.mark }
        ensures set { result.mark ≢ Mark.None }
        ensures agrees { stamps_of begun.now.row (seen_in hold.new colour) ≡ numbers result.mark }
        ensures entered { (n : ℕ) → result.mark ≡ Number n → HasProposal self.now.board.size self.now.number colour
            (view_of hold.new) begun.now (seen_in hold.new colour) n }
        ensures at { MatchAt result.at
            (λ _. (x : Node) × (n : ℕ) × IsBegunRow self.now.board.size self.now.number (view_of hold.new) begun.now x
            × (result.mark ≡ Number n)
            × MakesOneIn colour hold.old hold.new (told_propose colour hold.old.passes.number x n) result.at)
            (λ _. LooksIn colour hold.old hold.new result.at) }
        ensures ended { result.mark ≡ Fenced StampEnd
            → (x : Node) × IsBegunRow self.now.board.size self.now.number (view_of hold.new) begun.now x
            × IsAtEnd (entries_seen hold.new colour) x.floor }
    {
        let by = hold.passes.number;
        let pass = &mut hold.passes.items[colour as usize];
        let proposed = propose_in(
            rt,
            &self.board,
            self.column(colour),
            pass,
            &mut hold.seat,
            by,
            begun,
        );
        let event = matches!(proposed.at, At::Event(_));
        self.behind(rt, &mut hold.desks, colour, by, event);
        proposed
    }

    /// Settles a begun append in the colour's column with the outcome of its row: where its id is open, it becomes
    /// final under the number, or goes. It is then not open.
    pub fn settle<R: Wait>(
        &self,
        rt: &R,
        hold: &mut Hold,
        colour: u8,
        begun: &Begun,
        outcome: Outcome,
    ) -> Settled
        requires hold { IsHold self.now hold.old }
        requires colour { colour < self.now.board.size.colours }
        requires begun { KnowsAppend self.now hold.old begun.now }
        requires coloured { has begun.now.colours colour ≡ true }
        requires outcome { (outcome ≢ Outcome.Open) × KnowsOutcome (view_of hold.old) begun.now.row outcome }
        ensures hold { IsHold self.now hold.new }
        ensures others { SameBut colour hold.old hold.new }
        ensures same { IsLater hold.old.seat hold.new.seat × (hold.new.next ≡ hold.old.next) }
        ensures at { MatchAt result.at
            (λ _. MakesOneIn colour hold.old hold.new
            (told_settle hold.old.passes.number begun.now.id outcome) result.at)
            (λ _. LooksIn colour hold.old hold.new result.at) }
        ensures closed { open_entry begun.now.id (entries (entries_seen hold.new colour)) ≡ None }
        ensures stands { (f : ℕ) → outcome ≡ Outcome.Final f → IsFinal (entries_seen hold.new colour) begun.now.id f }
        ensures position { result.position ≡ place_after (entries_seen hold.new colour) begun.now.id outcome }
    {
        let by = hold.passes.number;
        let pass = &mut hold.passes.items[colour as usize];
        let settled = settle_in(
            rt,
            &self.board,
            self.column(colour),
            pass,
            &mut hold.seat,
            by,
            begun,
            outcome,
        );
        let event = matches!(settled.at, At::Event(_));
        self.behind(rt, &mut hold.desks, colour, by, event);
        settled
    }

    /// How many open entries the colour's column has with a key below, and the append of the least of them, of which the
    /// hold then knows, as it knows its mark there.
    pub fn below<R: Wait>(&self, rt: &R, hold: &mut Hold, colour: u8, key: Key) -> Below
        requires hold { IsHold self.now hold.old }
        requires colour { colour < self.now.board.size.colours }
        ensures hold { IsHold self.now hold.new }
        ensures others { SameBut colour hold.old hold.new }
        ensures same { IsLater hold.old.seat hold.new.seat × (hold.new.next ≡ hold.old.next) }
        ensures look { LooksIn colour hold.old hold.new (Look result.events) }
        ensures count { result.count
            ≡ length (filter (is_open_below key) (entries (entries_seen hold.new colour))) }
        ensures first_id { option_map (λ (b : BegunAppend). b.id) result.first
            ≡ option_map (λ (e : Standing). e.key.id)
            (find (is_open_below key) (entries (entries_seen hold.new colour))) }
        ensures known { IfSome result.first
            (λ b. KnowsAppend self.now hold.new b × (has b.colours colour ≡ true)) }
        ensures marked { IfSome result.first (IsMarkedOpen self.now.board.size colour (view_of hold.old)
            (view_of hold.new) (seen_in hold.new colour)) }
    {
        let by = hold.passes.number;
        let pass = &mut hold.passes.items[colour as usize];
        below_in(
            rt,
            &self.board,
            self.column(colour),
            pass,
            &mut hold.seat,
            by,
            key,
        )
    }
}
