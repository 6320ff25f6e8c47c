// A new region, and a hold for each client.
ghost use Rattle.std.specs.Prelude.{◌≡◌, ℕ, ◌<◌, ◌≤◌, length, Some, slice_get, IfOk};
ghost use Rattle.stamp_board.specs.Rows.{IsSize};
ghost use Rattle.stamp_board.specs.Seats.{AreFreshColumns, IsFreshColumn};
ghost use Rattle.ring_ends.specs.declared.rings.Rings.{Rings};
ghost use Rattle.ring_ends.specs.Rings.{names_of, IsForRegions};
ghost use Rattle.ring_ends.specs.NewRings.{AreUnused};
ghost use Rattle.chain_store.specs.Passes.{IsCellOf, tag_in};
ghost use Rattle.chain_store.specs.Regions.{rings_at};
ghost use Rattle.chain_store.specs.Desks.{AreSharesOf, IsShareOf};
ghost use Rattle.chain_store.specs.Tied.{AreTied, HaveRings};
ghost use Rattle.chain_store.specs.Openings.{AllGotNew, AreEmpty, Dealt, Got, HaveAll, Zipped};
ghost use Rattle.chain_store.specs.Opening.{size_of, AreNewHolds, AreNewEnds};

use crate::closed::Holds;
use crate::ends::open_column;
use crate::hold::{ColumnPasses, Hold};
use crate::read_view::copies::Copies;
use crate::read_view::desk::{Desk, Share};
use crate::region::Region;
use crate::seated::Seated;
use log_node::{MAX_COLOURS, MAX_REGIONS, Shape};
use ring_ends::{RingEnds, Rings};
use stamp_board::{Board, ColumnSeat, Seat};
use std::alloc::{AllocError, Global};
use turn_cell::{Cell, Pass};

// What a client has of the columns that are open so far.
#[derive(Drop)]
struct Client {
    passes: ColumnPasses,
    desks: Vec<Desk>,
}

impl Client {
    // The pass, and a desk with the pass of the copies, in front of those that there are.
    fn get(&mut self, pass: Pass<Seated>, copies: Pass<Copies>) -> Result<(), AllocError>
        ensures { IfOk result (λ _. Got self.old self.new pass copies) }
    {
        let desk = Desk {
            pass: copies,
            reader: None,
        };
        self.passes.items.insert(0, pass)?;
        self.desks.insert(0, desk)?;
        Ok(())
    }
}

// The clients, by number, with nothing yet.
fn fresh_clients(alloc: Global, clients: u8) -> Result<Vec<Client>, AllocError>
    ensures { IfOk result (λ all. (length all.items ≡ clients) × AreEmpty all.items) }
{
    let mut all = Vec::new(alloc);
    for number in 0..clients {
        let items = Vec::new(alloc);
        let desks = Vec::new(alloc);
        let passes = ColumnPasses { number, items };
        all.push(Client { passes, desks })?;
    }
    Ok(all)
}

// Each client gets the passes of its number.
fn deal(
    clients: &mut Vec<Client>,
    mut passes: Vec<Pass<Seated>>,
    mut copies: Vec<Pass<Copies>>,
) -> Result<(), AllocError>
    requires passes { length passes.items ≡ length clients.old.items }
    requires copies { length copies.items ≡ length clients.old.items }
    ensures { IfOk result (λ _. Dealt clients.old.items clients.new.items passes.items copies.items 0) }
{
    while let Some(pass) = passes.pop() {
        let number = passes.len();
        match copies.pop() {
            Some(other) => clients[number].get(pass, other)?,
            None => unreachable!(),
        }
    }
    Ok(())
}

// A column, and its copies: with one pass more than there are clients, which is the copies' own.
fn open_shared(
    alloc: Global,
    board: &Board,
    seat: ColumnSeat,
    region: u8,
    colour: u8,
    shape: &Shape,
    rings: Rings,
    clients: &mut Vec<Client>,
) -> Result<(Cell<Seated>, Share), AllocError>
    requires seat { IsFreshColumn board.now seat colour }
    requires region { region < shape.now.regions }
    requires colour { colour < MAX_COLOURS }
    requires regions { shape.now.regions ≤ MAX_REGIONS }
    requires rings { IsForRegions shape.now.regions rings }
    requires unused { AreUnused rings }
    requires clients { length clients.old.items ≡ board.now.size.clients }
    ensures cell { IfOk result (λ r. IsCellOf board.now region colour shape.now.regions r.0) }
    ensures rings { IfOk result (λ r. (tag_in r.0).rings ≡ names_of rings) }
    ensures share { IfOk result (λ r. IsShareOf r.0 r.1) }
    ensures clients { IfOk result (λ r. AllGotNew r.0 r.1 clients.old.items clients.new.items) }
{
    let count = board.clients();
    let (cell, passes) = open_column(alloc, board, seat, region, colour, shape, rings, count + 1)?;
    let mut passes = passes.into_vec();
    match passes.pop() {
        Some(own) => {
            let (share, copies) = Share::open(alloc, &cell, own, count)?;
            deal(clients, passes, copies.into_vec())?;
            Ok((cell, share))
        }
        None => unreachable!(),
    }
}

// The columns of a region and their copies, by colour, each with its ends of the rings: the last colour first.
fn open_columns(
    alloc: Global,
    board: &Board,
    mut seats: Vec<ColumnSeat>,
    mut ends: Vec<Rings>,
    region: u8,
    shape: &Shape,
    clients: &mut Vec<Client>,
) -> Result<(Vec<Cell<Seated>>, Vec<Share>), AllocError>
    requires seats { (length seats.items ≤ MAX_COLOURS) × AreFreshColumns board.now seats.items }
    requires ends { (length ends.items ≡ length seats.items) × AreNewEnds shape.now.regions ends.items }
    requires region { region < shape.now.regions }
    requires regions { shape.now.regions ≤ MAX_REGIONS }
    requires clients { (length clients.old.items ≡ board.now.size.clients) × AreEmpty clients.old.items }
    ensures cells { IfOk result (λ r.
        (length r.0.items ≡ length seats.items) × AreTied board.now region shape.now.regions r.0.items) }
    ensures rings { IfOk result (λ r. HaveRings ends.items r.0.items) }
    ensures shares { IfOk result (λ r. AreSharesOf r.0.items r.1.items) }
    ensures clients { IfOk result (λ r.
        (length clients.new.items ≡ board.now.size.clients) × HaveAll r.0.items r.1.items clients.new.items) }
{
    let mut cells = Vec::new(alloc);
    let mut shares = Vec::new(alloc);
    while let Some(seat) = seats.pop() {
        let colour = seats.len() as u8;
        match ends.pop() {
            Some(rings) => {
                let (cell, share) = open_shared(
                    alloc, board, seat, region, colour, shape, rings, clients,
                )?;
                cells.insert(0, cell)?;
                shares.insert(0, share)?;
            }
            None => unreachable!(),
        }
    }
    Ok((cells, shares))
}

// A hold of each client, of what it has of the columns and its seat.
fn zip(
    alloc: Global,
    mut clients: Vec<Client>,
    mut seats: Vec<Seat>,
) -> Result<Vec<Hold>, AllocError>
    requires { length clients.items ≡ length seats.items }
    ensures { IfOk result (λ holds. (length holds.items ≡ length seats.items) × Zipped clients.items seats.items 0 holds.items) }
{
    let mut holds = Vec::new(alloc);
    while let Some(seat) = seats.pop() {
        match clients.pop() {
            Some(client) => {
                let Client { passes, desks } = client;
                let hold = Hold {
                    passes,
                    seat,
                    next: 0,
                    desks,
                };
                holds.insert(0, hold)?;
            }
            None => unreachable!(),
        }
    }
    Ok(holds)
}

impl Region {
    /// The region of this number in a shape, with nothing in its columns and no row begun, and a hold for each client. The
    /// ends are those of its columns, by colour, through which nothing has gone.
    pub fn open(
        alloc: Global,
        region: u8,
        shape: &Shape,
        ends: RingEnds,
    ) -> Result<(Region, Holds), AllocError>
        requires region { region < shape.now.regions }
        requires regions { shape.now.regions ≤ MAX_REGIONS }
        requires size { IsSize (size_of shape.now) }
        requires ends { (length ends ≡ shape.now.colours) × AreNewEnds shape.now.regions ends }
        ensures region { IfOk result (λ r. (r.0.number ≡ region) × (r.0.regions ≡ shape.now.regions)) }
        ensures size { IfOk result (λ r. r.0.board.size ≡ size_of shape.now) }
        ensures rings { IfOk result (λ r. (colour : ℕ) (rings : Rings) → slice_get ends colour ≡ Some rings
            → rings_at r.0 colour ≡ names_of rings) }
        ensures holds { IfOk result (λ r. AreNewHolds r.0 r.1) }
    {
        let count = shape.homes.len() as u8;
        let (board, seats, column_seats) = Board::open(alloc, count, shape.colours, shape.rows)?;
        let mut clients = fresh_clients(alloc, count)?;
        let (columns, shares) = open_columns(
            alloc,
            &board,
            column_seats.into_vec(),
            ends.into_vec(),
            region,
            shape,
            &mut clients,
        )?;
        let holds = zip(alloc, clients, seats.into_vec())?;
        let region = Region {
            number: region,
            regions: shape.regions,
            board,
            columns,
            shares,
        };
        Ok((region, holds.into()))
    }
}
