// The world of all columns and clients, and its steps.
ghost use Rattle.std.specs.Prelude.{◌≡◌, ◌<◌, ◌≤◌, true, None, map, replicate, length, IfOk, OnOk};
ghost use Rattle.std.specs.Prelude.{Some, OnErr};
ghost use Rattle.std.specs.List.{All, range_with_len};
ghost use Rattle.world_laws.specs.Worlds.{after, opened, reply, home_of};
ghost use Rattle.world_laws.specs.Worlds.{may_raise, after_raise};
ghost use Rattle.world_laws.specs.Laws.{IsReached};
ghost use Rattle.world_code.specs.WorldView.{world_of, client_at, column_at, fresh_columns};
ghost use Rattle.world_code.specs.Clients.{fresh_client};
ghost use Rattle.world_code.specs.Replies.{place_reply};

use crate::client::Client;
use crate::region::RegionColumns;
use crate::replies::{
    begun_reply, decided_reply, marked_reply, place_reply, placed_reply, played_reply,
};
use column::Column;
use log_node::{MAX_CLIENTS, MAX_COLOURS, MAX_ROWS, MAX_STAMP, Shape};
use skeen_core::Rows;
use std::alloc::{AllocError, Global};
use std::marker::Model;
use world_laws::{Reply, Step};

/// All clients, rows and columns of a shape.
#[derive(Drop)]
pub struct World {
    pub(crate) shape: Shape,
    pub(crate) clients: Vec<Client>,
    pub(crate) board: Rows,
    pub(crate) regions: Vec<RegionColumns>,
}

impl Model for World {
    ghost use Rattle.world_code.specs.WorldView.{WorldView};

    ghost Value = { WorldView };

    ghost use Rattle.world_code.specs.WorldView.{IsWhole};

    ghost view = { λ a. record {
      shape = a.shape;
      clients = a.clients.items;
      board = a.board;
      columns = a.regions.items;
    } };

    ghost invariant = { λ a. IsWhole (record {
      shape = a.shape;
      clients = a.clients.items;
      board = a.board;
      columns = a.regions.items;
    }) };
}

// The columns of all regions of a shape, with nothing in them.
fn fresh_regions(alloc: Global, shape: &Shape) -> Result<Vec<RegionColumns>, AllocError>
    requires regions { shape.now.regions ≤ 4 }
    requires colours { shape.now.colours ≤ MAX_COLOURS }
    ensures { IfOk result (λ regions. regions.items ≡
        map (λ region. fresh_columns region shape.now) (range_with_len 0 shape.now.regions)) }
{
    let mut regions = Vec::new(alloc);
    for region in 0..shape.regions {
        regions.push(RegionColumns::open(alloc, region, shape)?)?;
    }
    Ok(regions)
}

// So many clients that have used, seen and played nothing.
fn fresh_clients(alloc: Global, count: usize) -> Result<Vec<Client>, AllocError>
    ensures { IfOk result (λ clients. clients.items ≡ replicate count fresh_client) }
{
    let mut clients = Vec::new(alloc);
    for _ in 0..count {
        clients.push(Client::open(alloc)?)?;
    }
    Ok(clients)
}

impl World {
    /// How many regions, colours, clients and rows there are.
    pub fn shape(&self) -> &Shape
        ensures { result.now ≡ self.now.shape }
    {
        &self.shape
    }

    /// The world of a shape before the first step.
    pub fn open(alloc: Global, shape: Shape) -> Result<World, AllocError>
        requires regions { shape.regions ≤ 4 }
        requires colours { shape.colours ≤ MAX_COLOURS }
        requires homes { All (λ home. home < shape.regions) shape.homes }
        requires clients { length shape.homes ≤ MAX_CLIENTS }
        requires rows { shape.rows ≤ MAX_ROWS }
        ensures { IfOk result (λ world. world_of world ≡ opened shape) }
    {
        let regions = fresh_regions(alloc, &shape)?;
        let count = shape.homes.len();
        let clients = fresh_clients(alloc, count)?;
        let board = Rows::open(alloc, count as u8, shape.colours, shape.rows)?;
        Ok(World {
            shape,
            clients,
            board,
            regions,
        })
    }

    /// The column of a region and a colour.
    pub fn column(&self, region: u8, colour: u8) -> &Column
        requires region { region < self.now.shape.regions }
        requires colour { colour < self.now.shape.colours }
        ensures { result.now ≡ column_at self.now.columns region colour }
    {
        self.regions[region as usize].column(colour)
    }

    /// The client of a number.
    pub fn client(&self, client: u8) -> &Client
        requires { client < length self.now.shape.homes }
        ensures { result.now ≡ client_at self.now client }
    {
        &self.clients[client as usize]
    }

    // The region of a client.
    pub(crate) fn home(&self, client: u8) -> u8
        requires { client < length self.now.shape.homes }
        ensures { result ≡ home_of (world_of self.now) client }
    {
        match self.shape.homes.get(client as usize) {
            Some(home) => *home,
            None => unreachable!(),
        }
    }

    /// The column's clock is raised, where it is smaller and the number is a stamp.
    pub fn raise(
        &mut self,
        by: u8,
        region: u8,
        colour: u8,
        to: u64,
    ) -> Result<Option<u64>, AllocError>
        ensures ok { OnOk result (world_of self.new ≡ after (world_of self.old) (Step.Raise by region colour to)) }
        ensures reply { IfOk result (λ place.
            place_reply place ≡ reply (world_of self.old) (Step.Raise by region colour to)) }
        ensures err { OnErr result (self.new ≡ self.old) }
    {
        if region >= self.shape.regions || colour >= self.shape.colours {
            return Ok(None);
        }
        if to <= self.column(region, colour).clock() || to > MAX_STAMP {
            return Ok(None);
        }
        let place = self.add_raise(by, region, colour, to)?;
        Ok(Some(place))
    }

    // Adds the raise, which may be done.
    fn add_raise(&mut self, by: u8, region: u8, colour: u8, to: u64) -> Result<u64, AllocError>
        requires { may_raise (world_of self.old) region colour to ≡ true }
        ensures ok { OnOk result (world_of self.new ≡ after_raise (world_of self.old) by region colour to) }
        ensures place { IfOk result (λ place. place ≡ length ((world_of self.old).histories region colour)) }
        ensures err { OnErr result (self.new ≡ self.old) }
    {
        let place = self.regions[region as usize].raise(by, colour, to)?;
        Ok(place)
    }

    /// Does a step of any kind.
    pub fn step(&mut self, alloc: Global, step: Step) -> Result<Reply, AllocError>
        ensures ok { OnOk result (world_of self.new ≡ after (world_of self.old) step) }
        ensures reply { IfOk result (λ r. r ≡ reply (world_of self.old) step) }
        ensures err { OnErr result (world_of self.new ≡ world_of self.old) }
    {
        match step {
            Step::Begin {
                client,
                colours,
                text,
            } => Ok(begun_reply(self.begin(alloc, client, colours, text)?)),
            Step::Propose { by, row, colour } => Ok(placed_reply(self.propose(by, row, colour)?)),
            Step::Fence { row, colour, why } => Ok(marked_reply(self.fence(row, colour, why))),
            Step::Decide { row } => Ok(decided_reply(self.decide(row))),
            Step::Settle { by, row, colour } => Ok(place_reply(self.settle(by, row, colour))),
            Step::Single {
                client,
                colour,
                text,
            } => Ok(placed_reply(self.single(alloc, client, colour, text)?)),
            Step::Raise {
                by,
                region,
                colour,
                to,
            } => Ok(place_reply(self.raise(by, region, colour, to)?)),
            Step::Give {
                by,
                origin,
                region,
                colour,
                from,
            } => Ok(place_reply(self.give(by, origin, region, colour, from)?)),
            Step::Carry {
                by,
                origin,
                region,
                colour,
                start,
                count,
            } => Ok(place_reply(self.carry(alloc, by, origin, region, colour, start, count)?)),
            Step::Trim {
                by,
                region,
                colour,
                counts,
            } => Ok(place_reply(self.trim(by, region, colour, counts)?)),
            Step::Play { client, colour } => Ok(played_reply(self.play(client, colour))),
            Step::Seen { client, to } => {
                self.see(client, to);
                Ok(Reply::Nothing)
            }
        }
    }

    /// Steps have made this world, so the laws of all such worlds hold of it.
    pub fn agrees(&self)
        ensures { IsReached (world_of self.now) }
    {
        let _whole = &self.regions;
    }
}
