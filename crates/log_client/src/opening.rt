// A new store, and its clients.
ghost use Rattle.std.specs.Prelude.{◌≡◌, ◌<◌, ◌≤◌, length, IfOk};
ghost use Rattle.std.specs.List.{All};
ghost use Rattle.stamp_board.specs.Rows.{IsSize};
ghost use Rattle.chain_store.specs.Opening.{size_of};
ghost use Rattle.log_client.specs.Opening.{fresh_track, AreFreshTracks, AreClientsOfHomes, HaveNoHolds, DealtHolds, AreNewClients};

use crate::client::Client;
use crate::played::PlayedNodes;
use crate::store::Store;
use crate::track::Track;
use chain_store::{Hold, Region};
use log_node::{Counts, ListOf, MAX_CLIENTS, MAX_REGIONS, Shape};
use playback::Snapshot;
use ring_ends::make_rings;
use stamp_board::Size;
use std::alloc::{AllocError, Global};

/// Clients, by number.
pub type Clients = ListOf<Client>;

/// A track of a colour, on which nothing is played.
pub fn fresh_track(alloc: Global, region: u8, colour: u8) -> Track
    ensures { result ≡ fresh_track region colour }
{
    Track {
        snapshot: Snapshot {
            region,
            colour,
            counts: Counts([0; 4]),
        },
        nodes: PlayedNodes::new(alloc),
        line: PlayedNodes::new(alloc),
    }
}

// A track of each colour, on which nothing is played.
fn fresh_tracks(alloc: Global, region: u8, colours: u8) -> Result<Vec<Track>, AllocError>
    ensures { IfOk result (λ tracks. AreFreshTracks region colours tracks.items) }
{
    let mut tracks = Vec::new(alloc);
    for colour in 0..colours {
        tracks.push(fresh_track(alloc, region, colour))?;
    }
    Ok(tracks)
}

// A client of each home, which has no hold yet.
fn fresh_clients(alloc: Global, shape: &Shape) -> Result<Vec<Client>, AllocError>
    requires { length shape.now.homes ≤ MAX_CLIENTS }
    ensures fresh { IfOk result (λ clients. AreClientsOfHomes shape.now clients.items) }
    ensures holds { IfOk result (λ clients. HaveNoHolds clients.items) }
{
    let count = shape.homes.len() as u8;
    let mut clients = Vec::new(alloc);
    for number in 0..count {
        let region = shape.homes.as_slice()[number as usize];
        let tracks = fresh_tracks(alloc, region, shape.colours)?;
        clients.push(Client {
            number,
            region,
            holds: Vec::new(alloc),
            floor: 0,
            count: 0,
            tracks,
            rows: Vec::new(alloc),
        })?;
    }
    Ok(clients)
}

// Each client gets the hold of its number, behind those that it has: the last client first.
fn deal(clients: &mut Vec<Client>, mut holds: Vec<Hold>) -> Result<(), AllocError>
    requires { length holds.items ≡ length clients.old.items }
    ensures { IfOk result (λ _. DealtHolds clients.old.items clients.new.items holds.items 0) }
{
    while let Some(hold) = holds.pop() {
        let number = holds.len();
        clients[number].holds.push(hold)?;
    }
    Ok(())
}

impl Store {
    /// The store of a shape, with nothing in its columns and no row begun, and a client for each home.
    pub fn open(alloc: Global, shape: &Shape) -> Result<(Store, Clients), AllocError>
        requires regions { shape.now.regions ≤ MAX_REGIONS }
        requires size { IsSize (size_of shape.now) }
        requires homes { All (λ home. home < shape.now.regions) shape.now.homes }
        ensures size { IfOk result (λ r. r.0.size ≡ size_of shape.now) }
        ensures regions { IfOk result (λ r. length r.0.regions ≡ shape.now.regions) }
        ensures clients { IfOk result (λ r. AreNewClients shape.now r.0 r.1) }
    {
        let size = Size {
            clients: shape.homes.len() as u8,
            colours: shape.colours,
            rows: shape.rows,
        };
        let rings = make_rings(alloc, shape)?;
        let mut clients = fresh_clients(alloc, shape)?;
        let mut regions = Vec::new(alloc);
        for ends in rings.into_vec() {
            let number = regions.len() as u8;
            let (region, holds) = Region::open(alloc, number, shape, ends)?;
            deal(&mut clients, holds.into_vec())?;
            regions.push(region)?;
        }
        let store = Store {
            size,
            regions: regions.into(),
        };
        Ok((store, clients.into()))
    }
}
