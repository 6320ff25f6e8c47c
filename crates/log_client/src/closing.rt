// The end of a store whose clients have all come back.
ghost use Rattle.std.specs.Prelude.{◌≡◌, length, map, IfOk};
ghost use Rattle.log_client.specs.Closing.{HaveEnded};
ghost use Rattle.log_client.specs.Leaving.{left_of, HaveHoldsLeft, GatheredHolds, AreLeaving};
ghost use Rattle.log_client.specs.Clients.{holds_of};
ghost use Rattle.log_client.specs.Closes.{AreClients, ClosesAsLog};

use crate::client::Client;
use crate::closed::{Closed, Leaving, RowNodes};
use crate::opening::Clients;
use crate::store::Store;
use chain_store::{ClosedRegion, Hold, Region, check_rings};
use log_node::ListOf;
use std::alloc::{AllocError, Global};
use std::sync::Wait;

// Each client's holds, and the nodes of its rows.
fn split_clients(
    alloc: Global,
    clients: Vec<Client>,
) -> Result<(Vec<Leaving>, Vec<RowNodes>), AllocError>
    ensures holds { IfOk result (λ r. map left_of r.0.items ≡ map holds_of clients.items) }
    ensures nodes { IfOk result (λ r. r.1.items ≡ map (λ c. c.rows.items) clients.items) }
{
    let mut holds = Vec::new(alloc);
    let mut nodes = Vec::new(alloc);
    for client in clients {
        let Client {
            number: _,
            region: _,
            holds: items,
            floor: _,
            count: _,
            tracks: _,
            rows,
        } = client;
        holds.push(Leaving { items })?;
        nodes.push(ListOf::from(rows))?;
    }
    Ok((holds, nodes))
}

// The last hold of each client.
fn gather(alloc: Global, clients: &mut Vec<Leaving>) -> Result<Vec<Hold>, AllocError>
    requires { HaveHoldsLeft clients.old.items }
    ensures { IfOk result (λ holds. GatheredHolds clients.old.items clients.new.items holds.items (length clients.old.items)) }
{
    let mut holds = Vec::new(alloc);
    for i in 0..clients.len() {
        let client = &mut clients[i];
        match client.items.pop() {
            Some(hold) => holds.push(hold)?,
            None => unreachable!(),
        }
    }
    Ok(holds)
}

// The regions' ends, each with the holds of all clients: the last region first.
fn close_regions<R: Wait>(
    rt: &R,
    alloc: Global,
    mut regions: Vec<Region>,
    mut clients: Vec<Leaving>,
) -> Result<Vec<ClosedRegion>, AllocError>
    requires { AreLeaving regions.items clients.items }
    ensures { IfOk result (λ ends. HaveEnded regions.items (map left_of clients.items) ends.items) }
{
    let mut ends = Vec::new(alloc);
    while let Some(region) = regions.pop() {
        let holds = gather(alloc, &mut clients)?;
        ends.insert(0, region.close(rt, alloc, holds.into())?)?;
    }
    Ok(ends)
}

impl Store {
    /// The end of the store, once all its clients have come back. Waits for each column's turn. Where memory is refused, the
    /// store and its clients are gone.
    pub fn close<R: Wait>(
        self,
        rt: &R,
        alloc: Global,
        clients: Clients,
    ) -> Result<Closed, AllocError>
        requires { AreClients self clients }
        ensures { IfOk result (ClosesAsLog self clients) }
    {
        let Store { size, regions } = self;
        let (holds, nodes) = split_clients(alloc, clients.into_vec())?;
        let mut ends = close_regions(rt, alloc, regions.into_vec(), holds)?;
        let count = ends.len() as u8;
        check_rings(&mut ends, count, size.colours);
        Ok(Closed {
            regions: ends.into(),
            nodes: nodes.into(),
        })
    }
}
