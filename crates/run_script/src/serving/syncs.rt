// Syncs.
ghost use Rattle.std.specs.Prelude.{◌<◌};
ghost use Rattle.log_client.specs.Clients.{IsClient};
ghost use Rattle.run_script.specs.Serving.{ServesLog};

use log_client::{Client, Store, SyncFault};
use log_node::{Items, ListOf};
use report_text::{Answer, SyncPiece};
use script_text::What;
use std::alloc::Global;
use std::sync::Wait;

/// Plays what the client has not played of the colour, and shows the nodes.
pub fn sync<R: Wait>(
    rt: &R,
    alloc: Global,
    store: &Store,
    client: &mut Client,
    colour: u8,
) -> (Answer, Items)
    requires client { IsClient store.now client.old }
    requires colour { colour < store.now.size.colours }
    ensures { ServesLog store.now client.old client.new (What.Sync colour) result.0 result.1 }
{
    match client.sync_shown(rt, alloc, store, colour) {
        Ok((synced, nodes)) => {
            let sync = SyncPiece {
                colour,
                events: synced.events,
                counts: synced.snapshot.counts,
            };
            let plays = nodes.len() as u64;
            (Answer::Synced { sync, plays }, nodes)
        }
        Err(SyncFault::Trimmed { colour, base }) => {
            (Answer::Trimmed { colour, base }, ListOf::new(alloc))
        }
        Err(SyncFault::NoMemory) => (Answer::NoMemory, ListOf::new(alloc)),
    }
}
