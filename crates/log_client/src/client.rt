// A client.
use crate::opening::fresh_track;
use crate::track::Track;
use chain_store::Hold;
use log_node::{Item, Node};
use playback::Snapshot;
use std::alloc::Global;
use std::sync::Arc;

/// A client of a store, which acts from a thread of its own: its holds of all regions, the greatest stamp that it has seen
/// on its own nodes, on played nodes and of its stamped reads, how many ids it has used, what it has played of each colour
/// of its region, and the nodes of its begun rows.
#[derive(Drop)]
pub struct Client {
    pub(crate) number: u8,
    pub(crate) region: u8,
    pub(crate) holds: Vec<Hold>,
    pub(crate) floor: u64,
    pub(crate) count: u64,
    pub(crate) tracks: Vec<Track>,
    pub(crate) rows: Vec<Arc<Node>>,
}

impl Client {
    ghost use Rattle.std.specs.Prelude.{◌≡◌, ◌<◌, ◌≤◌, length};
    ghost use Rattle.log_client.specs.declared.store.Store.{Store};
    ghost use Rattle.log_client.specs.Calls.{IsOfColumn};
    ghost use Rattle.log_client.specs.Clients.{IsClient, tracks_of, starts_of, played_of, own_line};
    ghost use Rattle.log_client.specs.Forgetting.{HasForgotten};

    /// The client's number.
    pub fn number(&self) -> u8
        ensures { result ≡ self.now.number }
    {
        self.number
    }

    /// The client's region.
    pub fn region(&self) -> u8
        ensures { result ≡ self.now.region }
    {
        self.region
    }

    /// All nodes of the colour that the client has played, in the order in which it played them.
    pub fn played(&self, colour: u8) -> &[Item]
        requires { colour < length (tracks_of self.now) }
        ensures { result.now ≡ played_of self.now colour }
    {
        self.tracks[colour as usize].nodes.as_slice()
    }

    /// Of the nodes of the colour that the client has played the own line of its region, by position.
    pub fn line(&self, colour: u8) -> &[Item]
        requires { colour < length (tracks_of self.now) }
        ensures { result.now ≡ own_line self.now colour }
    {
        self.tracks[colour as usize].line.as_slice()
    }

    /// The snapshot of the client's last sync of the colour that was not refused; all zeros before.
    pub fn snapshot(&self, colour: u8) -> Snapshot
        requires { colour < length (tracks_of self.now) }
        ensures counts { result.counts ≡ starts_of self.now colour }
        ensures column { (store : Store) → IsClient store self.now → IsOfColumn self.now colour result }
    {
        self.tracks[colour as usize].snapshot
    }

    /// The nodes of the client's begun rows, in order.
    pub fn rows(&self) -> &[Arc<Node>]
        ensures { result.now ≡ self.now.rows.items }
    {
        self.rows.as_slice()
    }

    /// Gives back the memory of what the client has played, for one that plays no more: it is as if it had played nothing.
    pub fn forget_played(&mut self, alloc: Global)
        requires { length (tracks_of self.old) ≤ 255 }
        ensures { HasForgotten self.old self.new }
    {
        for colour in 0..self.tracks.len() {
            self.tracks[colour] = fresh_track(alloc, self.region, colour as u8);
        }
    }
}
