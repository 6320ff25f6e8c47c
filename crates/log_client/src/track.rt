// What a client has played of a colour.
use crate::played::PlayedNodes;
use playback::Snapshot;

/// What a client has played of a colour: the snapshot of its last sync, all zeros before; the nodes of all syncs; and of
/// these the own line of the client's region, by position.
#[derive(Drop)]
pub struct Track {
    pub snapshot: Snapshot,
    pub nodes: PlayedNodes,
    pub line: PlayedNodes,
}
