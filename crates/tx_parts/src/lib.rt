//! A transactional map over a client, of which each colour is played by itself: what a colour's own line tells of its keys, and
//! decisions, by nodes of this colour, on the transactions on which the line waits.
#![tactic(auto)]

mod answers;
mod player;
mod players;

pub use answers::{Decided, Peek};
pub use player::PartPlayer;
pub use players::PartPlayers;
