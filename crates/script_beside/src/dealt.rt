// A script whose commands have been dealt out.
use script_text::{Command, Script};

/// The commands of one client in the order of the file, in pieces of which each goes on behind the one before it.
pub type Share = Vec<Vec<Command>>;

/// A script whose commands have been dealt out to its clients.
#[derive(Drop)]
pub struct DealtScript {
    /// The script, without its commands.
    pub header: Script,
    /// Each client's share, by the client's number.
    pub shares: Vec<Share>,
    /// How many commands that may begin a row the client has that has most of them.
    pub begins: usize,
}
