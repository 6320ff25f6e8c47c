// A client who is served its commands.
ghost use Rattle.std.specs.Prelude.{◌≡◌, ◌≤◌, length, vec_capacity};
ghost use Rattle.script_beside.specs.Dealt.{share_commands};
ghost use Rattle.run_script.specs.Dealing.{AreFewCommands};
ghost use Rattle.run_script.specs.Served.{CanServe, IsServed, IsServedIfDone};

use crate::serving::answers::serve;
use crate::serving::opened::Opened;
use fuzzy_io::Gate;
use log_client::{Client, Store};
use report_text::ReplyLine;
use script_beside::Share;
use script_text::{Command, Object};
use std::alloc::Global;
use std::mem;
use std::sync::Wait;

/// A client, a slot for each object by number, in which it opens the object at its first command on it, the commands that it
/// is still to be served, in order, and the replies so far.
#[derive(Drop)]
pub struct Served {
    pub client: Client,
    pub objects: Vec<Option<Opened>>,
    pub commands: Share,
    pub replies: Vec<ReplyLine>,
    /// Whether it was served them: without memory for its replies it is served none.
    pub done: bool,
    /// Nothing: it keeps what threads write of two clients 128 bytes apart, so that no cache line has some of both, nor
    /// the one that is fetched with it, as `turn_cell` does with the words of its cells.
    pub apart: [u64; 16],
}

// How many commands there are in the pieces.
fn count(pieces: &[Vec<Command>]) -> usize
    requires { AreFewCommands pieces.now }
    ensures { result ≡ length (share_commands pieces.now) }
{
    let mut count = 0;
    for piece in pieces {
        count += piece.len();
    }
    count
}

// Serves a client that has room for its replies, and takes no memory but for what the commands do.
fn serve_in_room<R: Wait, G: Gate>(
    rt: &R,
    alloc: Global,
    store: &Store,
    objects: &[Object],
    gate: &G,
    served: &mut Served,
)
    requires can { CanServe store.now objects.now served.old }
    requires room { length (share_commands served.old.commands.items) ≤ vec_capacity served.old.replies }
    ensures { IsServed store.now objects.now served.old served.new }
{
    let commands = mem::replace(&mut served.commands, Vec::new(alloc));
    for command in commands.into_iter().flatten() {
        let reply = serve(
            rt,
            alloc,
            store,
            objects,
            gate,
            &mut served.client,
            &mut served.objects,
            command,
        );
        served.replies.push_reserved(reply);
    }
    served.objects = Vec::new(alloc);
    served.client.forget_played(alloc);
}

/// Serves a client all its commands, one after another, and then gives back here, on its own thread, what it has played
/// and what its objects have folded. The room for all replies it takes here too, before the first command; where there is no
/// memory for it, the client is served nothing.
pub fn serve_all<R: Wait, G: Gate>(
    rt: &R,
    alloc: Global,
    store: &Store,
    objects: &[Object],
    gate: &G,
    served: &mut Served,
)
    requires { CanServe store.now objects.now served.old }
    ensures { IsServedIfDone store.now objects.now served.old served.new }
{
    let Ok(replies) = Vec::with_capacity(alloc, count(served.commands.as_slice())) else {
        served.done = false;
        return;
    };
    served.replies = replies;
    serve_in_room(rt, alloc, store, objects, gate, served);
    served.done = true;
}
