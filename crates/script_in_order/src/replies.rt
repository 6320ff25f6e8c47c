// The replies to one client, and what its reads of objects found.
ghost use Rattle.std.specs.Prelude.{◌≡◌, ◌<◌, IfOk, None, length};
ghost use Rattle.script_in_order.specs.Runs.{no_replies, with_reply, found_at, with_read_found};

use log_node::{ListOf, Versions};
use report_text::ReplyLine;
use std::alloc::{AllocError, Global};
use std::marker::Model;
use std::mem;

/// The replies to a client so far, and by object what its last read found, until a commit uses that up. Room for all
/// replies is taken when the list is made.
#[derive(Drop)]
pub struct Replies {
    items: Vec<ReplyLine>,
    reads: Vec<Option<Versions>>,
}

impl Model for Replies {
    ghost use Rattle.std.specs.Prelude.{◌-◌, vec_len, vec_capacity};
    ghost use Rattle.script_in_order.specs.Runs.{RepliesView};

    ghost Value = { RepliesView };

    ghost view = { λ a. record {
      lines = a.items.items;
      room = vec_capacity a.items - vec_len a.items;
      reads = a.reads.items;
    } };
}

impl Replies {
    /// No replies yet, with memory for this many; and no read of this many objects.
    pub fn new(alloc: Global, room: usize, objects: usize) -> Result<Replies, AllocError>
        ensures { IfOk result (λ replies. replies ≡ no_replies room objects) }
    {
        let mut reads = Vec::new(alloc);
        for _ in 0..objects {
            reads.push(None)?;
        }
        Ok(Replies {
            items: Vec::with_capacity(alloc, room)?,
            reads,
        })
    }

    /// One reply more, for which there is memory.
    pub fn add(&mut self, reply: ReplyLine)
        requires { 0 < self.old.room }
        ensures { self.new ≡ with_reply self.old reply }
    {
        self.items.push_reserved(reply);
    }

    /// Takes what the last read of an object found.
    pub fn take_read(&mut self, object: u8) -> Option<Versions>
        requires { object < length self.old.reads }
        ensures value { result ≡ found_at self.old.reads object }
        ensures reads { self.new ≡ with_read_found self.old object None }
    {
        mem::replace(&mut self.reads[object as usize], None)
    }

    /// Keeps what a read of an object found.
    pub fn keep_read(&mut self, object: u8, found: Option<Versions>)
        requires { object < length self.old.reads }
        ensures { self.new ≡ with_read_found self.old object found }
    {
        self.reads[object as usize] = found;
    }

    /// Takes the replies out as a list; takes no memory.
    pub fn take(&mut self, alloc: Global) -> ListOf<ReplyLine>
        ensures { result ≡ self.old.lines }
    {
        ListOf::from(mem::replace(&mut self.items, Vec::new(alloc)))
    }
}
