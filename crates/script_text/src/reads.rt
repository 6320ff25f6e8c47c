// The reads that commits may use up.
ghost use Rattle.std.specs.Prelude.{◌≡◌, [], OnOk};
ghost use Rattle.script_text.specs.Reads.{same_read, holds, with_read, without_read, reads_after};

use crate::commands::What;
use crate::uses::{ReadUse, Use};
use std::alloc::{AllocError, Global};
use std::marker::Model;

/// A client's read of an object.
#[derive(Clone, Copy, Debug, PartialEq, Eq)]
pub struct HeldRead {
    pub client: u8,
    pub object: u8,
}

fn same_read(a: &HeldRead, b: &HeldRead) -> bool
    ensures { result ≡ same_read a.now b.now }
{
    a == b
}

fn remove_read(reads: &mut Vec<HeldRead>, read: HeldRead)
    ensures { reads.new.items ≡ without_read reads.old.items read }
{
    reads.retain(|other| !same_read(other, &read));
}

/// The reads that no commit has used up, each once.
#[derive(Drop)]
pub struct HeldReads {
    reads: Vec<HeldRead>,
}

impl Model for HeldReads {
    ghost use Rattle.std.specs.Prelude.{List};
    ghost use Rattle.script_text.specs.declared.reads.HeldRead.{HeldRead};

    ghost Value = { List HeldRead };

    ghost view = { λ a. a.reads.items };
}

impl HeldReads {
    /// No read is held.
    pub fn new(alloc: Global) -> HeldReads
        ensures { result ≡ [] }
    {
        HeldReads {
            reads: Vec::new(alloc),
        }
    }

    /// Whether this read is held: no commit has used it up yet.
    pub fn holds(&self, read: HeldRead) -> bool
        ensures { result ≡ holds self.now read }
    {
        self.reads.contains(&read)
    }

    fn add(&mut self, read: HeldRead) -> Result<(), AllocError>
        ensures { OnOk result (self.new ≡ with_read self.old read) }
    {
        if !self.holds(read) {
            self.reads.push(read)?;
        }
        Ok(())
    }

    fn use_up(&mut self, read: HeldRead)
        ensures { self.new ≡ without_read self.old read }
    {
        remove_read(&mut self.reads, read);
    }

    /// The reads after a command of the client.
    pub fn follow(&mut self, client: u8, what: &What) -> Result<(), AllocError>
        ensures { OnOk result (self.new ≡ reads_after self.old client what.now) }
    {
        match what.use_of() {
            Use::OfObject {
                object,
                read: ReadUse::Takes,
            } => self.add(HeldRead { client, object }),
            Use::OfObject {
                object,
                read: ReadUse::UsesUp,
            } => {
                self.use_up(HeldRead { client, object });
                Ok(())
            }
            _ => Ok(()),
        }
    }
}
