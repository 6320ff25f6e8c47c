// What clients of a store tell one another.
ghost use Rattle.std.specs.Prelude.{◌≡◌, ◌<◌, length, IfOk, OnErr};
ghost use Rattle.chain_store.specs.declared.region.Region.{Region};
ghost use Rattle.log_client.specs.Fits.{HaveGoneOn};
ghost use Rattle.log_client.specs.Ending.{AreHoldsIn};
ghost use Rattle.log_client.specs.Clients.{IsClient, Finished, Helps, holds_of};
ghost use Rattle.log_client.specs.Growing.{HasGrown};
ghost use Rattle.log_client.specs.Notes.{AreNotes, IsNoteOf, TellsAll, KnowSame, HearAll, TellsSeen, HearsSeen};
ghost use Rattle.log_client.specs.Calls.{DidNothing, IsSame};

use crate::client::Client;
use crate::store::Store;
use chain_store::{Hold, HoldNote, Region};
use std::alloc::{AllocError, Global};

/// What a client has seen of all regions, for another client to hear.
#[derive(Drop)]
pub struct Note {
    pub(crate) holds: Vec<HoldNote>,
}

// A note of each hold, by region.
fn tell_all(
    alloc: Global,
    regions: &[Region],
    holds: &mut Vec<Hold>,
) -> Result<Vec<HoldNote>, AllocError>
    requires { AreHoldsIn regions.now holds.old.items }
    ensures holds { AreHoldsIn regions.now holds.new.items × KnowSame holds.old.items holds.new.items }
    ensures notes { IfOk result (λ notes. AreNotes regions.now notes.items × TellsAll holds.old.items notes.items) }
{
    let mut notes = Vec::new(alloc);
    for number in 0..regions.len() {
        let note = regions[number].tell(alloc, &mut holds[number])?;
        notes.push(note)?;
    }
    Ok(notes)
}

// Each hold hears its region's note: the last region first.
fn hear_all(regions: &[Region], holds: &mut Vec<Hold>, mut notes: Vec<HoldNote>)
    requires holds { AreHoldsIn regions.now holds.old.items }
    requires notes { AreNotes regions.now notes.items }
    ensures holds { AreHoldsIn regions.now holds.new.items }
    ensures heard { HearAll holds.old.items notes.items holds.new.items }
{
    while let Some(note) = notes.pop() {
        let number = notes.len();
        regions[number].hear(&mut holds[number], note);
    }
}

impl Client {
    /// A note that tells what the client has seen. Does not wait.
    pub fn tell(&mut self, alloc: Global, store: &Store) -> Result<Note, AllocError>
        requires client { IsClient store.now self.old }
        ensures client { IsClient store.now self.new }
        ensures same { IsSame self.old self.new }
        ensures goes { HaveGoneOn (holds_of self.old) (holds_of self.new) }
        ensures grows { HasGrown self.old self.new }
        ensures finished { Finished self.old → Finished self.new }
        ensures idle { Helps self.new → Helps self.old }
        ensures nothing { DidNothing store.now self.old self.new }
        ensures note { IfOk result (λ note. IsNoteOf store.now note × TellsSeen self.old note) }
    {
        let holds = tell_all(alloc, store.regions.as_slice(), &mut self.holds)?;
        Ok(Note { holds })
    }

    /// The client has then seen, in every region, what it had and what the note tells. Does not wait.
    pub fn hear(&mut self, store: &Store, note: Note)
        requires client { IsClient store.now self.old }
        requires note { IsNoteOf store.now note }
        ensures client { IsClient store.now self.new }
        ensures same { IsSame self.old self.new }
        ensures goes { HaveGoneOn (holds_of self.old) (holds_of self.new) }
        ensures grows { HasGrown self.old self.new }
        ensures finished { Finished self.old → Finished self.new }
        ensures idle { Helps self.new → Helps self.old }
        ensures nothing { DidNothing store.now self.old self.new }
        ensures hears { HearsSeen self.old note self.new }
    {
        let Note { holds } = note;
        hear_all(store.regions.as_slice(), &mut self.holds, holds);
    }
}
