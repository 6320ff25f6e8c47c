// Lists of places, by number.
ghost use Rattle.std.specs.Prelude.{◌≡◌, ◌==◌, ◌<◌, ◌++◌, ◌∷◌, ℕ, [], IfOk, OnOk, length, if◌then◌else◌};
ghost use Rattle.walk_law.specs.PlaceTables.{AreOfClients, places_at};

use log_node::ListOf;
use script_text::Command;
use std::alloc::{AllocError, Global};
use std::marker::Model;

/// Lists of places, one for each of the first so many numbers. Contracts see the lists.
#[derive(Drop)]
pub(crate) struct PlaceLists {
    lists: Vec<ListOf<u64>>,
}

impl Model for PlaceLists {
    ghost use Rattle.std.specs.Prelude.{List, ℕ};

    ghost Value = { List (List ℕ) };

    ghost view = { λ l. l.lists.items };
}

impl PlaceLists {
    /// So many lists without a place.
    pub(crate) fn new(alloc: Global, count: usize) -> Result<PlaceLists, AllocError>
        ensures many { IfOk result (λ l. length l ≡ count) }
        ensures none { IfOk result (λ l. (number : ℕ) → places_at l number ≡ []) }
    {
        let mut lists = Vec::with_capacity(alloc, count)?;
        for _ in 0..count {
            lists.push(ListOf::new(alloc))?;
        }
        Ok(PlaceLists { lists })
    }

    /// The places under a number; none where no list has it.
    pub(crate) fn places(&self, number: u8) -> &[u64]
        ensures { result.now ≡ places_at self.now number }
    {
        match self.lists.get(number as usize) {
            Some(list) => list.as_slice(),
            None => &[],
        }
    }

    /// One more place under a number, where a list has it.
    pub(crate) fn add(&mut self, number: u8, place: u64) -> Result<(), AllocError>
        ensures many { OnOk result (length self.new ≡ length self.old) }
        ensures added { OnOk result ((other : ℕ) → other < length self.old → places_at self.new other
            ≡ (if other == number then places_at self.old other ++ place ∷ [] else places_at self.old other)) }
    {
        let at = number as usize;
        if at < self.lists.len() {
            self.lists[at].push(place)?;
        }
        Ok(())
    }
}

/// The places of commands, by client.
pub(crate) fn commands_by_client(
    alloc: Global,
    clients: usize,
    commands: &[Command],
) -> Result<PlaceLists, AllocError>
    ensures { IfOk result (AreOfClients clients commands.now) }
{
    let mut lists = PlaceLists::new(alloc, clients)?;
    for at in 0..commands.len() {
        lists.add(commands[at].client, at as u64)?;
    }
    Ok(lists)
}
