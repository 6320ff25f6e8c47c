// Which commands may begin a row, and how many of each client's may.
ghost use Rattle.std.specs.Prelude.{◌≡◌, ◌+◌, ◌<◌, ◌≤◌, ◌^◌, ℕ, length, map, slice_index, replicate, Vec, IfOk};
ghost use Rattle.std.specs.Global.{Global as TheGlobal};
ghost use Rattle.script_text.specs.declared.script.Command.{Command as Asked};
ghost use Rattle.script_beside.specs.Begins.{may_take_row, begins_in, AreAdded, IsGreatest};

use script_text::{Command, NodeOf, What};
use std::alloc::{AllocError, Global};

// Whether what a client asks may begin a row.
fn may_take_row(what: &What) -> bool
    ensures { result ≡ may_take_row what.now }
{
    match what.node_of() {
        NodeOf::NoNode => false,
        NodeOf::OneColour => false,
        NodeOf::Named { colours } => colours.count() > 1,
        NodeOf::Several => true,
    }
}

// How many of the commands may begin a row.
fn begins_in(commands: &[Command]) -> usize
    ensures { result ≡ begins_in commands.now }
{
    let mut count = 0;
    for command in commands {
        if may_take_row(&command.what) {
            count += 1;
        }
    }
    count
}

/// How many commands of each list may begin a row.
pub fn counts_of(alloc: Global, lists: &[Vec<Command>]) -> Result<Vec<usize>, AllocError>
    ensures { IfOk result (λ counts. counts.items ≡ map (λ (list : Vec Asked TheGlobal). begins_in list.items) lists.now) }
{
    let mut counts = Vec::with_capacity(alloc, lists.len())?;
    for list in lists {
        counts.push(begins_in(list.as_slice()))?;
    }
    Ok(counts)
}

/// This many counts, each 0.
pub fn no_counts(alloc: Global, count: usize) -> Result<Vec<usize>, AllocError>
    ensures { IfOk result (λ counts. counts.items ≡ replicate count 0) }
{
    Vec::from_elem(alloc, 0, count)
}

/// Adds to each count the one of the same number.
pub fn add_each(counts: &mut Vec<usize>, more: &[usize])
    requires many { length more.now ≤ length counts.old.items }
    requires small { (n : ℕ) → n < length more.now → slice_index counts.old.items n + slice_index more.now n < 2 ^ 64 }
    ensures { AreAdded more.now counts.old.items counts.new.items }
{
    for (number, count) in more.iter().enumerate() {
        counts[number] += *count;
    }
}

/// The greatest of the counts; 0 where there are none.
pub fn greatest(counts: &[usize]) -> usize
    ensures { IsGreatest counts.now result }
{
    let mut most = 0;
    for count in counts {
        most = most.max(*count);
    }
    most
}
