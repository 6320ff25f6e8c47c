// For each played node of one colour how many nodes of each chain it follows.
ghost use Rattle.std.specs.Prelude.{◌≡◌, ◌<◌, ◌==◌, length, max, if◌then◌else◌};
ghost use Rattle.log_node.specs.Vectors.{at, zeros};
ghost use Rattle.object_fold.specs.Pasts.{joined, at_once, last_past, past_of, past_chain};

use log_node::{Counts, ListOf};

/// How many regions a vector has numbers for.
const REGIONS: usize = 4;

// For each region the greater number.
fn joined(v: Counts, w: Counts) -> Counts
    ensures { result ≡ joined v w }
{
    Counts([
        v.0[0].max(w.0[0]),
        v.0[1].max(w.0[1]),
        v.0[2].max(w.0[2]),
        v.0[3].max(w.0[3]),
    ])
}

// The vector of the last node of a chain that is counted, zeros where none is.
fn last_past(pasts: &[ListOf<Counts>], counted: Counts, region: usize) -> Counts
    requires small { region < REGIONS }
    requires four { length pasts.now ≡ REGIONS }
    ensures { result ≡ last_past pasts.now counted region }
{
    let count = counted.0[region];
    if count == 0 {
        return Counts([0, 0, 0, 0]);
    }
    match pasts[region].get(count as usize - 1) {
        Some(past) => *past,
        None => Counts([0, 0, 0, 0]),
    }
}

/// How many nodes of each chain a node follows that follows these at once.
pub fn past_of(pasts: &[ListOf<Counts>], counted: Counts) -> Counts
    requires { length pasts.now ≡ REGIONS }
    ensures { result ≡ past_of pasts.now counted }
{
    let past = joined(counted, last_past(pasts, counted, 0));
    let past = joined(past, last_past(pasts, counted, 1));
    let past = joined(past, last_past(pasts, counted, 2));
    joined(past, last_past(pasts, counted, 3))
}

// A number of `at_once`.
fn number(own: usize, position: u64, needs: Counts, region: usize) -> u64
    requires { region < REGIONS }
    ensures { result ≡ (if region == own then max position (at needs region) else at needs region) }
{
    if region == own {
        position.max(needs.0[region])
    } else {
        needs.0[region]
    }
}

/// How many nodes of each chain a node at this place follows at once.
pub fn at_once(own: usize, position: u64, needs: Counts) -> Counts
    ensures { result ≡ at_once own position needs }
{
    Counts([
        number(own, position, needs, 0),
        number(own, position, needs, 1),
        number(own, position, needs, 2),
        number(own, position, needs, 3),
    ])
}
