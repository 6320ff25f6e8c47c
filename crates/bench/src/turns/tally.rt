//! A count of entries, beside the maker of the last one, and a load that makes the value as great as one likes.
ghost use Rattle.std.specs.Prelude.{◌≡◌, true, false, []};
ghost use Rattle.bench.specs.Tallies.{Stands, Gains};

use std::marker::Model;
use turn_cell::HasHistory;

/// How many entries were made, and the number of the pass that made the last one.
#[derive(Drop)]
pub struct Tally<P> {
    pub ballast: P,
    pub count: u64,
    pub last: Option<u8>,
}

impl<P> HasHistory for Tally<P> {
    type Entry = u8;

    type Tag = ();

    ghost use Rattle.bench.specs.Tallies.{Stands};

    ghost stands = { Stands };

    ghost by = { λ entry. entry };

    ghost newest = { λ tally. tally.last };

    ghost tag = { λ _. tt };

    fn count(&self) -> u64 {
        self.count
    }
}

impl<P> Tally<P> {
    /// A tally without entries.
    pub fn new(ballast: P) -> Tally<P>
        ensures { Stands result [] }
    {
        Tally {
            ballast,
            count: 0,
            last: None,
        }
    }

    /// Adds an entry, unless there are as many as a number can count.
    pub fn add(&mut self, by: u8) -> bool
        ensures added { result ≡ true → Gains self.old self.new by }
        ensures full { result ≡ false → self.new ≡ self.old }
    {
        match self.count.checked_add(1) {
            Some(count) => {
                self.count = count;
                self.last = Some(by);
                true
            }
            None => false,
        }
    }
}
