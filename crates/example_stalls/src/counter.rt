// A counter of the nodes that bear a name.
ghost use Rattle.std.specs.Prelude.{◌≡◌, length};
ghost use Rattle.example_stalls.specs.Stalls.{CountsFirst, IsNewCounter};

use log_node::{Item, Text};

/// How many nodes bear the name, among the first ones that a client has played.
#[derive(Drop)]
pub struct Counter {
    name: Text,
    count: u64,
    folded: usize,
}

impl Counter {
    /// Nothing is folded yet.
    pub fn new(name: Text) -> Counter
        ensures { IsNewCounter name result }
    {
        Counter {
            name,
            count: 0,
            folded: 0,
        }
    }

    /// The name that is counted.
    pub fn name(&self) -> &Text
        ensures { result.now ≡ self.now.name }
    {
        &self.name
    }

    /// How many of the folded nodes bear the name.
    pub fn count(&self) -> u64
        ensures { result ≡ self.now.count }
    {
        self.count
    }

    /// Folds on to the end: of these nodes the first ones are folded, and are not looked at again.
    pub fn fold_on(&mut self, nodes: &[Item])
        requires first { CountsFirst self.old nodes.now }
        ensures first { CountsFirst self.new nodes.now }
        ensures all { self.new.folded ≡ length nodes.now }
        ensures name { self.new.name ≡ self.old.name }
    {
        for place in self.folded..nodes.len() {
            if nodes[place].node().text.as_bytes() == self.name.as_bytes() {
                self.count += 1;
            }
            self.folded = place + 1;
        }
    }
}
