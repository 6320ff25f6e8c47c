// The nodes that were carried from other regions.
ghost use Rattle.std.specs.Prelude.{◌≡◌, ◌<◌, ◌-◌, [], ◌∷◌, ◌++◌, length, map, drop, IfOk, OnOk, OnErr};
ghost use Rattle.std.specs.Prelude.{slice_index_or, slice_set};
ghost use Rattle.log_node.specs.Vectors.{at, all_regions};

use log_node::{Counts, Item};
use std::alloc::{AllocError, Global};
use std::marker::Model;

/// The carried nodes of one chain, in its order.
#[derive(Drop)]
pub(crate) struct Carried {
    items: Vec<Item>,
}

impl Model for Carried {
    ghost use Rattle.std.specs.Prelude.{List};
    ghost use Rattle.log_node.specs.Seen.{PlacedNode};

    ghost Value = { List PlacedNode };

    ghost view = { λ a. a.items.items };
}

impl Carried {
    // Without nodes.
    fn open(alloc: Global) -> Carried
        ensures { result ≡ [] }
    {
        Carried {
            items: Vec::new(alloc),
        }
    }

    // The nodes.
    fn as_slice(&self) -> &[Item]
        ensures { result.now ≡ self.now }
    {
        self.items.as_slice()
    }

    // These nodes come to the end.
    fn append(&mut self, items: &mut Vec<Item>) -> Result<(), AllocError>
        ensures ok { OnOk result (self.new ≡ self.old ++ items.old.items) }
        ensures left { OnOk result (items.new.items ≡ []) }
        ensures err { OnErr result ((self.new ≡ self.old) × (items.new.items ≡ items.old.items)) }
    {
        self.items.append(items)
    }

    // Without so many of the first ones.
    fn drop_front(&mut self, count: u64)
        ensures { self.new ≡ drop count self.old }
    {
        let below = (count as usize).min(self.items.len());
        drop(self.items.drain(..below));
    }
}

/// For each region the carried nodes of its chain that are kept.
#[derive(Drop)]
pub(crate) struct Copies {
    chains: Vec<Carried>,
}

impl Model for Copies {
    ghost use Rattle.std.specs.Prelude.{List};
    ghost use Rattle.log_node.specs.Seen.{PlacedNode};

    ghost Value = { List (List PlacedNode) };

    ghost view = { λ a. a.chains.items };
}

impl Copies {
    /// For each of four regions no nodes.
    pub(crate) fn open(alloc: Global) -> Result<Copies, AllocError>
        ensures { IfOk result (λ copies. copies ≡ [] ∷ [] ∷ [] ∷ [] ∷ []) }
    {
        let mut chains = Vec::new(alloc);
        chains.push(Carried::open(alloc))?;
        chains.push(Carried::open(alloc))?;
        chains.push(Carried::open(alloc))?;
        chains.push(Carried::open(alloc))?;
        Ok(Copies { chains })
    }

    /// The nodes of a region's chain.
    pub(crate) fn of(&self, region: u8) -> &[Item]
        requires { region < length self.now }
        ensures { result.now ≡ slice_index_or self.now region [] }
    {
        self.chains[region as usize].as_slice()
    }

    /// These nodes come to the end of a region's chain.
    pub(crate) fn append(&mut self, region: u8, items: &mut Vec<Item>) -> Result<(), AllocError>
        requires { region < length self.old }
        ensures ok { OnOk result
            (self.new ≡ slice_set self.old region (slice_index_or self.old region [] ++ items.old.items)) }
        ensures left { OnOk result (items.new.items ≡ []) }
        ensures err { OnErr result ((self.new ≡ self.old) × (items.new.items ≡ items.old.items)) }
    {
        self.chains[region as usize].append(items)
    }

    // Without so many of the first nodes of a region's chain.
    fn drop_front(&mut self, region: u8, count: u64)
        requires { region < length self.old }
        ensures { self.new ≡ slice_set self.old region (drop count (slice_index_or self.old region [])) }
    {
        self.chains[region as usize].drop_front(count);
    }

    /// Without the nodes below a base, where those below another one are dropped.
    pub(crate) fn drop_to(&mut self, old: Counts, base: Counts)
        requires { length self.old ≡ 4 }
        ensures { self.new ≡ map (λ region. drop (at base region - at old region) (slice_index_or self.old region []))
            all_regions }
    {
        self.drop_front(0, base.of_region(0).saturating_sub(old.of_region(0)));
        self.drop_front(1, base.of_region(1).saturating_sub(old.of_region(1)));
        self.drop_front(2, base.of_region(2).saturating_sub(old.of_region(2)));
        self.drop_front(3, base.of_region(3).saturating_sub(old.of_region(3)));
    }
}
