// What is shown of a column, to which more may be added.
ghost use Rattle.std.specs.Prelude.{◌≡◌, ◌≤◌, ◌<◌, ◌-◌, [], ◌∷◌, ◌++◌, length, map, drop, IfOk, IfErr, OnOk, OnErr, slice_index_or};
ghost use Rattle.log_node.specs.Vectors.{all_regions, at, greater, zeros};
ghost use Rattle.chain_store.specs.Kept.{kept_items, HasRoom};
ghost use Rattle.chain_store.specs.Shown.{shown_view, merged, part, IsPart};

use crate::looks::Looked;
use col_core::{Chains, View};
use log_node::{Counts, Item, Items, ListOf};
use std::alloc::{AllocError, Global};
use std::collections::VecDeque;
use std::marker::Model;

/// The nodes of one chain that are kept, in its order. Contracts see them, and for how many more there is room.
#[derive(Drop)]
pub(crate) struct Chain {
    items: VecDeque<Item>,
}

impl Model for Chain {
    ghost use Rattle.std.specs.Prelude.{◌-◌};
    ghost use Rattle.std.specs.VecDeque.{deque_len, deque_capacity};
    ghost use Rattle.chain_store.specs.Kept.{Kept};

    ghost Value = { Kept };

    ghost view = { λ a. record { items = a.items.items; room = deque_capacity a.items - deque_len a.items } };
}

// Nodes once more, behind those that are there.
fn share_all(copies: &mut Vec<Item>, items: &[Item]) -> Result<(), AllocError>
    ensures { OnOk result (copies.new.items ≡ copies.old.items ++ items.now) }
{
    for item in items {
        copies.push(item.share()?)?;
    }
    Ok(())
}

impl Chain {
    // These nodes.
    fn of(items: Items) -> Chain
        ensures { result.items ≡ items }
    {
        Chain {
            items: VecDeque::from_vec(items.into_vec()),
        }
    }

    // Where its memory is from.
    fn allocator(&self) -> Global {
        *self.items.allocator()
    }

    // Room for so many more.
    fn reserve(&mut self, more: usize) -> Result<(), AllocError>
        ensures same { self.new.items ≡ self.old.items }
        ensures room { OnOk result (more ≤ self.new.room) }
    {
        self.items.reserve(more)
    }

    // Without so many of the first ones.
    fn drop_front(&mut self, count: u64)
        ensures items { self.new.items ≡ drop count self.old.items }
        ensures room { self.old.room ≤ self.new.room }
    {
        let count = (count as usize).min(self.items.len());
        for _ in 0..count {
            drop(self.items.pop_front());
        }
    }

    // Without so many of the first ones, and with more at the end, for which there is room. What stays is not touched.
    fn move_on(&mut self, count: u64, more: Items)
        requires { length more ≤ self.old.room }
        ensures { self.new.items ≡ drop count self.old.items ++ more }
    {
        self.drop_front(count);
        let mut more = VecDeque::from_vec(more.into_vec());
        if let Err(_) = self.items.append(&mut more) {
            unreachable!();
        }
    }

    // The nodes once more, without so many of the first ones.
    fn shared_from(&self, alloc: Global, count: u64) -> Result<Items, AllocError>
        ensures { IfOk result (λ items. items ≡ drop count self.now.items) }
    {
        let count = (count as usize).min(self.items.len());
        let (front, back) = self.items.as_slices();
        let mut copies = Vec::with_capacity(alloc, self.items.len() - count)?;
        share_all(&mut copies, &front[count.min(front.len())..])?;
        share_all(&mut copies, &back[count.saturating_sub(front.len())..])?;
        Ok(ListOf::from(copies))
    }
}

/// A view of a column from its base on: how many events it has, what may be played, from where on nodes are kept, and for
/// each region the nodes from there up to the cut.
#[derive(Drop)]
pub struct Shown {
    pub(crate) region: u8,
    pub(crate) colour: u8,
    pub(crate) events: u64,
    pub(crate) cut: Counts,
    pub(crate) base: Counts,
    chains: [Chain; 4],
}

// The chains of a view, each by itself.
fn each_of(chains: Chains) -> (Items, Items, Items, Items)
    requires { length chains ≡ 4 }
    ensures { chains ≡ result.0 ∷ result.1 ∷ result.2 ∷ result.3 ∷ [] }
{
    let mut chains = chains.into_vec();
    let first = chains.remove(0);
    let second = chains.remove(0);
    let third = chains.remove(0);
    (first, second, third, chains.remove(0))
}

// Room in each chain for more nodes.
fn reserve_each(chains: &mut [Chain; 4], more: &[Items]) -> Result<(), AllocError>
    requires { length more.now ≡ 4 }
    ensures same { kept_items chains.new ≡ kept_items chains.old }
    ensures room { OnOk result (HasRoom chains.new more.now) }
{
    chains[0].reserve(more[0].len())?;
    chains[1].reserve(more[1].len())?;
    chains[2].reserve(more[2].len())?;
    chains[3].reserve(more[3].len())
}

// How many nodes of a region's chain lie between a base and counts, none where those are below it.
fn between(base: Counts, counts: Counts, region: u8) -> u64
    requires { region < 4 }
    ensures { result ≡ at counts region - at base region }
{
    counts
        .of_region(region)
        .saturating_sub(base.of_region(region))
}

// Each chain without the nodes below a newer base, and with more at its end, for which there is room.
fn move_each(chains: &mut [Chain; 4], old: Counts, base: Counts, more: Chains)
    requires four { length more ≡ 4 }
    requires room { HasRoom chains.old more }
    ensures { kept_items chains.new ≡ map (λ region. drop (at base region - at old region)
        (slice_index_or (kept_items chains.old) region []) ++ slice_index_or more region []) all_regions }
{
    let (first, second, third, fourth) = each_of(more);
    chains[0].move_on(between(old, base, 0), first);
    chains[1].move_on(between(old, base, 1), second);
    chains[2].move_on(between(old, base, 2), third);
    chains[3].move_on(between(old, base, 3), fourth);
}

/// A view once more, with the same nodes.
pub(crate) fn shared(alloc: Global, view: &View) -> Result<View, AllocError>
    ensures { IfOk result (λ copy. copy ≡ view.now) }
{
    let items = shared_chains(alloc, view.items.as_slice())?;
    Ok(View {
        region: view.region,
        colour: view.colour,
        events: view.events,
        cut: view.cut,
        base: view.base,
        from: view.from,
        items,
    })
}

// The same nodes of each chain.
fn shared_chains(alloc: Global, chains: &[Items]) -> Result<Chains, AllocError>
    ensures { IfOk result (λ copies. copies ≡ chains.now) }
{
    let mut copies = Vec::with_capacity(alloc, chains.len())?;
    for items in chains {
        copies.push(shared_items(alloc, items.as_slice())?)?;
    }
    Ok(ListOf::from(copies))
}

// The same nodes of one.
fn shared_items(alloc: Global, items: &[Item]) -> Result<Items, AllocError>
    ensures { IfOk result (λ copies. copies ≡ items.now) }
{
    let mut copies = Vec::with_capacity(alloc, items.len())?;
    share_all(&mut copies, items)?;
    Ok(ListOf::from(copies))
}

impl Shown {
    /// What such a view shows that begins at its base.
    pub(crate) fn of(view: View) -> Shown
        requires four { length view.items ≡ 4 }
        requires from { view.from ≡ greater zeros view.base }
        ensures { shown_view result ≡ view }
    {
        let (first, second, third, fourth) = each_of(view.items);
        Shown {
            region: view.region,
            colour: view.colour,
            events: view.events,
            cut: view.cut,
            base: view.base,
            chains: [
                Chain::of(first),
                Chain::of(second),
                Chain::of(third),
                Chain::of(fourth),
            ],
        }
    }

    /// Takes in a view that goes on from the cut, and leaves out what lies below its base. Without memory nothing changes,
    /// and the view comes back.
    pub(crate) fn add(&mut self, view: View) -> Result<(), View>
        requires { length view.items ≡ 4 }
        ensures ok { OnOk result (shown_view self.new ≡ merged (shown_view self.old) view) }
        ensures err { IfErr result (λ v. (v ≡ view) × (shown_view self.new ≡ shown_view self.old)) }
    {
        if let Err(_) = reserve_each(&mut self.chains, view.items.as_slice()) {
            return Err(view);
        }
        move_each(&mut self.chains, self.base, view.base, view.items);
        self.region = view.region;
        self.colour = view.colour;
        self.events = view.events;
        self.cut = view.cut;
        self.base = view.base;
        Ok(())
    }

    /// The same where the view stays: its nodes are shared. Without memory nothing changes.
    pub(crate) fn add_shared(&mut self, view: &View) -> Result<(), AllocError>
        requires { length view.now.items ≡ 4 }
        ensures ok { OnOk result (shown_view self.new ≡ merged (shown_view self.old) view.now) }
        ensures err { OnErr result (shown_view self.new ≡ shown_view self.old) }
    {
        let copy = shared(self.chains[0].allocator(), view)?;
        match self.add(copy) {
            Ok(()) => Ok(()),
            Err(_copy) => Err(AllocError),
        }
    }

    // What a reader with these counts sees of a region's chain.
    fn chain_from(&self, alloc: Global, from: Counts, region: u8) -> Result<Items, AllocError>
        requires { region < 4 }
        ensures { IfOk result (λ items. items ≡ drop (at from region - at self.now.base region)
            (slice_index_or (kept_items self.now.chains) region [])) }
    {
        self.chains[region as usize].shared_from(alloc, between(self.base, from, region))
    }

    /// What a reader with these counts sees.
    pub(crate) fn look(&self, alloc: Global, from: Counts) -> Result<View, AllocError>
        ensures { IfOk result (λ v. v ≡ part (shown_view self.now) from) }
    {
        let mut items = Chains::with_capacity(alloc, 4)?;
        items.push(self.chain_from(alloc, from, 0)?)?;
        items.push(self.chain_from(alloc, from, 1)?)?;
        items.push(self.chain_from(alloc, from, 2)?)?;
        items.push(self.chain_from(alloc, from, 3)?)?;
        Ok(View {
            region: self.region,
            colour: self.colour,
            events: self.events,
            cut: self.cut,
            base: self.base,
            from: from.greater(self.base),
            items,
        })
    }

    /// What a reader sees who goes on from these counts; behind the base that is the base alone.
    pub(crate) fn look_on(&self, alloc: Global, from: Counts) -> Result<Looked, AllocError>
        ensures { IfOk result (IsPart (shown_view self.now) from) }
    {
        if !self.base.is_within(from) {
            return Ok(Looked::Behind { base: self.base });
        }
        Ok(Looked::On(self.look(alloc, from)?))
    }
}
