// The map of several keys.
ghost use Rattle.std.specs.Prelude.{◌≡◌, ◌<◌, ◌≤◌, length, Some, None, IfOk, IfErr, OnOk, OnErr};
ghost use Rattle.std.specs.List.{All};
ghost use Rattle.std.specs.Option.{option_copied};
ghost use Rattle.log_node.specs.Sets.{members};
ghost use Rattle.object_form.specs.Forms.{ArePairs, form_text};
ghost use Rattle.object_fold.specs.Folds.{last_after};
ghost use Rattle.lawful_run.specs.Asks.{shards, keys_of_pairs};
ghost use Rattle.log_client.specs.Calls.{AnswersEach};
ghost use Rattle.log_client.specs.Clients.{IsClient};
ghost use Rattle.log_client.specs.Reading.{RestsOn, raised_colours, synced_colours};
ghost use Rattle.log_client.specs.Objects.{HasColoursOf, StandsIn, PutRefused, RefusesAway};
ghost use Rattle.atomic_map.specs.Colours.{AreFew};
ghost use Rattle.atomic_map.specs.Writes.{value_left};
ghost use Rattle.atomic_map.specs.Several.{CanGoOn, IsAtomicMapOf, IsFolded, IsSameMap, HasSameLast, GetsAll, GetAllRefused, Opens, latest_in, values_by_lines, values_in};

use crate::line_fold::{fold_on, later_write};
use crate::line_writes::{LastWrite, LineWrites};
use fuzzy_io::Gate;
use log_client::{
    Appended, Client, ObjectFault, StampedRead, Store, copied_pairs, key_shards, pair_shards,
};
use log_node::{ColourList, Colours, Form, Item, Key, Keys, ListOf, MAX_COLOURS, Pairs, Text};
use object_fold::{KeptLine, Values};
use std::alloc::{AllocError, Global};
use std::sync::Wait;

/// A map at a home region whose keys are put and got several at a time, for one client, with which all its calls are made. What
/// is folded of each colour's line is kept, and the key of the last node that was answered.
#[derive(Drop)]
pub struct AtomicMap {
    pub(crate) home: u8,
    pub(crate) colours: ColourList,
    pub(crate) lines: Vec<KeptLine<LineWrites>>,
    pub(crate) last: Option<Key>,
}

fn key_of(item: &Item) -> Key
    ensures { result ≡ item.now.head.key }
{
    item.head.key
}

// The last key after what a read answered.
fn last_after(last: Option<Key>, read: &StampedRead) -> Option<Key>
    ensures { result ≡ last_after last read.now.items }
{
    match read.items.as_slice().last() {
        Some(item) => Some(key_of(item)),
        None => last,
    }
}

impl AtomicMap {
    /// The map of these colours at a home, of which nothing is folded. Takes no memory.
    pub fn open(alloc: Global, home: u8, colours: ColourList) -> AtomicMap
        ensures of { (result.home ≡ home) × (result.colours ≡ colours) × (result.last ≡ None) }
        ensures map { (client : Client) → HasColoursOf client colours → IsAtomicMapOf client result }
    {
        AtomicMap {
            home,
            colours,
            lines: Vec::new(alloc),
            last: None,
        }
    }

    /// Puts values under several keys: one node stands in the colours of all their shards. Waits as an append does.
    pub fn put_all<R: Wait, G: Gate>(
        &mut self,
        rt: &R,
        alloc: Global,
        client: &mut Client,
        store: &Store,
        gate: &G,
        pairs: &Pairs,
    ) -> Result<Appended, ObjectFault>
        requires client { IsClient store.now client.old }
        requires map { IsAtomicMapOf client.old self.old }
        requires pairs { ArePairs 4 pairs.now }
        ensures client { RestsOn store.now client.old client.new }
        ensures map { IsAtomicMapOf client.new self.new }
        ensures same { self.new ≡ self.old }
        ensures ok { IfOk result (StandsIn store.now client.old client.new
            (shards self.old.colours (keys_of_pairs pairs.now)) (form_text (Form.PutAll pairs.now))) }
        ensures away { RefusesAway self.old.home client.old result }
        ensures err { IfErr result (PutRefused (Some self.old.home) store.now client.old client.new
            (shards self.old.colours (keys_of_pairs pairs.now)) (form_text (Form.PutAll pairs.now))) }
    {
        if client.region() != self.home {
            return Err(ObjectFault::NotHome { home: self.home });
        }
        let Ok(copy) = copied_pairs(alloc, pairs.as_slice()) else {
            return Err(ObjectFault::NoMemory);
        };
        let set = pair_shards(self.colours.as_slice(), pairs.as_slice());
        client.append_form(rt, alloc, store, gate, set, Form::PutAll { pairs: copy })
    }

    // Lines for all colours, of which nothing is folded where they are new.
    fn open_lines(&mut self, alloc: Global) -> Result<(), AllocError>
        requires { AreFew self.old.colours }
        ensures opens { Opens self.old self.new }
        ensures all { OnOk result (MAX_COLOURS ≤ length self.new.lines.items) }
    {
        for _place in self.lines.len()..MAX_COLOURS as usize {
            let copy = Vec::from_slice(alloc, self.colours.as_slice())?;
            let line = LineWrites::open(alloc, ListOf::from(copy));
            self.lines.push(KeptLine::new(line))?;
        }
        Ok(())
    }

    // Folds on over what the client holds of these colours up to a stamp. Without memory the lines have come a part of the way.
    fn fold_on(
        &mut self,
        alloc: Global,
        client: &Client,
        set: Colours,
        stamp: u64,
    ) -> Result<(), AllocError>
        requires map { IsAtomicMapOf client.now self.old }
        requires lines { MAX_COLOURS ≤ length self.old.lines.items }
        requires goes { All (CanGoOn client.now self.old stamp) (members set) }
        ensures same { HasSameLast self.old self.new }
        ensures map { IsAtomicMapOf client.now self.new }
        ensures lines { length self.new.lines.items ≡ length self.old.lines.items }
        ensures whole { OnOk result (All (IsFolded client.now self.new stamp) (members set)) }
    {
        for colour in set.members() {
            fold_on(
                &mut self.lines[colour as usize],
                alloc,
                client.line(colour),
                stamp,
            )?;
        }
        Ok(())
    }

    // The last write of a key in the lines of these colours.
    fn latest(&self, set: Colours, key: &[u8]) -> Option<&LastWrite>
        requires { All (λ colour. colour < length self.now.lines.items) (members set) }
        ensures { option_copied result ≡ latest_in self.now.lines.items (members set) key.now }
    {
        let mut latest = None;
        for colour in set.members() {
            latest = later_write(latest, self.lines[colour as usize].state.get(key));
        }
        latest
    }

    // The value that it leaves.
    fn value(&self, alloc: Global, set: Colours, key: &[u8]) -> Result<Option<Text>, AllocError>
        requires { All (λ colour. colour < length self.now.lines.items) (members set) }
        ensures { IfOk result (λ value.
            value ≡ value_left (latest_in self.now.lines.items (members set) key.now)) }
    {
        match self.latest(set, key) {
            None => Ok(None),
            Some(write) => match &write.value {
                None => Ok(None),
                Some(value) => Ok(Some(Text::copied(alloc, value.as_bytes())?)),
            },
        }
    }

    // The values of keys by the lines of these colours.
    fn values(&self, alloc: Global, set: Colours, keys: &Keys) -> Result<Values, AllocError>
        requires { All (λ colour. colour < length self.now.lines.items) (members set) }
        ensures many { IfOk result (λ values. length values ≡ length keys.now) }
        ensures values { IfOk result (λ values.
            values ≡ values_in self.now.lines.items (members set) keys.now) }
    {
        let mut values = ListOf::new(alloc);
        for key in keys.as_slice() {
            let value = self.value(alloc, set, key.as_bytes())?;
            values.push(value)?;
        }
        Ok(values)
    }

    // The values of keys after the nodes that a stamped read of these colours had: their lines fold on.
    fn values_read(
        &mut self,
        alloc: Global,
        client: &Client,
        set: Colours,
        read: &StampedRead,
        keys: &Keys,
    ) -> Result<Values, AllocError>
        requires map { IsAtomicMapOf client.now self.old }
        requires goes { All (CanGoOn client.now self.old read.now.stamp) (members set) }
        ensures same { HasSameLast self.old self.new }
        ensures map { IsAtomicMapOf client.now self.new }
        ensures many { IfOk result (λ values. length values ≡ length keys.now) }
        ensures values { IfOk result (λ values. values
            ≡ values_by_lines client.now self.old.colours (members set) read.now.stamp keys.now) }
    {
        self.open_lines(alloc)?;
        self.fold_on(alloc, client, set, read.stamp)?;
        self.values(alloc, set, keys)
    }

    /// The values of keys after all nodes of their shards up to the stamp of a stamped read of these; of its nodes it answers
    /// those that come behind the last key, which is that of the last node that an earlier call answered. Waits as the read does;
    /// the gate is for appends alone.
    pub fn get_all<R: Wait, G: Gate>(
        &mut self,
        rt: &R,
        alloc: Global,
        client: &mut Client,
        store: &Store,
        _gate: &G,
        keys: &Keys,
    ) -> Result<(Values, StampedRead), ObjectFault>
        requires client { IsClient store.now client.old }
        requires map { IsAtomicMapOf client.old self.old }
        requires some { 0 < length keys.now }
        ensures client { RestsOn store.now client.old client.new }
        ensures map { IsAtomicMapOf client.new self.new }
        ensures same { IsSameMap self.old self.new }
        ensures ok { IfOk result (λ r. GetsAll store.now client.old client.new
            self.old.colours self.old.last keys.now r.0 r.1) }
        ensures many { IfOk result (λ r. length r.0 ≡ length keys.now) }
        ensures last { IfOk result (λ r. self.new.last ≡ last_after self.old.last r.1.items) }
        ensures stays { OnErr result (self.new.last ≡ self.old.last) }
        ensures raises { IfOk result (λ r.
            raised_colours r.1.raises ≡ shards self.old.colours keys.now) }
        ensures syncs { IfOk result (λ r.
            synced_colours r.1.syncs ≡ shards self.old.colours keys.now) }
        ensures played { IfOk result (λ r. AnswersEach client.old client.new r.1.syncs) }
        ensures away { RefusesAway self.old.home client.old result }
        ensures err { IfErr result (GetAllRefused self.old.home store.now client.old client.new
            (shards self.old.colours keys.now)) }
    {
        if client.region() != self.home {
            return Err(ObjectFault::NotHome { home: self.home });
        }
        let set = key_shards(self.colours.as_slice(), keys.as_slice());
        match client.read_on(rt, alloc, store, set, self.last) {
            Ok(read) => match self.values_read(alloc, client, set, &read, keys) {
                Ok(values) => {
                    self.last = last_after(self.last, &read);
                    Ok((values, read))
                }
                Err(_) => Err(ObjectFault::NoMemory),
            },
            Err(fault) => Err(ObjectFault::Sync(fault)),
        }
    }
}
