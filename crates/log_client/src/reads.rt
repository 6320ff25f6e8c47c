// Stamped reads.
ghost use Rattle.std.specs.Prelude.{◌≡◌, ◌<◌, ◌≤◌, None, IfErr, IfOk, OnErr, OnOk, length};
ghost use Rattle.std.specs.List.{All};
ghost use Rattle.log_node.specs.declared.ids.Row.{Row};
ghost use Rattle.log_node.specs.declared.limits.TheConstants.{MAX_STAMP};
ghost use Rattle.log_node.specs.Sets.{members};
ghost use Rattle.col_core.specs.History.{clock};
ghost use Rattle.stamp_board.specs.Seats.{IsLater};
ghost use Rattle.chain_store.specs.Going.{GoesOn};
ghost use Rattle.chain_store.specs.Holds.{IsHold, entries_seen, view_of};
ghost use Rattle.chain_store.specs.Rows.{OneNode};
ghost use Rattle.append_core.specs.Helping.{HelpsOpen};
ghost use Rattle.log_client.specs.Fits.{HaveGoneOn};
ghost use Rattle.log_client.specs.Clients.{IsClient, Finished, Helps, holds_of, seen_of, tracks_of};
ghost use Rattle.log_client.specs.Growing.{HasGrown};
ghost use Rattle.log_client.specs.Calls.{AnswersEach, DidNothing, IsExplained, IsSame, RaisesAs};
ghost use Rattle.log_client.specs.Appends.{AreColoursOf};
ghost use Rattle.log_client.specs.Reading.{RestsOn, KeepsAll, IsChosen, RaisesOne, RaisesAll, RaisesFirst, IsCleared, AreCleared, SyncsEach, SyncsFirst, home_seen, key_above, raised_colours, synced_colours};
ghost use Rattle.log_client.specs.StampedReads.{CanBeNamed, HoldsUpTo, IsAboveSeen, ReadsOn, ReadsAll, ReadHidden, ReadRefused};

use crate::answers::{Raised, StampedRead, Synced};
use crate::client::Client;
use crate::faults::SyncFault;
use crate::merging::items_read;
use crate::store::Store;
use append_core::clear;
use chain_store::{Hold, Region};
use lawful_run::read_items_last;
use log_node::{At, Colours, Id, Key, MAX_STAMP, Row};
use std::alloc::{AllocError, Global};
use std::sync::Wait;

// The least key above a stamp.
fn key_above(stamp: u64) -> Key
    requires { stamp ≤ MAX_STAMP }
    ensures { result ≡ key_above stamp }
{
    Key {
        stamp: stamp + 1,
        id: Id {
            client: 0,
            count: 0,
        },
    }
}

// Clears the columns of these colours of what is open up to the stamp. What the client's seat loads of the board at the end
// shows that each row which it knows is of one node: so it helped no append of its own.
fn clear_all<R: Wait>(rt: &R, region: &Region, hold: &mut Hold, colours: Colours, stamp: u64)
    requires hold { IsHold region.now hold.old }
    requires colours { All (λ colour. colour < region.now.board.size.colours) (members colours) }
    requires stamp { stamp ≤ MAX_STAMP }
    requires reached { All (λ colour. stamp ≤ clock (entries_seen hold.old colour)) (members colours) }
    ensures hold { IsHold region.now hold.new }
    ensures seat { IsLater hold.old.seat hold.new.seat }
    ensures next { hold.new.next ≡ hold.old.next }
    ensures goes { GoesOn (λ c e. HelpsOpen hold.old hold.new e) hold.old hold.new }
    ensures clear { All (λ colour. IsCleared stamp (entries_seen hold.new colour)) (members colours) }
    ensures one { (row : Row) → OneNode (view_of hold.new) row }
{
    for colour in colours.members() {
        clear(rt, region, hold, colour, key_above(stamp));
    }
    let first = Row {
        client: 0,
        number: 0,
    };
    let _last = region.last(hold, first);
}

impl Client {
    // The clock of a colour's column of the client's region.
    fn clock<R: Wait>(&mut self, rt: &R, store: &Store, colour: u8) -> u64
        requires client { IsClient store.now self.old }
        requires colour { colour < store.now.size.colours }
        ensures rests { RestsOn store.now self.old self.new }
        ensures tracks { tracks_of self.new ≡ tracks_of self.old }
        ensures keeps { KeepsAll store.now self.old self.new }
        ensures clock { result ≡ clock (home_seen self.new colour) }
    {
        let region = store.region(self.region);
        let hold = &mut self.holds[self.region as usize];
        let (_at, clock) = region.clock(rt, hold, colour);
        clock
    }

    // The greatest of the client's floor and the clocks of these colours' columns.
    fn read_stamp<R: Wait>(&mut self, rt: &R, store: &Store, colours: Colours) -> u64
        requires client { IsClient store.now self.old }
        requires colours { AreColoursOf store.now colours }
        ensures rests { RestsOn store.now self.old self.new }
        ensures tracks { tracks_of self.new ≡ tracks_of self.old }
        ensures keeps { KeepsAll store.now self.old self.new }
        ensures floor { self.old.floor ≤ result }
        ensures in_range { result ≤ MAX_STAMP }
        ensures above { All (λ colour. clock (home_seen self.old colour) ≤ result) (members colours) }
        ensures chosen { IsChosen self.old self.new (members colours) result }
    {
        let mut stamp = self.floor;
        for colour in colours.members() {
            stamp = self.clock(rt, store, colour).max(stamp);
        }
        stamp
    }

    // Raises the clock of a colour's column to the stamp, where it is not there already.
    fn raise_to<R: Wait>(
        &mut self,
        rt: &R,
        store: &Store,
        colour: u8,
        stamp: u64,
    ) -> Result<At, AllocError>
        requires client { IsClient store.now self.old }
        requires colour { colour < store.now.size.colours }
        requires stamp { stamp ≤ MAX_STAMP }
        ensures rests { RestsOn store.now self.old self.new }
        ensures tracks { tracks_of self.new ≡ tracks_of self.old }
        ensures idle { Helps self.new → Helps self.old }
        ensures ok { IfOk result (RaisesOne store.now self.old self.new stamp colour) }
        ensures err { OnErr result (KeepsAll store.now self.old self.new) }
    {
        let region = store.region(self.region);
        let hold = &mut self.holds[self.region as usize];
        match region.raise(rt, hold, colour, stamp) {
            Ok(at) => Ok(at),
            Err(fault) => Err(fault),
        }
    }

    /// Raises the clock of the colour's column of the client's region to the stamp, where it is not there already: no node
    /// that is appended to the colour in this region later gets a stamp up to it. A stamp is a number without a unit, from 0 to
    /// `MAX_STAMP`; a column whose clock is at `MAX_STAMP` takes no append any more, and no clock is ever lowered. Answers
    /// the place of the raise in the column's history, or after how many events the clock is there already. Waits for one
    /// turn of the column. Memory alone is refused, and nothing is done then.
    pub fn raise<R: Wait>(
        &mut self,
        rt: &R,
        store: &Store,
        colour: u8,
        stamp: u64,
    ) -> Result<At, AllocError>
        requires client { IsClient store.now self.old }
        requires colour { colour < store.now.size.colours }
        requires stamp { stamp ≤ MAX_STAMP }
        ensures client { IsClient store.now self.new }
        ensures same { IsSame self.old self.new }
        ensures goes { HaveGoneOn (holds_of self.old) (holds_of self.new) }
        ensures grows { HasGrown self.old self.new }
        ensures plays { tracks_of self.new ≡ tracks_of self.old }
        ensures finished { Finished self.old → Finished self.new }
        ensures idle { Helps self.new → Helps self.old }
        ensures reached { OnOk result (stamp ≤ clock (seen_of self.new self.new.region colour)) }
        ensures ok { IfOk result (λ at. IsExplained store.now self.old self.new (RaisesAs stamp colour at)) }
        ensures err { OnErr result (DidNothing store.now self.old self.new) }
    {
        match self.raise_to(rt, store, colour, stamp) {
            Ok(at) => Ok(at),
            Err(fault) => Err(fault),
        }
    }

    // Raises the clocks of these colours' columns to the stamp.
    fn raise_all<R: Wait>(
        &mut self,
        rt: &R,
        alloc: Global,
        store: &Store,
        colours: Colours,
        stamp: u64,
    ) -> Result<Vec<Raised>, AllocError>
        requires client { IsClient store.now self.old }
        requires colours { AreColoursOf store.now colours }
        requires stamp { stamp ≤ MAX_STAMP }
        ensures rests { RestsOn store.now self.old self.new }
        ensures tracks { tracks_of self.new ≡ tracks_of self.old }
        ensures colours { IfOk result (λ raises. raised_colours raises.items ≡ members colours) }
        ensures ok { IfOk result (λ raises. RaisesAll store.now self.old self.new stamp raises.items) }
        ensures err { OnErr result (RaisesFirst store.now self.old self.new stamp (members colours)) }
    {
        let mut raises = Vec::new(alloc);
        for colour in colours.members() {
            let at = self.raise_to(rt, store, colour, stamp)?;
            raises.push(Raised { colour, at })?;
        }
        Ok(raises)
    }

    // Clears the columns of these colours, whose clocks are at the stamp, of what is open up to it.
    fn clear_up_to<R: Wait>(&mut self, rt: &R, store: &Store, colours: Colours, stamp: u64)
        requires client { IsClient store.now self.old }
        requires colours { AreColoursOf store.now colours }
        requires stamp { stamp ≤ MAX_STAMP }
        requires reached { All (λ colour. stamp ≤ clock (home_seen self.old colour)) (members colours) }
        ensures rests { RestsOn store.now self.old self.new }
        ensures tracks { tracks_of self.new ≡ tracks_of self.old }
        ensures keeps { KeepsAll store.now self.old self.new }
        ensures clear { AreCleared self.new stamp (members colours) }
    {
        let region = store.region(self.region);
        let hold = &mut self.holds[self.region as usize];
        clear_all(rt, region, hold, colours, stamp);
    }

    // Plays what the client has not played of these colours, whose columns are clear up to the stamp.
    fn sync_all<R: Wait>(
        &mut self,
        rt: &R,
        alloc: Global,
        store: &Store,
        colours: Colours,
    ) -> Result<Vec<Synced>, SyncFault>
        requires client { IsClient store.now self.old }
        requires colours { AreColoursOf store.now colours }
        ensures rests { RestsOn store.now self.old self.new }
        ensures played { IfOk result (λ syncs. AnswersEach self.old self.new syncs.items) }
        ensures ok { IfOk result (λ syncs. SyncsEach store.now self.old self.new (members colours) syncs.items) }
        ensures err { IfErr result (SyncsFirst store.now self.old self.new (members colours)) }
    {
        let mut syncs = Vec::new(alloc);
        for colour in colours.members() {
            match self.play_colour(rt, alloc, store, colour, false) {
                Ok((synced, _)) => match syncs.push(synced) {
                    Ok(()) => {}
                    Err(_) => return Err(SyncFault::NoMemory),
                },
                Err(fault) => return Err(fault),
            }
        }
        Ok(syncs)
    }

    /// A stamped read of these colours: the columns of the client's region are raised to one stamp, cleared of what is open
    /// up to it, and played. The items are the nodes of the own lines with stamps up to this one that come behind the last
    /// key, if there is one: so a caller that has folded the nodes up to that key goes on from there. No node with such a stamp comes
    /// into the lines afterwards. Where a play is refused, what was done before it stands. Waits for turns of the columns.
    pub fn read_on<R: Wait>(
        &mut self,
        rt: &R,
        alloc: Global,
        store: &Store,
        colours: Colours,
        last: Option<Key>,
    ) -> Result<StampedRead, SyncFault>
        requires client { IsClient store.now self.old }
        requires colours { AreColoursOf store.now colours }
        ensures client { IsClient store.now self.new }
        ensures same { IsSame self.old self.new }
        ensures goes { HaveGoneOn (holds_of self.old) (holds_of self.new) }
        ensures grows { HasGrown self.old self.new }
        ensures finished { Finished self.old → Finished self.new }
        ensures raises { IfOk result (λ read. raised_colours read.raises ≡ members colours) }
        ensures syncs { IfOk result (λ read. synced_colours read.syncs ≡ members colours) }
        ensures played { IfOk result (λ read. AnswersEach self.old self.new read.syncs) }
        ensures above { IfOk result (λ read. IsAboveSeen self.old (members colours) read.stamp) }
        ensures ok { IfOk result (ReadsOn store.now self.old self.new (members colours) last) }
        ensures held { IfOk result (λ read. All (HoldsUpTo self.new read.stamp) (members colours)) }
        ensures named { IfOk result (λ read. CanBeNamed read.items) }
        ensures hidden { IfOk result (λ read. ReadHidden store.now self.old self.new (members colours)) }
        ensures err { IfErr result (ReadRefused store.now self.old self.new (members colours)) }
    {
        read_items_last();
        let stamp = self.read_stamp(rt, store, colours);
        let Ok(raises) = self.raise_all(rt, alloc, store, colours, stamp) else {
            return Err(SyncFault::NoMemory);
        };
        self.clear_up_to(rt, store, colours, stamp);
        let syncs = self.sync_all(rt, alloc, store, colours)?;
        self.floor = stamp.max(self.floor);
        let Ok(items) = items_read(alloc, self.tracks.as_slice(), colours, last, stamp) else {
            return Err(SyncFault::NoMemory);
        };
        Ok(StampedRead {
            stamp,
            raises: raises.into(),
            syncs: syncs.into(),
            items,
        })
    }

    /// A stamped read of these colours, with all nodes of the own lines up to its stamp, each once, in rising key. Where a
    /// play is refused, what was done before it stands. Waits for turns of the columns.
    pub fn stamped_read<R: Wait>(
        &mut self,
        rt: &R,
        alloc: Global,
        store: &Store,
        colours: Colours,
    ) -> Result<StampedRead, SyncFault>
        requires client { IsClient store.now self.old }
        requires colours { AreColoursOf store.now colours }
        ensures client { IsClient store.now self.new }
        ensures same { IsSame self.old self.new }
        ensures goes { HaveGoneOn (holds_of self.old) (holds_of self.new) }
        ensures grows { HasGrown self.old self.new }
        ensures finished { Finished self.old → Finished self.new }
        ensures raises { IfOk result (λ read. raised_colours read.raises ≡ members colours) }
        ensures syncs { IfOk result (λ read. synced_colours read.syncs ≡ members colours) }
        ensures played { IfOk result (λ read. AnswersEach self.old self.new read.syncs) }
        ensures above { IfOk result (λ read. IsAboveSeen self.old (members colours) read.stamp) }
        ensures ok { IfOk result (ReadsAll store.now self.old self.new (members colours)) }
        ensures named { IfOk result (λ read. CanBeNamed read.items) }
        ensures err { IfErr result (ReadRefused store.now self.old self.new (members colours)) }
    {
        self.read_on(rt, alloc, store, colours, None)
    }
}
