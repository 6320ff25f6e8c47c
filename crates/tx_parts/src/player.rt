// A player of one colour of a transactional map.
ghost use Rattle.std.specs.Prelude.{◌≡◌, ◌≤◌, ◌∷◌, [], List, map, length, Some, None, slice_get, IfOk, IfErr, IfSome, OnOk};
ghost use Rattle.std.specs.List.{Contains};
ghost use Rattle.log_node.specs.declared.limits.TheConstants.{MAX_COLOURS};
ghost use Rattle.object_fold.specs.Nodes.{ObjectNode, object_nodes, shard_of};
ghost use Rattle.part_fold.specs.PartStates.{IsPart};
ghost use Rattle.lawful_run.specs.Asks.{rising};
ghost use Rattle.log_client.specs.Calls.{AnswersSync, IsExplained, SyncsAs};
ghost use Rattle.log_client.specs.Clients.{IsClient, Helps, own_line};
ghost use Rattle.log_client.specs.Objects.{HasColoursOf, GetRefused, RefusesAway};
ghost use Rattle.log_client.specs.Reading.{RestsOn};
ghost use Rattle.log_client.specs.StampedReads.{ReadHidden, ReadRefused};
ghost use Rattle.region_fold.specs.Reads.{ShowsEach};
ghost use Rattle.tx_parts.specs.Players.{IsPlayerOf, IsSamePlayer, Peeks, Shows};
ghost use Rattle.tx_parts.specs.Deciding.{DecideRefused, Decides, NamesPlays, ReadsOutcome, Rules, ShowsRead, StandsInOwn, refusal_of};

use crate::answers::{Decided, Peek};
use fuzzy_io::Gate;
use log_client::{Client, ObjectFault, StampedRead, Store, SyncFault, Synced, reads_go_on};
use log_node::{ColourList, Colours, Key, Text};
use object_fold::KeptLine;
use part_fold::{Decision, PartFold, RuledFold, write_decision};
use region_fold::RegionFold;
use std::alloc::{AllocError, Global};
use std::sync::Wait;

/// A player of one colour of a transactional map at a home region, for one client, with which all its calls are made. What is
/// folded of the colour's own line is kept, and of all colours what became of each transaction.
#[derive(Drop)]
pub struct PartPlayer {
    pub(crate) home: u8,
    pub(crate) colours: ColourList,
    pub(crate) colour: u8,
    /// Of the colour among the map's colours, counted from 0.
    pub(crate) place: u8,
    pub(crate) part: KeptLine<PartFold>,
    pub(crate) map: RegionFold<RuledFold>,
}

// Where a colour stands among colours.
fn place_of(colours: &[u8], colour: u8) -> usize
    requires { Contains colours.now colour }
    ensures { slice_get colours.now result ≡ Some colour }
{
    match colours.iter().position(|other| *other == colour) {
        Some(place) => place,
        None => unreachable!(),
    }
}

// What a part shows of a key.
fn shown(alloc: Global, part: &PartFold, key: &[u8]) -> Result<Peek, AllocError>
    ensures { (nodes : List ObjectNode) → IsPart part.now nodes
        → IfOk result (λ peek. Shows part.now.part key.now peek nodes) }
{
    if let Some(key) = part.undecided() {
        return Ok(Peek::Undecided { key });
    }
    match part.value(key) {
        Some(value) => Ok(Peek::Value(Some(Text::copied(alloc, value.as_bytes())?))),
        None => Ok(Peek::Value(None)),
    }
}

// How a decide is refused whose read was, or memory behind its first sync.
fn refusal_of(fault: SyncFault) -> ObjectFault
    ensures { result ≡ refusal_of fault }
{
    match fault {
        SyncFault::Trimmed { colour, base } => {
            ObjectFault::Sync(SyncFault::Trimmed { colour, base })
        }
        SyncFault::NoMemory => ObjectFault::NoMemory,
    }
}

impl PartPlayer {
    /// The player of this colour of a map of these colours at a home, of which nothing is folded. Takes no memory.
    pub fn open(alloc: Global, home: u8, colours: ColourList, colour: u8) -> PartPlayer
        requires colour { Contains colours colour }
        requires few { length colours ≤ MAX_COLOURS }
        ensures of { (result.home ≡ home) × (result.colours ≡ colours) × (result.colour ≡ colour) }
        ensures player { (client : Client) → HasColoursOf client colours → IsPlayerOf client result }
    {
        let place = place_of(colours.as_slice(), colour) as u8;
        let part = PartFold::open(alloc, place, colours.len() as u8);
        PartPlayer {
            home,
            colours,
            colour,
            place,
            part: KeptLine::new(part),
            map: RegionFold::open(alloc),
        }
    }

    /// How many colours the map was opened with.
    pub fn colour_count(&self) -> usize
        ensures { result ≡ length self.now.colours }
    {
        self.colours.len()
    }

    // Syncs the colour, where the client is of the home, and folds what is new of its line.
    fn play<R: Wait>(
        &mut self,
        rt: &R,
        alloc: Global,
        client: &mut Client,
        store: &Store,
    ) -> Result<Synced, ObjectFault>
        requires client { IsClient store.now client.old }
        requires player { IsPlayerOf client.old self.old }
        ensures client { RestsOn store.now client.old client.new }
        ensures idle { Helps client.new → Helps client.old }
        ensures player { IsPlayerOf client.new self.new }
        ensures same { IsSamePlayer self.old self.new }
        ensures map { self.new.map ≡ self.old.map }
        ensures part { OnOk result (IsPart self.new.part.state
            (object_nodes (own_line client.new self.old.colour))) }
        ensures ok { IfOk result (λ y. IsExplained store.now client.old client.new
            (SyncsAs client.new self.old.colour y)) }
        ensures played { IfOk result (AnswersSync client.old client.new self.old.colour) }
        ensures away { RefusesAway self.old.home client.old result }
        ensures err { IfErr result (GetRefused (Some self.old.home) store.now client.old client.new
            self.old.colour) }
    {
        reads_go_on();
        if client.region() != self.home {
            return Err(ObjectFault::NotHome { home: self.home });
        }
        match client.sync(rt, alloc, store, self.colour) {
            Ok(synced) => {
                let line = client.line(self.colour);
                match self.part.fold_to(alloc, line, line.len()) {
                    Ok(()) => Ok(synced),
                    Err(_) => Err(ObjectFault::NoMemory),
                }
            }
            Err(fault) => Err(ObjectFault::Sync(fault)),
        }
    }

    /// What the colour's own line tells of a key of its shard, after what the client then plays of this colour alone: the
    /// first transaction of which it is not known whether it commits, or else the key's value. Waits as a sync does; the
    /// gate is for appends alone.
    pub fn peek<R: Wait, G: Gate>(
        &mut self,
        rt: &R,
        alloc: Global,
        client: &mut Client,
        store: &Store,
        _gate: &G,
        key: &Text,
    ) -> Result<(Peek, Synced), ObjectFault>
        requires client { IsClient store.now client.old }
        requires player { IsPlayerOf client.old self.old }
        requires key { shard_of self.old.colours key.now ≡ self.old.colour }
        ensures client { RestsOn store.now client.old client.new }
        ensures idle { Helps client.new → Helps client.old }
        ensures player { IsPlayerOf client.new self.new }
        ensures same { IsSamePlayer self.old self.new }
        ensures ok { IfOk result (λ r. Peeks store.now client.old client.new self.old key.now r.0 r.1) }
        ensures played { IfOk result (λ r. AnswersSync client.old client.new self.old.colour r.1) }
        ensures away { RefusesAway self.old.home client.old result }
        ensures err { IfErr result (GetRefused (Some self.old.home) store.now client.old client.new
            self.old.colour) }
    {
        match self.play(rt, alloc, client, store) {
            Ok(synced) => match shown(alloc, &self.part.state, key.as_bytes()) {
                Ok(peek) => Ok((peek, synced)),
                Err(_) => Err(ObjectFault::NoMemory),
            },
            Err(fault) => Err(fault),
        }
    }

    // Reads all colours, and gives whether the transaction with this key commits.
    fn read_outcome<R: Wait>(
        &mut self,
        rt: &R,
        alloc: Global,
        client: &mut Client,
        store: &Store,
        key: Key,
    ) -> Result<(bool, StampedRead), SyncFault>
        requires client { IsClient store.now client.old }
        requires player { IsPlayerOf client.old self.old }
        ensures client { RestsOn store.now client.old client.new }
        ensures player { IsPlayerOf client.new self.new }
        ensures same { IsSamePlayer self.old self.new }
        ensures ok { IfOk result (λ r. ReadsOutcome store.now client.old client.new self.old.colours
            self.old.map.kept.last key r.0 r.1) }
        ensures shows { IfOk result (λ r. ShowsEach client.old client.new self.old.colours r.1) }
        ensures hidden { IfOk result (λ _. ReadHidden store.now client.old client.new
            (rising self.old.colours)) }
        ensures err { IfErr result (ReadRefused store.now client.old client.new
            (rising self.old.colours)) }
    {
        match self
            .map
            .read(rt, alloc, client, store, self.colours.as_slice())
        {
            // The transaction is among those that were read, so there is an outcome.
            Ok(read) => Ok((self.map.state().outcome(key).unwrap_or(false), read)),
            Err(fault) => Err(fault),
        }
    }

    // Decides on the transaction with this key, which waits in the own line that the client has played: the memory for the
    // decision's text is taken before its append.
    fn rule<R: Wait, G: Gate>(
        &mut self,
        rt: &R,
        alloc: Global,
        client: &mut Client,
        store: &Store,
        gate: &G,
        key: Key,
    ) -> Result<Decided, SyncFault>
        requires client { IsClient store.now client.old }
        requires player { IsPlayerOf client.old self.old }
        ensures client { RestsOn store.now client.old client.new }
        ensures player { IsPlayerOf client.new self.new }
        ensures same { IsSamePlayer self.old self.new }
        ensures ok { IfOk result (Rules store.now client.old client.new self.old.colours self.old.colour
            self.old.map.kept.last key) }
        ensures stands { IfOk result (StandsInOwn self.old.colour) }
        ensures shows { IfOk result (λ decided. ShowsEach client.old client.new self.old.colours
            decided.read) }
        ensures err { IfErr result (ReadRefused store.now client.old client.new
            (rising self.old.colours)) }
    {
        reads_go_on();
        let (commits, read) = self.read_outcome(rt, alloc, client, store, key)?;
        let Ok(text) = write_decision(alloc, &Decision { key, commits }) else {
            return Err(SyncFault::NoMemory);
        };
        let own = Colours::of(&[self.colour]);
        let appended = client.append(rt, alloc, store, gate, own, text, None);
        Ok(Decided {
            key,
            commits,
            read,
            appended,
        })
    }

    /// Decides on the first transaction of the colour's own line of which it is not known whether it commits, after what the
    /// client then plays of this colour; there may be none. A stamped read of all colours tells whether the transaction
    /// commits, and a node of this colour alone says so. Where memory is refused no node
    /// is left. Waits as a sync, a read and an append do.
    pub fn decide<R: Wait, G: Gate>(
        &mut self,
        rt: &R,
        alloc: Global,
        client: &mut Client,
        store: &Store,
        gate: &G,
    ) -> Result<(Synced, Option<Decided>), ObjectFault>
        requires client { IsClient store.now client.old }
        requires player { IsPlayerOf client.old self.old }
        ensures client { RestsOn store.now client.old client.new }
        ensures player { IsPlayerOf client.new self.new }
        ensures same { IsSamePlayer self.old self.new }
        ensures ok { IfOk result (λ r. Decides store.now client.old client.new self.old r.0 r.1) }
        ensures stands { IfOk result (λ r. IfSome r.1 (StandsInOwn self.old.colour)) }
        ensures shows { IfOk result (λ r. IfSome r.1 (ShowsRead self.old.colours)) }
        ensures played { IfOk result (λ r. NamesPlays client.old client.new self.old r.0 r.1) }
        ensures away { RefusesAway self.old.home client.old result }
        ensures err { IfErr result (DecideRefused store.now client.old client.new self.old) }
    {
        let synced = self.play(rt, alloc, client, store)?;
        match self.part.state.undecided() {
            Some(key) => match self.rule(rt, alloc, client, store, gate, key) {
                Ok(decided) => Ok((synced, Some(decided))),
                Err(fault) => Err(refusal_of(fault)),
            },
            None => Ok((synced, None)),
        }
    }
}
