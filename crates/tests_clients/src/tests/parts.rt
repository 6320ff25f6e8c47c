// Transactions that are played by one colour.
ghost use Rattle.std.specs.Prelude.{◌≡◌, ◌%◌, IfOk};
ghost use Rattle.tests_clients.specs.Stores.{IsSmall, IsPartOf};
ghost use Rattle.log_client.specs.Clients.{IsClient};
ghost use Rattle.tx_parts.specs.Players.{IsPlayerOf};

use crate::tests::made::{opened, two_colours};
use crate::tests::shown::{Row, is_value, shows, stands_at};
use fuzzy_io::OpenGate;
use log_client::{Client, ObjectFault, Store, SyncFault, Synced};
use log_node::{At, Colours, Text};
use std::alloc::{AllocError, Global};
use std::process::Abort;
use std::sync::Wait;
use std::test::Fail;
use tx_parts::{Decided, PartPlayer, Peek};

// A client with its player of a colour of the map of both colours.
#[derive(Drop)]
struct Teller {
    client: Client,
    part: PartPlayer,
}

// A decision: the stamp of its transaction, whether that commits, the events and own counts of the sync, the read, and where
// its node stands: its stamp, event and position.
struct Step {
    stamp: u64,
    commits: bool,
    sync: (u64, u64),
    read: Row,
    own: (u64, u64, u64),
}

const FIRST: Step = Step {
    stamp: 1,
    commits: true,
    sync: (4, 2),
    read: Row {
        stamp: 2,
        raises: [At::Look(4), At::Look(4)],
        syncs: [(4, 2), (4, 2)],
        texts: &["t:a@-|a=1,b=2", "t:a@-|b=8"],
    },
    own: (3, 4, 2),
};

const SECOND: Step = Step {
    stamp: 2,
    commits: false,
    sync: (5, 3),
    read: Row {
        stamp: 3,
        raises: [At::Look(5), At::Event(4)],
        syncs: [(5, 3), (5, 2)],
        texts: &["z:1.0.0=1"],
    },
    own: (4, 5, 3),
};

// The sync looked at so many events, and has so many own nodes.
fn looks(rt: &impl Abort, synced: &Synced, wanted: (u64, u64)) {
    assert_eq!(rt;
        (synced.events, synced.snapshot.counts.of_region(0)),
        wanted
    );
}

// The peek shows this value.
fn has_value(rt: &impl Abort, peek: &Peek, wanted: &[u8]) {
    match peek {
        Peek::Value(value) => is_value(rt, value, wanted),
        Peek::Undecided { key: _key } => assert!(rt; false, "undecided"),
    }
}

// The decision is that of a step.
fn is_step(rt: &impl Abort, decided: &Decided, step: &Step) {
    assert_eq!(rt;
        (decided.key.stamp, decided.commits),
        (step.stamp, step.commits)
    );
    shows(rt, &decided.read, &step.read);
    match &decided.appended {
        Ok(own) => {
            let (stamp, place, position) = step.own;
            stands_at(rt, own, stamp, None, &[(0, place, position)]);
        }
        Err(_) => assert!(rt; false, "no node"),
    }
}

impl Teller {
    // What the own line tells of the key of one letter, after this sync.
    fn peeks<R: Wait + Abort>(
        &mut self,
        rt: &R,
        alloc: Global,
        store: &Store,
        key: u8,
        sync: (u64, u64),
    ) -> Result<Peek, Fail>
        requires client { IsClient store.now self.old.client }
        requires player { IsPlayerOf self.old.client self.old.part }
        requires part { IsPartOf (key % 2) self.old.part }
        ensures client { IsClient store.now self.new.client }
        ensures player { IsPlayerOf self.new.client self.new.part }
        ensures part { IsPartOf (key % 2) self.new.part }
    {
        let key = Text::copied(alloc, &[key])?;
        let (peek, synced) = self
            .part
            .peek(rt, alloc, &mut self.client, store, &OpenGate, &key)?;
        looks(rt, &synced, sync);
        Ok(peek)
    }

    // It waits for the transaction with this stamp.
    fn waits<R: Wait + Abort>(
        &mut self,
        rt: &R,
        alloc: Global,
        store: &Store,
        stamp: u64,
        sync: (u64, u64),
    ) -> Result<(), Fail>
        requires client { IsClient store.now self.old.client }
        requires player { IsPlayerOf self.old.client self.old.part }
        requires part { IsPartOf 0 self.old.part }
        ensures client { IsClient store.now self.new.client }
        ensures player { IsPlayerOf self.new.client self.new.part }
        ensures part { IsPartOf 0 self.new.part }
    {
        let peek = self.peeks(rt, alloc, store, b'b', sync)?;
        assert!(rt; matches!(peek, Peek::Undecided { key } if key.stamp == stamp));
        Ok(())
    }

    // The decision on the first transaction that waits is that of the step.
    fn decides<R: Wait + Abort>(
        &mut self,
        rt: &R,
        alloc: Global,
        store: &Store,
        step: &Step,
    ) -> Result<(), Fail>
        requires client { IsClient store.now self.old.client }
        requires player { IsPlayerOf self.old.client self.old.part }
        requires part { IsPartOf 0 self.old.part }
        ensures client { IsClient store.now self.new.client }
        ensures player { IsPlayerOf self.new.client self.new.part }
        ensures part { IsPartOf 0 self.new.part }
    {
        let (synced, decided) = self
            .part
            .decide(rt, alloc, &mut self.client, store, &OpenGate)?;
        looks(rt, &synced, step.sync);
        match decided {
            Some(decided) => is_step(rt, &decided, step),
            None => assert!(rt; false, "no decision"),
        }
        Ok(())
    }

    // There is nothing to decide.
    fn decides_nothing<R: Wait + Abort>(
        &mut self,
        rt: &R,
        alloc: Global,
        store: &Store,
        sync: (u64, u64),
    ) -> Result<(), Fail>
        requires client { IsClient store.now self.old.client }
        requires player { IsPlayerOf self.old.client self.old.part }
        requires part { IsPartOf 0 self.old.part }
        ensures client { IsClient store.now self.new.client }
        ensures player { IsPlayerOf self.new.client self.new.part }
        ensures part { IsPartOf 0 self.new.part }
    {
        let (synced, decided) = self
            .part
            .decide(rt, alloc, &mut self.client, store, &OpenGate)?;
        looks(rt, &synced, sync);
        assert!(rt; decided.is_none());
        Ok(())
    }

    // A decide is refused.
    fn is_refused<R: Wait + Abort>(
        &mut self,
        rt: &R,
        alloc: Global,
        store: &Store,
        fault: ObjectFault,
    ) -> Result<(), Fail>
        requires client { IsClient store.now self.old.client }
        requires player { IsPlayerOf self.old.client self.old.part }
        requires part { IsPartOf 0 self.old.part }
        ensures client { IsClient store.now self.new.client }
        ensures player { IsPlayerOf self.new.client self.new.part }
        ensures part { IsPartOf 0 self.new.part }
    {
        let answer = self
            .part
            .decide(rt, alloc, &mut self.client, store, &OpenGate);
        assert!(rt; matches!(answer, Err(told) if told == fault));
        Ok(())
    }
}

// A client with a new player of the colour.
fn with_part(
    alloc: Global,
    _store: &Store,
    client: Client,
    home: u8,
    colour: u8,
) -> Result<Teller, AllocError>
    requires small { IsSmall _store.now }
    requires client { IsClient _store.now client }
    requires colour { colour ≡ colour % 2 }
    ensures client { IfOk result (λ t. IsClient _store.now t.client) }
    ensures player { IfOk result (λ t. IsPlayerOf t.client t.part) }
    ensures part { IfOk result (λ t. IsPartOf colour t.part) }
{
    let colours = two_colours(alloc)?;
    let part = PartPlayer::open(alloc, home, colours, colour);
    Ok(Teller { client, part })
}

// The client appends a transaction to both colours.
fn transacts<R: Wait>(
    rt: &R,
    alloc: Global,
    store: &Store,
    client: &mut Client,
    text: &[u8],
) -> Result<(), Fail>
    requires store { IsSmall store.now }
    requires client { IsClient store.now client.old }
    ensures client { IsClient store.now client.new }
{
    let text = Text::copied(alloc, text)?;
    let both = Colours::of(&[0, 1]);
    client.append(rt, alloc, store, &OpenGate, both, text, None)?;
    Ok(())
}

// The second colour's part knows at once what the first one's waits for.
fn tell<R: Wait + Abort>(
    rt: &R,
    alloc: Global,
    store: &Store,
    first: &mut Teller,
    second: &mut Teller,
) -> Result<(), Fail>
    requires clients { IsClient store.now first.old.client × IsClient store.now second.old.client }
    requires players { IsPlayerOf first.old.client first.old.part × IsPlayerOf second.old.client second.old.part }
    requires parts { IsPartOf 0 first.old.part × IsPartOf 1 second.old.part }
{
    let peek = second.peeks(rt, alloc, store, b'a', (4, 2))?;
    has_value(rt, &peek, b"1");
    first.waits(rt, alloc, store, 1, (4, 2))?;
    first.decides(rt, alloc, store, &FIRST)?;
    first.waits(rt, alloc, store, 2, (5, 3))?;
    first.decides(rt, alloc, store, &SECOND)?;
    first.decides_nothing(rt, alloc, store, (6, 4))?;
    let peek = first.peeks(rt, alloc, store, b'b', (6, 4))?;
    has_value(rt, &peek, b"2");
    Ok(())
}

#[test]
fn a_part_waits_for_decisions_on_what_read_other_shards(rt: HostRuntime) -> Result<(), Fail> {
    let alloc = rt.alloc();
    let (store, mut one, mut two) = opened(alloc)?;
    transacts(&rt, alloc, &store, &mut one, b"t:a@-|a=1,b=2")?;
    transacts(&rt, alloc, &store, &mut two, b"t:a@-|b=8")?;
    let mut first = with_part(alloc, &store, one, 0, 0)?;
    let mut second = with_part(alloc, &store, two, 0, 1)?;
    tell(&rt, alloc, &store, &mut first, &mut second)
}

// The client plays the second colour, and trims what it has played.
fn trims_second<R: Wait>(
    rt: &R,
    alloc: Global,
    store: &Store,
    client: &mut Client,
) -> Result<(), Fail>
    requires store { IsSmall store.now }
    requires client { IsClient store.now client.old }
    ensures client { IsClient store.now client.new }
{
    let synced = client.sync(rt, alloc, store, 1)?;
    client.trim(rt, store, 1, &synced.snapshot)?;
    Ok(())
}

// The read of a decide lacks what is trimmed, and the line waits on.
fn find_trimmed<R: Wait + Abort>(
    rt: &R,
    alloc: Global,
    store: &Store,
    one: &mut Client,
    teller: &mut Teller,
) -> Result<(), Fail>
    requires store { IsSmall store.now }
    requires clients { IsClient store.now one.old × IsClient store.now teller.old.client }
    requires player { IsPlayerOf teller.old.client teller.old.part }
    requires part { IsPartOf 0 teller.old.part }
{
    transacts(rt, alloc, store, one, b"t:a@-|b=7")?;
    trims_second(rt, alloc, store, one)?;
    let base = one.snapshot(1).counts;
    let trimmed = ObjectFault::Sync(SyncFault::Trimmed { colour: 1, base });
    teller.is_refused(rt, alloc, store, trimmed)?;
    teller.waits(rt, alloc, store, 1, (2, 1))
}

#[test]
fn a_decide_whose_read_is_trimmed_appends_nothing(rt: HostRuntime) -> Result<(), Fail> {
    let alloc = rt.alloc();
    let (store, mut one, two) = opened(alloc)?;
    let mut teller = with_part(alloc, &store, two, 0, 0)?;
    find_trimmed(&rt, alloc, &store, &mut one, &mut teller)
}

#[test]
fn a_part_is_decided_on_at_home_alone(rt: HostRuntime) -> Result<(), Fail> {
    let alloc = rt.alloc();
    let (store, _one, two) = opened(alloc)?;
    let mut teller = with_part(alloc, &store, two, 1, 0)?;
    teller.is_refused(&rt, alloc, &store, ObjectFault::NotHome { home: 1 })
}
