// A journal that is done again: it is lawful, and no longer where one thing in it is changed.
use col_core::{Entry, Event, Heads};
use column_track::do_again;
use log_node::{Counts, Head, Id, Key, ListOf, Outcome, Shape};
use std::alloc::{AllocError, Global};
use std::test::Fail;

// An entry of the client 0.
fn entry(event: Event, stamp: u64) -> Entry {
    Entry {
        by: 0,
        event,
        stamp,
    }
}

// A node enters as final, and wants nothing.
fn single(count: u64, floor: u64, stamp: u64) -> Entry {
    let event = Event::Single {
        id: Id { client: 0, count },
        floor,
        wants: Counts([0; 4]),
    };
    entry(event, stamp)
}

// One node of the region 1 is carried.
fn carry(alloc: Global, start: u64) -> Result<Entry, AllocError> {
    let mut heads = Heads::new(alloc);
    heads.push(Head {
        key: Key {
            stamp: 5,
            id: Id {
                client: 2,
                count: 0,
            },
        },
        needs: Counts([0; 4]),
    })?;
    let event = Event::Carry {
        region: 1,
        start,
        heads,
    };
    Ok(entry(event, 0))
}

// The number, or another one where this is what is changed.
fn unless(changed: bool, number: u64, other: u64) -> u64 {
    if changed { other } else { number }
}

// A journal of a column of the region 0 in which nothing is changed, or the thing with this number.
fn journal(alloc: Global, changed: u8) -> Result<Vec<Entry>, AllocError> {
    let id = Id {
        client: 1,
        count: 0,
    };
    let wants = Counts([0; 4]);
    let mut all = Vec::new(alloc);
    all.push(single(0, 0, 1))?;
    all.push(entry(
        Event::Propose {
            id,
            floor: 3,
            wants,
        },
        4,
    ))?;
    all.push(entry(
        Event::Raise {
            to: unless(changed == 1, 7, 4),
        },
        0,
    ))?;
    all.push(single(
        unless(changed == 2, 1, 0),
        unless(changed == 3, 0, u64::MAX),
        unless(changed == 4, 8, 9),
    ))?;
    let outcome = Outcome::Final(unless(changed == 5, 9, 3));
    all.push(entry(Event::Settle { id, outcome }, 0))?;
    all.push(entry(
        Event::Give {
            region: 1,
            from: unless(changed == 6, 3, 4),
        },
        0,
    ))?;
    all.push(carry(alloc, unless(changed == 7, 0, 1))?)?;
    let counts = Counts([2, 1, 0, 0]);
    all.push(entry(Event::Trim { counts }, unless(changed == 8, 0, 1)))?;
    Ok(all)
}

// Whether the journal is a lawful history.
fn is_lawful(alloc: Global, changed: u8) -> Result<bool, AllocError> {
    let shape = Shape {
        regions: 2,
        colours: 1,
        homes: ListOf::new(alloc),
        rows: 1,
    };
    let journal = journal(alloc, changed)?;
    Ok(do_again(alloc, 0, &shape, &journal)?.is_some())
}

#[test]
fn a_journal_is_lawful_until_one_thing_is_changed(rt: HostRuntime) -> Result<(), Fail> {
    for changed in 0..9u8 {
        assert_eq!(rt; is_lawful(rt.alloc(), changed)?, changed == 0);
    }
    Ok(())
}
