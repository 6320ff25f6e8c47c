// Transactions that no client writes, and more keys than a command names.
use crate::tests::made::key_of;
use log_node::{Key, Keys, ListOf, Text};
use object_fold::{TxState, Verdict, values_among};
use std::alloc::{AllocError, Global};
use std::process::Abort;
use std::test::Fail;

/// A list of keys.
fn keys(alloc: Global, words: &[&str]) -> Result<Keys, AllocError> {
    let mut list = ListOf::new(alloc);
    for word in words {
        list.push(Text::copied(alloc, word.as_bytes())?)?;
    }
    Ok(list)
}

/// The value is this one, or there is none.
pub fn is_value(rt: &impl Abort, value: Option<&Text>, wanted: Option<&str>) {
    match (value, wanted) {
        (Some(value), Some(wanted)) => assert_eq!(rt; value.as_bytes(), wanted.as_bytes()),
        (Some(_), None) => assert!(rt; false, "a value"),
        (None, Some(_)) => assert!(rt; false, "no value"),
        (None, None) => {}
    }
}

/// Transactions and a plain put under their keys (a stamp, a client and its count), what is told of each (the key of a
/// conflict, or none where it committed, and a stamp), and the value of `b` after it.
const TRANSACTIONS: [((u64, u8, u64), &str, Option<(&str, u64)>, &str); 5] = [
    ((1, 1, 0), "t:b@-|b=7", Some(("", 1)), "7"),
    ((2, 0, 0), "t:b@-|b=8", Some(("b", 1)), "7"),
    ((3, 1, 1), "t:b@1.1.0|b=9", Some(("", 3)), "9"),
    // It names a writer of a key that has none.
    ((4, 0, 1), "t:c@3.1.1|c=1", Some(("c", 0)), "9"),
    ((5, 0, 2), "p:b=0", None, "9"),
];

/// The verdict is this: the key of a conflict, or none where it committed, and a stamp.
fn is_told(rt: &impl Abort, verdict: Option<Verdict>, wanted: Option<(&str, u64)>) {
    match verdict {
        Some(Verdict::Committed { stamp }) => assert_eq!(rt; wanted, Some(("", stamp))),
        Some(Verdict::Conflict { key, stamp }) => match wanted {
            Some((on, told)) => {
                assert_eq!(rt; key.as_bytes(), on.as_bytes());
                assert_eq!(rt; stamp, told);
            }
            None => assert!(rt; false, "a conflict"),
        },
        None => assert_eq!(rt; wanted, None),
    }
}

fn done(
    alloc: Global,
    map: &mut TxState,
    under: Key,
    text: &str,
) -> Result<Option<Verdict>, AllocError> {
    let text = Text::copied(alloc, text.as_bytes())?;
    map.feed(alloc, under, &text)
}

/// All transactions are done, and each is told what it should be.
fn all_done(rt: &impl Abort, alloc: Global, map: &mut TxState) -> Result<(), AllocError> {
    for ((stamp, client, count), text, told, value) in TRANSACTIONS {
        let under = key_of(stamp, client, count);
        is_told(rt, done(alloc, map, under, text)?, told);
        is_value(rt, map.value(b"b"), Some(value));
    }
    Ok(())
}

#[test]
fn a_transaction_commits_on_the_writers_that_it_read(rt: HostRuntime) -> Result<(), Fail> {
    let mut map = TxState::new(rt.alloc());
    all_done(&rt, rt.alloc(), &mut map)?;
    assert_eq!(rt; map.writer(b"b"), Some(key_of(3, 1, 1)));
    Ok(())
}

/// How many values and versions there are of these keys, of which none is set.
fn lengths(alloc: Global, keys: &Keys) -> Result<[usize; 3], AllocError> {
    let among = values_among(alloc, &[0, 1], &[], keys)?.len();
    let state = TxState::new(alloc);
    let values = state.values(alloc, keys)?.len();
    Ok([among, values, state.versions(alloc, keys)?.len()])
}

#[test]
fn six_keys_are_read_at_once(rt: HostRuntime) -> Result<(), Fail> {
    let keys = keys(rt.alloc(), &["a", "b", "c", "d", "e", "f"])?;
    assert_eq!(rt; lengths(rt.alloc(), &keys)?, [6, 6, 6]);
    Ok(())
}
