// Parts of a transactional map, fed with lines that were worked out by hand, and the texts of decisions.
ghost use Rattle.part_fold.specs.Decisions.{IsDecision};

use crate::tests::made::key_of;
use crate::tests::objects::is_value;
use log_node::{Key, Text};
use part_fold::{Decision, PartFold, read_decision, write_decision};
use std::alloc::{AllocError, Global};
use std::process::Abort;
use std::test::Fail;

/// Decisions by the key of their transaction (a stamp, a client and its count), and their texts.
const DECISIONS: [((u64, u8, u64), bool, &str); 4] = [
    ((1, 0, 0), true, "z:1.0.0=1"),
    ((1, 0, 0), false, "z:1.0.0=0"),
    ((20, 3, 10), true, "z:20.3.10=1"),
    (
        (4611686018427387903, 255, 9223372036854775807),
        false,
        "z:4611686018427387903.255.9223372036854775807=0",
    ),
];

/// Texts that decide nothing.
const NO_DECISIONS: [&str; 18] = [
    "",
    "z",
    "z:",
    "z:1.0.0",
    "z:1.0.0=",
    "z:1.0.0=2",
    "z:1.0.0=01",
    "z:1.0.0=1=1",
    "z1.0.0=1",
    "t:1.0.0=1",
    // Numbers with a leading zero, lacking, or out of their ranges.
    "z:01.0.0=1",
    "z:1.0=1",
    "z:1..0=1",
    "z:1.0.0.0=1",
    "z:0.0.0=1",
    "z:4611686018427387904.0.0=1",
    "z:1.256.0=1",
    "z:1.0.9223372036854775808=1",
];

fn decision_of(alloc: Global, text: &str) -> Result<Option<Decision>, AllocError> {
    let text = Text::copied(alloc, text.as_bytes())?;
    Ok(read_decision(&text))
}

#[test]
fn decisions_are_read(rt: HostRuntime) -> Result<(), Fail> {
    for ((stamp, client, count), commits, text) in DECISIONS {
        let key = key_of(stamp, client, count);
        assert_eq!(rt;
            decision_of(rt.alloc(), text)?,
            Some(Decision { key, commits }),
            "{text}"
        );
    }
    Ok(())
}

#[test]
fn other_texts_decide_nothing(rt: HostRuntime) -> Result<(), Fail> {
    for text in NO_DECISIONS {
        assert_eq!(rt; decision_of(rt.alloc(), text)?, None, "{text}");
    }
    Ok(())
}

/// The text of a decision is this.
fn is_written(
    rt: &impl Abort,
    alloc: Global,
    decision: &Decision,
    text: &str,
) -> Result<(), AllocError>
    requires { IsDecision decision.now }
{
    let written = write_decision(alloc, decision)?;
    assert_eq!(rt; written.as_bytes(), text.as_bytes());
    Ok(())
}

#[test]
fn decisions_are_written(rt: HostRuntime) -> Result<(), Fail> {
    let key = key_of(20, 3, 10);
    is_written(
        &rt,
        rt.alloc(),
        &Decision { key, commits: true },
        "z:20.3.10=1",
    )?;
    is_written(
        &rt,
        rt.alloc(),
        &Decision {
            key,
            commits: false,
        },
        "z:20.3.10=0",
    )?;
    Ok(())
}

/// Lines of the colour at place 0 of two, where the shard of `b` is and that of `a` is not: the text at place i stands
/// under the stamp i + 1, of client 0 with the count i. Then the stamp of the first transaction that is not known, and
/// the value of `b`.
const LINES: [(&[&str], Option<u64>, Option<&str>); 19] = [
    (&[], None, None),
    (&["p:b=1"], None, None),
    // One that read another shard waits for its decision, of which the first counts, wherever it stands.
    (&["t:a@-|b=7"], Some(1), None),
    (&["t:a@-|b=7", "z:1.0.0=1"], None, Some("7")),
    (&["t:a@-|b=7", "z:1.0.0=0"], None, None),
    (&["t:a@-|b=7", "z:1.0.0=1", "z:1.0.0=0"], None, Some("7")),
    (&["t:a@-|b=7", "z:01.0.0=1"], Some(1), None),
    (&["t:a@-|b=7", "z:1.0.1=1"], Some(1), None),
    (&["z:2.0.1=1", "t:a@-|b=7"], None, Some("7")),
    (&["t:a@-,b@-|b=7"], Some(1), None),
    // One that read the shard alone is known at once, whatever is said of it.
    (&["t:b@-|b=1"], None, Some("1")),
    (&["t:b@-|b=1", "t:b@-|b=2"], None, Some("1")),
    (
        &["t:b@-|b=1", "t:b@-|b=2", "t:b@1.0.0|b=3"],
        None,
        Some("3"),
    ),
    (&["t:b@-|b=1", "z:1.0.0=0"], None, Some("1")),
    // What stands behind one that is not known waits with it.
    (&["t:a@-|b=7", "t:b@-|b=8"], Some(1), None),
    (&["t:a@-|b=7", "t:b@-|b=8", "z:1.0.0=0"], None, Some("8")),
    (&["t:a@-|b=7", "t:b@-|b=8", "z:1.0.0=1"], None, Some("7")),
    (&["t:a@-|b=7", "t:a@-|b=8", "z:2.0.1=1"], Some(1), None),
    (
        &["t:a@-|b=7", "t:a@-|b=8", "z:2.0.1=1", "z:1.0.0=1"],
        None,
        Some("8"),
    ),
];

fn fed(alloc: Global, part: &mut PartFold, key: Key, text: &str) -> Result<(), AllocError> {
    let text = Text::copied(alloc, text.as_bytes())?;
    part.feed(alloc, key, &text)
}

fn part_of(alloc: Global, texts: &[&str]) -> Result<PartFold, AllocError> {
    let mut part = PartFold::open(alloc, 0, 2);
    for (place, text) in texts.iter().enumerate() {
        let key = key_of(place as u64 + 1, 0, place as u64);
        fed(alloc, &mut part, key, text)?;
    }
    Ok(part)
}

#[test]
fn a_part_goes_on_as_its_line_tells(rt: HostRuntime) -> Result<(), Fail> {
    for (texts, undecided, value) in LINES {
        let part = part_of(rt.alloc(), texts)?;
        assert_eq!(rt; part.undecided().map(|key| key.stamp), undecided);
        is_value(&rt, part.value(b"b"), value);
        is_value(&rt, part.value(b"a"), None);
    }
    Ok(())
}

#[test]
fn a_part_has_the_keys_of_its_shard(rt: HostRuntime) -> Result<(), Fail> {
    let part = part_of(rt.alloc(), &["t:b@-|a=5,b=6"])?;
    is_value(&rt, part.value(b"b"), Some("6"));
    is_value(&rt, part.value(b"a"), None);
    Ok(())
}
