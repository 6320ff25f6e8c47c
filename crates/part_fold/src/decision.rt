// What became of a transaction, as a node says it: its text, written and read.
ghost use Rattle.std.specs.Prelude.{◌≡◌, ◌++◌, ◌∷◌, Some, IfOk, OnOk};
ghost use Rattle.object_form.specs.Forms.{writer_text, equals};
ghost use Rattle.part_fold.specs.Decisions.{outcome_of, decision_text, decision_after, decision_of};

use log_node::{Key, Text};
use object_form::{cut, put_key, read_key};
use std::alloc::{AllocError, Global};

/// The decision on a transaction: its node's key, and whether it commits.
#[derive(Clone, Copy, Debug, PartialEq, Eq)]
pub struct Decision {
    pub key: Key,
    pub commits: bool,
}

fn put_decision(bytes: &mut Vec<u8>, decision: Decision) -> Result<(), AllocError>
    ensures { OnOk result (bytes.new.items ≡ bytes.old.items ++ decision_text decision) }
{
    bytes.extend_from_slice(b"z:")?;
    put_key(bytes, &decision.key)?;
    bytes.extend_from_slice(if decision.commits { b"=1" } else { b"=0" })
}

/// The text of a decision, which is read back where its key has a stamp from 1 to 2^62 - 1 and a count below 2^63.
/// `AllocError` where memory is refused.
pub fn write_decision(alloc: Global, decision: &Decision) -> Result<Text, AllocError>
    ensures { IfOk result (λ text. text ≡ decision_text decision.now) }
{
    let mut bytes = Vec::new(alloc);
    put_decision(&mut bytes, *decision)?;
    Text::copied(alloc, &bytes)
}

fn outcome_of(bytes: &[u8]) -> Option<bool>
    ensures { result ≡ outcome_of bytes.now }
{
    match bytes {
        [b'1'] => Some(true),
        [b'0'] => Some(false),
        _ => None,
    }
}

fn decision_after(bytes: &[u8]) -> Option<Decision>
    ensures { result ≡ decision_after bytes.now }
{
    let (key, outcome) = cut(bytes, b'=');
    let key = read_key(key)?;
    let commits = outcome_of(outcome)?;
    Some(Decision { key, commits })
}

/// The decision whose text this is; none where it is that of no decision.
pub fn read_decision(text: &Text) -> Option<Decision>
    ensures { result ≡ decision_of text.now }
{
    match text.as_bytes() {
        [b'z', b':', others @ ..] => decision_after(others),
        _ => None,
    }
}
