// Keys, values and pairs of objects, and the numbers in a line.
ghost use Rattle.std.specs.Prelude.{◌≡◌, ◌≤◌, [], map};
ghost use Rattle.script_text.specs.Pieces.{is_among};
ghost use Rattle.script_text.specs.Grammar.{key_in};
ghost use Rattle.script_text.specs.Readings.{Gives, fields_in, each_at, value_at, key_at, new_pair_at, pair_at, digits_at};

use crate::fault::Fault;
use crate::limits::STEPS_DIGITS;
use crate::pieces::{is_among, is_key, is_number, number_value, split_pair};
use crate::script::Reason;
use log_node::{Keys, ListOf, Pair, Pairs, Text};
use std::alloc::Global;

/// A value of an object.
#[tactic(auto, unfolding(crate::specs::Readings::value_at))]
pub fn value_at(alloc: Global, field: &[u8]) -> Result<Text, Fault>
    ensures { Gives result (value_at field.now) }
{
    if !is_key(field) {
        return Err(Fault::Refused(Reason::BadValue));
    }
    Ok(Text::copied(alloc, field)?)
}

/// A key, unless it has been read before.
#[tactic(auto, unfolding(crate::specs::Readings::key_at))]
fn new_key(alloc: Global, earlier: &[Text], field: &[u8]) -> Result<Text, Fault>
    ensures { Gives result (key_at earlier.now field.now) }
{
    if !is_key(field) {
        return Err(Fault::Refused(Reason::BadKey));
    }
    if is_among(earlier, field) {
        return Err(Fault::Refused(Reason::KeyRepeated));
    }
    Ok(Text::copied(alloc, field)?)
}

/// A key alone.
pub fn key_at(alloc: Global, field: &[u8]) -> Result<Text, Fault>
    ensures { Gives result (key_at [] field.now) }
{
    new_key(alloc, &[], field)
}

/// Distinct keys.
pub fn keys_at(alloc: Global, fields: &[&[u8]]) -> Result<Keys, Fault>
    ensures { Gives result (each_at key_at [] (fields_in fields.now)) }
{
    let mut keys = ListOf::new(alloc);
    for field in fields {
        let key = new_key(alloc, keys.as_slice(), field)?;
        keys.push(key)?;
    }
    Ok(keys)
}

fn has_key(pairs: &[Pair], key: &[u8]) -> bool
    ensures { result ≡ is_among (map (λ p. p.key) pairs.now) key.now }
{
    pairs.iter().any(|pair| key == pair.key.as_bytes())
}

#[tactic(auto, unfolding(crate::specs::Readings::key_at))]
fn pair_key(alloc: Global, earlier: &[Pair], key: &[u8]) -> Result<Text, Fault>
    ensures { Gives result (key_at (map (λ p. p.key) earlier.now) key.now) }
{
    if !is_key(key) {
        return Err(Fault::Refused(Reason::BadKey));
    }
    if has_key(earlier, key) {
        return Err(Fault::Refused(Reason::KeyRepeated));
    }
    Ok(Text::copied(alloc, key)?)
}

/// A key and its value, unless an earlier pair has the key.
#[tactic(auto, unfolding(crate::specs::Readings::new_pair_at))]
fn new_pair(alloc: Global, earlier: &[Pair], field: &[u8]) -> Result<Pair, Fault>
    ensures { Gives result (new_pair_at (map (λ p. p.key) earlier.now) field.now) }
{
    let Some((key, value)) = split_pair(field) else {
        return Err(Fault::Refused(Reason::BadForm));
    };
    let key = pair_key(alloc, earlier, key)?;
    let value = value_at(alloc, value)?;
    Ok(Pair { key, value })
}

/// Pairs with distinct keys.
pub fn pairs_at(alloc: Global, fields: &[&[u8]]) -> Result<Pairs, Fault>
    ensures { Gives result (each_at pair_at [] (fields_in fields.now)) }
{
    let mut pairs = ListOf::new(alloc);
    for field in fields {
        let pair = new_pair(alloc, pairs.as_slice(), field)?;
        pairs.push(pair)?;
    }
    Ok(pairs)
}

/// A number of steps.
#[tactic(auto, unfolding(crate::specs::Readings::digits_at))]
pub fn steps_at(field: &[u8]) -> Result<u64, Fault>
    ensures { Gives result (digits_at STEPS_DIGITS field.now) }
{
    if !is_number(STEPS_DIGITS, field) {
        return Err(Fault::Refused(Reason::BadNumber));
    }
    Ok(number_value(field))
}
