// The colours of objects, and of the shards of keys.
ghost use Rattle.std.specs.Prelude.{◌≡◌, ◌++◌, ◌∷◌, [], IfOk, Some, None};
ghost use Rattle.std.specs.Option.{option_copied};
ghost use Rattle.lawful_run.specs.Callers.{Caller};
ghost use Rattle.lawful_run.specs.Asks.{object_colours, kind_asked, keys_of_pairs};
ghost use Rattle.walk_law.specs.Asking.{AreLow, HaveLowColours, all_of, colours_in, committed_of, keys_shown, shards_of};

use log_node::{ColourList, Colours, ListOf, Pair, Text};
use object_fold::shard_of;
use report_text::KeyAnswer;
use script_text::{Kind, Object, Use, What};
use std::alloc::{AllocError, Global};

/// The kind of the object that a command is of, where it is of one.
pub fn kind_asked<'o>(objects: &'o [Object], what: &What) -> Option<&'o Kind>
    requires { HaveLowColours objects.now }
    ensures kind { (caller : Caller) → caller.objects ≡ objects.now
        → option_copied result ≡ kind_asked caller what.now }
    ensures low { AreLow (object_colours (option_copied result)) }
{
    match what.use_of() {
        Use::OfLog { stops: _stops } => None,
        Use::OfObject {
            object,
            read: _read,
        } => match objects.get(object as usize) {
            Some(found) => Some(&found.kind),
            None => None,
        },
    }
}

/// The colours of an object of this kind, in their order.
fn object_colours(kind: &Kind) -> &[u8]
    ensures { result.now ≡ object_colours (Some kind.now) }
{
    match kind {
        Kind::Map { colours, .. }
        | Kind::Tx { colours, .. }
        | Kind::Tree { colours, .. }
        | Kind::Parts { colours, .. } => colours.as_slice(),
        Kind::Causal { colour } | Kind::Queue { colour, .. } => std::slice::from_ref(colour),
    }
}

/// The colours of the object of a command, where it is of one; none where it is not.
pub fn colours_of(kind: Option<&Kind>) -> &[u8]
    ensures { result.now ≡ object_colours (option_copied kind.entry) }
{
    match kind {
        Some(kind) => object_colours(kind),
        None => &[],
    }
}

/// The members of a set, the least first.
pub fn listed(alloc: Global, set: Colours) -> Result<ColourList, AllocError>
    ensures { IfOk result (λ colours. colours ≡ colours_in set) }
{
    let mut colours = ListOf::new(alloc);
    for colour in set.members() {
        colours.push(colour)?;
    }
    Ok(colours)
}

// The colours of the shards of keys, as a set.
fn key_set(own: &[u8], keys: &[Text]) -> Colours
    requires { AreLow own.now }
    ensures { colours_in result ≡ shards_of own.now keys.now }
{
    let mut set = Colours::NONE;
    for key in keys {
        set = set.with(shard_of(own, key.as_bytes()));
    }
    set
}

// Those of the shards of the keys of pairs.
fn pair_set(own: &[u8], pairs: &[Pair]) -> Colours
    requires { AreLow own.now }
    ensures { colours_in result ≡ shards_of own.now (keys_of_pairs pairs.now) }
{
    let mut set = Colours::NONE;
    for pair in pairs {
        set = set.with(shard_of(own, pair.key.as_bytes()));
    }
    set
}

// Those of the shards of the keys that a transaction has read, as its read showed them, and of those that it writes.
fn transaction_set(own: &[u8], read: &[KeyAnswer], pairs: &[Pair]) -> Colours
    requires { AreLow own.now }
    ensures { colours_in result ≡ shards_of own.now (keys_shown read.now ++ keys_of_pairs pairs.now) }
{
    let mut set = Colours::NONE;
    for answer in read {
        set = set.with(shard_of(own, answer.key.as_bytes()));
    }
    for pair in pairs {
        set = set.with(shard_of(own, pair.key.as_bytes()));
    }
    set
}

// All colours of an object, as a set.
fn all_set(own: &[u8]) -> Colours
    requires { AreLow own.now }
    ensures { colours_in result ≡ all_of own.now }
{
    Colours::of(own)
}

/// The colour of the shard of a key, of an object with these colours.
pub fn key_shard(alloc: Global, own: &[u8], key: &[u8]) -> Result<ColourList, AllocError>
    requires { AreLow own.now }
    ensures { IfOk result (λ colours. colours ≡ shards_of own.now (key.now ∷ [])) }
{
    let mut colours = ListOf::new(alloc);
    colours.push(shard_of(own, key))?;
    Ok(colours)
}

/// The colours of the shards of keys, in rising number.
pub fn key_shards(alloc: Global, own: &[u8], keys: &[Text]) -> Result<ColourList, AllocError>
    requires { AreLow own.now }
    ensures { IfOk result (λ colours. colours ≡ shards_of own.now keys.now) }
{
    listed(alloc, key_set(own, keys))
}

/// The colours of the shards of the keys of pairs, in rising number.
pub fn pair_shards(alloc: Global, own: &[u8], pairs: &[Pair]) -> Result<ColourList, AllocError>
    requires { AreLow own.now }
    ensures { IfOk result (λ colours. colours ≡ shards_of own.now (keys_of_pairs pairs.now)) }
{
    listed(alloc, pair_set(own, pairs))
}

/// The colours of the shards of the keys that a transaction has read and of those that it writes, in rising number; none where
/// it has no read.
pub fn transaction_shards(
    alloc: Global,
    own: &[u8],
    read: Option<&ListOf<KeyAnswer>>,
    pairs: &[Pair],
) -> Result<ColourList, AllocError>
    requires { AreLow own.now }
    ensures { IfOk result (λ colours. colours ≡ committed_of own.now (option_copied read.entry) pairs.now) }
{
    match read {
        Some(read) => listed(alloc, transaction_set(own, read.as_slice(), pairs)),
        None => Ok(ListOf::new(alloc)),
    }
}

/// All colours of an object, in rising number.
pub fn all_colours(alloc: Global, own: &[u8]) -> Result<ColourList, AllocError>
    requires { AreLow own.now }
    ensures { IfOk result (λ colours. colours ≡ all_of own.now) }
{
    listed(alloc, all_set(own))
}

/// All colours of an object, in their order.
pub fn copied(alloc: Global, own: &[u8]) -> Result<ColourList, AllocError>
    ensures { IfOk result (λ colours. colours ≡ own.now) }
{
    let mut colours = ListOf::new(alloc);
    for colour in own {
        colours.push(*colour)?;
    }
    Ok(colours)
}
