// The shards of keys, as sets of colours.
ghost use Rattle.std.specs.Prelude.{◌≡◌, ◌<◌, ◌++◌, length, map};
ghost use Rattle.std.specs.List.{All};
ghost use Rattle.log_node.specs.Sets.{members};
ghost use Rattle.lawful_run.specs.Asks.{shards, keys_of_pairs};
ghost use Rattle.log_client.specs.Objects.{version_keys};

use log_node::{Colours, MAX_COLOURS, Pair, Text, Version};
use object_fold::shard_of;

/// The colours of the shards of keys, of an object with these colours.
pub fn key_shards(colours: &[u8], keys: &[Text]) -> Colours
    requires some { 0 < length colours.now }
    requires few { All (λ colour. colour < MAX_COLOURS) colours.now }
    ensures { members result ≡ shards colours.now keys.now }
{
    let mut set = Colours::NONE;
    for key in keys {
        set = set.with(shard_of(colours, key.as_bytes()));
    }
    set
}

/// The colours of the shards of the keys of some pairs.
pub fn pair_shards(colours: &[u8], pairs: &[Pair]) -> Colours
    requires some { 0 < length colours.now }
    requires few { All (λ colour. colour < MAX_COLOURS) colours.now }
    ensures { members result ≡ shards colours.now (keys_of_pairs pairs.now) }
{
    let mut set = Colours::NONE;
    for pair in pairs {
        set = set.with(shard_of(colours, pair.key.as_bytes()));
    }
    set
}

/// The colours of the shards of the keys that a transaction read and writes.
pub fn transaction_shards(colours: &[u8], versions: &[Version], pairs: &[Pair]) -> Colours
    requires some { 0 < length colours.now }
    requires few { All (λ colour. colour < MAX_COLOURS) colours.now }
    ensures { members result ≡ shards colours.now (version_keys versions.now ++ keys_of_pairs pairs.now) }
{
    let mut set = Colours::NONE;
    for version in versions {
        set = set.with(shard_of(colours, version.key.as_bytes()));
    }
    for pair in pairs {
        set = set.with(shard_of(colours, pair.key.as_bytes()));
    }
    set
}
