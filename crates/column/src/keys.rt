// Keys of a line, which rise.
ghost use Rattle.std.specs.Prelude.{◌≡◌, IfSome, Some};
ghost use Rattle.std.specs.List.{position};
ghost use Rattle.log_node.specs.Order.{same_key};
ghost use Rattle.column.specs.Columns.{AreRising};

use log_node::Key;

// The position of a key that is the last one.
fn last_place(keys: &[Key], key: Key) -> Option<u64>
    requires { AreRising keys.now }
    ensures { IfSome result (λ place. position (λ k. same_key k key) keys.now ≡ Some place) }
{
    let place = keys.len().checked_sub(1)?;
    let last = keys.get(place)?;
    if last.is_same(key) {
        Some(place as u64)
    } else {
        None
    }
}

/// The position of a key among keys that rise, which is mostly the last one.
pub(crate) fn place_of(keys: &[Key], key: Key) -> Option<u64>
    requires { AreRising keys.now }
    ensures { result ≡ position (λ k. same_key k key) keys.now }
{
    match last_place(keys, key) {
        Some(place) => Some(place),
        None => search(keys, key),
    }
}

// The position of a key among keys that rise, by halves.
fn search(keys: &[Key], key: Key) -> Option<u64>
    requires { AreRising keys.now }
    ensures { result ≡ position (λ k. same_key k key) keys.now }
{
    let place = keys.partition_point(|k| k.is_below(key));
    let found = keys.get(place)?;
    if found.is_same(key) {
        Some(place as u64)
    } else {
        None
    }
}
