// Where an entry stands among the others: by the names of its parent, then by its own.
ghost use Rattle.std.specs.Prelude.{◌≡◌, drop, slice_index_or};
ghost use Rattle.tree_fold.specs.Paths.{parent_of};
ghost use Rattle.tree_fold.specs.Places.{name_number, name_numbers, own_name, place_of};

use crate::path::MAX_NAME;
use log_node::Text;

/// The place of a path below the root, so that places stand as the paths do: by the names of the parent, one after
/// another, and then by the last name. Each name is a number, its first byte the highest of eight.
#[derive(Clone, Copy, PartialEq, Eq, PartialOrd, Ord)]
pub struct Place {
    /// The names of the parent; behind them zeros.
    pub parent: [u64; 3],
    /// The last name.
    pub name: u64,
}

// The byte of a name at this place; behind the name, zero.
fn byte_at(name: &[u8], at: usize) -> u8
    ensures { result ≡ slice_index_or name.now at 0 }
{
    match name.get(at) {
        Some(byte) => *byte,
        None => 0,
    }
}

// The first eight bytes of a name as one number.
fn name_number(name: &[u8]) -> u64
    ensures { result ≡ name_number 8 name.now }
{
    let mut number = 0u64;
    for at in 0..MAX_NAME {
        number = number * 0x100 + byte_at(name, at) as u64;
    }
    number
}

/// The first three names of a path as numbers; behind the path they are this one.
pub fn name_numbers(path: &[Text], fill: u64) -> [u64; 3]
    ensures { result ≡ name_numbers 3 fill path.now }
{
    match path {
        [] => [fill; 3],
        [first] => [name_number(first.as_bytes()), fill, fill],
        [first, second] => [
            name_number(first.as_bytes()),
            name_number(second.as_bytes()),
            fill,
        ],
        [first, second, third, ..] => [
            name_number(first.as_bytes()),
            name_number(second.as_bytes()),
            name_number(third.as_bytes()),
        ],
    }
}

/// The path without its last name.
pub fn parent_of(path: &[Text]) -> &[Text]
    ensures { result.now ≡ parent_of path.now }
{
    &path[..path.len().saturating_sub(1)]
}

/// The last name of a path; of the root, no bytes.
pub fn own_name(path: &[Text]) -> &[u8]
    ensures { result.now ≡ own_name path.now }
{
    match path.last() {
        Some(name) => name.as_bytes(),
        None => &[],
    }
}

/// The place of a path.
pub fn place_of(path: &[Text]) -> Place
    ensures { result ≡ place_of path.now }
{
    Place {
        parent: name_numbers(parent_of(path), 0),
        name: name_number(own_name(path)),
    }
}

/// The names of a path behind this many first ones.
pub fn rest_of(path: &[Text], count: usize) -> &[Text]
    ensures { result.now ≡ drop count path.now }
{
    if count <= path.len() {
        &path[count..]
    } else {
        &[]
    }
}
