// A path of the tree.
ghost use Rattle.std.specs.Prelude.{◌≡◌, ◌↔◌, ◌++◌, [], IsTrue, IfOk, IfErr, OnOk};
ghost use Rattle.std.specs.List.{list_all};
ghost use Rattle.object_form.specs.Readings.{pieces_in};
ghost use Rattle.tree_fold.specs.Paths.{is_name, is_path, path_text, HasPathText, HasPathCause};
ghost use Rattle.tree_fold.specs.Readings.{path_behind, path_of, names_in};

use log_node::{ListOf, Names, Text};
use object_form::are_letters_or_digits;
use std::alloc::{AllocError, Global};
use std::marker::Model;

/// The most bytes of a name.
pub const MAX_NAME: usize = 8;

/// The most names of a path.
pub const MAX_NAMES: usize = 4;

/// Why a path was not made.
#[derive(Clone, Copy, Debug, PartialEq, Eq)]
pub enum PathFault {
    /// The bytes, this many, are no path.
    BadPath { len: u64 },
    /// Memory was refused.
    NoMemory,
}

/// A path: `/`, the root, or 1 to 4 names, each with `/` before it. A name is 1 to 8 small letters and digits.
/// Contracts see the list of the names.
#[derive(Drop)]
pub struct Path {
    names: Names,
}

impl Model for Path {
    ghost use Rattle.std.specs.Prelude.{IsTrue, List, ℕ};

    ghost Value = { List (List ℕ) };

    ghost use Rattle.tree_fold.specs.Paths.{is_path};

    ghost view = { λ a. a.names };

    ghost invariant = { λ a. IsTrue (is_path a.names) };
}

fn is_name(bytes: &[u8]) -> bool
    ensures { result ≡ is_name bytes.now }
{
    1 <= bytes.len() && bytes.len() <= MAX_NAME && are_letters_or_digits(bytes)
}

fn are_all_names(pieces: &[&[u8]]) -> bool
    ensures { result ≡ list_all is_name (pieces_in pieces.now) }
{
    pieces.iter().all(|piece| is_name(piece))
}

// The pieces are the names of a path.
fn are_names(pieces: &[&[u8]]) -> bool
    ensures { result ≡ is_path (pieces_in pieces.now) }
{
    pieces.len() <= MAX_NAMES && are_all_names(pieces)
}

fn pieces_of(alloc: Global, bytes: &[u8]) -> Result<Vec<&[u8]>, AllocError>
    ensures { IfOk result (λ found. pieces_in found.items ≡ names_in bytes.now) }
{
    bytes.split(|b| *b == b'/').collect(alloc)
}

fn copied(alloc: Global, pieces: &[&[u8]]) -> Result<Names, AllocError>
    ensures { IfOk result (λ names. names ≡ pieces_in pieces.now) }
{
    let mut names = ListOf::new(alloc);
    for piece in pieces {
        names.push(Text::copied(alloc, piece)?)?;
    }
    Ok(names)
}

// The path of the names behind the first slash.
fn path_behind(alloc: Global, bytes: &[u8]) -> Result<Option<Path>, AllocError>
    ensures { IfOk result (λ path. path ≡ path_behind bytes.now) }
{
    if bytes.is_empty() {
        return Ok(Some(Path {
            names: ListOf::new(alloc),
        }));
    }
    let pieces = pieces_of(alloc, bytes)?;
    if !are_names(&pieces) {
        return Ok(None);
    }
    let names = copied(alloc, &pieces)?;
    Ok(Some(Path { names }))
}

impl Path {
    /// The path with this text, if there is one. `AllocError` where memory is refused.
    pub fn of(alloc: Global, bytes: &[u8]) -> Result<Option<Path>, AllocError>
        ensures { IfOk result (λ path. path ≡ path_of bytes.now) }
    {
        match bytes {
            [b'/', others @ ..] => path_behind(alloc, others),
            _ => Ok(None),
        }
    }

    /// The path with this text. `BadPath` where none has it.
    pub fn make(alloc: Global, bytes: &[u8]) -> Result<Path, PathFault>
        ensures ok { IfOk result (λ path. HasPathText path bytes.now) }
        ensures cause { IfErr result (HasPathCause bytes.now) }
    {
        match Path::of(alloc, bytes) {
            Ok(Some(path)) => Ok(path),
            Ok(None) => Err(PathFault::BadPath {
                len: bytes.len() as u64,
            }),
            Err(_) => Err(PathFault::NoMemory),
        }
    }

    /// Whether the path is the root.
    pub fn is_root(&self) -> bool
        ensures { IsTrue result ↔ (self.now ≡ []) }
    {
        self.names.is_empty()
    }

    /// The names, from the root on.
    pub fn names(&self) -> &[Text]
        ensures names { result.now ≡ self.now }
        ensures lawful { IsTrue (is_path self.now) }
    {
        self.names.as_slice()
    }

    /// The names as a list.
    pub(crate) fn into_names(self) -> Names
        ensures { result ≡ self }
    {
        self.names
    }

    /// Writes the text of the path behind these bytes. `AllocError` where memory is refused.
    pub fn put(&self, bytes: &mut Vec<u8>) -> Result<(), AllocError>
        ensures { OnOk result (bytes.new.items ≡ bytes.old.items ++ path_text self.now) }
    {
        if self.names.is_empty() {
            bytes.push(b'/')?;
        }
        for name in self.names.as_slice() {
            bytes.push(b'/')?;
            bytes.extend_from_slice(name.as_bytes())?;
        }
        Ok(())
    }
}
