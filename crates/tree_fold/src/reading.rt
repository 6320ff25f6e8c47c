// The change of a text.
ghost use Rattle.std.specs.Prelude.{◌≡◌, IfOk};
ghost use Rattle.tree_fold.specs.Changes.{IsReadAs};
ghost use Rattle.tree_fold.specs.Readings.{below_root_of, make_of, remove_of, move_of, change_after, change_of};

use crate::change::Change;
use crate::path::Path;
use log_node::Text;
use object_form::{cut, is_word};
use std::alloc::{AllocError, Global};

// The path with this text, if there is one and it is not the root.
fn below_root_of(alloc: Global, bytes: &[u8]) -> Result<Option<Path>, AllocError>
    ensures { IfOk result (λ path. path ≡ below_root_of bytes.now) }
{
    match Path::of(alloc, bytes)? {
        None => Ok(None),
        Some(path) => {
            if path.is_root() {
                return Ok(None);
            }
            Ok(Some(path))
        }
    }
}

fn make_of(alloc: Global, path: Option<Path>, value: &[u8]) -> Result<Option<Change>, AllocError>
    ensures { IfOk result (λ change. change ≡ make_of path value.now) }
{
    let Some(path) = path else {
        return Ok(None);
    };
    if !is_word(value) {
        return Ok(None);
    }
    let value = Text::copied(alloc, value)?;
    Ok(Some(Change::Make { path, value }))
}

fn remove_of(path: Option<Path>) -> Option<Change>
    ensures { result ≡ remove_of path }
{
    match path {
        None => None,
        Some(path) => Some(Change::Remove { path }),
    }
}

fn move_of(source: Option<Path>, target: Option<Path>) -> Option<Change>
    ensures { result ≡ move_of source target }
{
    match (source, target) {
        (Some(source), Some(target)) => Some(Change::Move { source, target }),
        _ => None,
    }
}

// The change of a text with this letter before its colon.
fn change_after(alloc: Global, letter: u8, bytes: &[u8]) -> Result<Option<Change>, AllocError>
    ensures { IfOk result (λ change. change ≡ change_after letter bytes.now) }
{
    match letter {
        b'k' => {
            let (path, value) = cut(bytes, b'=');
            make_of(alloc, below_root_of(alloc, path)?, value)
        }
        b'x' => Ok(remove_of(below_root_of(alloc, bytes)?)),
        b'v' => {
            let (source, target) = cut(bytes, b'>');
            let source = below_root_of(alloc, source)?;
            let target = below_root_of(alloc, target)?;
            Ok(move_of(source, target))
        }
        _ => Ok(None),
    }
}

fn change_in(alloc: Global, bytes: &[u8]) -> Result<Option<Change>, AllocError>
    ensures { IfOk result (λ change. change ≡ change_of bytes.now) }
{
    match bytes {
        [letter, b':', others @ ..] => change_after(alloc, *letter, others),
        _ => Ok(None),
    }
}

/// The change of a node's text: the one that has this text, if one has it. `AllocError` where memory is refused.
pub fn read_change(alloc: Global, text: &Text) -> Result<Option<Change>, AllocError>
    ensures reading { IfOk result (λ change. IsReadAs text.now change) }
    ensures change { IfOk result (λ change. change ≡ change_of text.now) }
{
    change_in(alloc, text.as_bytes())
}

/// The change that makes the path with this text, with a value: nothing where the text is that of no path below the root, or the
/// value may be none. `AllocError` where memory is refused.
pub fn make_change(alloc: Global, path: &[u8], value: &[u8]) -> Result<Option<Change>, AllocError>
    ensures { IfOk result (λ change. change ≡ make_of (below_root_of path.now) value.now) }
{
    make_of(alloc, below_root_of(alloc, path)?, value)
}

/// The change that removes the path with this text: nothing where the text is that of no path below the root. `AllocError`
/// where memory is refused.
pub fn remove_change(alloc: Global, path: &[u8]) -> Result<Option<Change>, AllocError>
    ensures { IfOk result (λ change. change ≡ remove_of (below_root_of path.now)) }
{
    Ok(remove_of(below_root_of(alloc, path)?))
}

/// The change that moves the path with the one text to that with the other: nothing where one of them is that of no path below
/// the root. `AllocError` where memory is refused.
pub fn move_change(
    alloc: Global,
    source: &[u8],
    target: &[u8],
) -> Result<Option<Change>, AllocError>
    ensures { IfOk result (λ change. change ≡ move_of (below_root_of source.now) (below_root_of target.now)) }
{
    let source = below_root_of(alloc, source)?;
    let target = below_root_of(alloc, target)?;
    Ok(move_of(source, target))
}
