// Paths of trees.
ghost use Rattle.std.specs.Prelude.{◌≡◌, ◌≤◌, nat_le, ◌&&◌, length, IfOk};
ghost use Rattle.std.specs.List.{list_all};
ghost use Rattle.script_text.specs.declared.limits.TheConstants.{MAX_PATH_NAMES};
ghost use Rattle.script_text.specs.Pieces.{is_path_name, path_names, is_path_behind, is_path};
ghost use Rattle.script_text.specs.Readings.{Gives, fields_in, path_at};

use crate::fault::Fault;
use crate::limits::{MAX_PATH_NAME, MAX_PATH_NAMES};
use crate::pieces::are_letters_or_digits;
use crate::script::Reason;
use log_node::Text;
use std::alloc::{AllocError, Global};

fn is_path_name(name: &[u8]) -> bool
    ensures { result ≡ is_path_name name.now }
{
    1 <= name.len() && name.len() <= MAX_PATH_NAME && are_letters_or_digits(name)
}

fn are_path_names(names: &[&[u8]]) -> bool
    ensures { result ≡ list_all is_path_name (fields_in names.now) }
{
    names.iter().all(|name| is_path_name(name))
}

// As many names as a path may have, each of which may be one.
fn are_few_names(names: &[&[u8]]) -> bool
    ensures { result ≡ (nat_le (length (fields_in names.now)) MAX_PATH_NAMES && list_all is_path_name (fields_in names.now)) }
{
    names.len() <= MAX_PATH_NAMES && are_path_names(names)
}

// The names between slashes.
fn names_of(alloc: Global, bytes: &[u8]) -> Result<Vec<&[u8]>, AllocError>
    ensures { IfOk result (λ names. fields_in names.items ≡ path_names bytes.now) }
{
    bytes.split(|b| *b == b'/').collect(alloc)
}

// Whether these bytes may stand behind the first slash.
fn is_path_behind(alloc: Global, root: bool, bytes: &[u8]) -> Result<bool, AllocError>
    ensures { IfOk result (λ is. is ≡ is_path_behind root bytes.now) }
{
    if bytes.is_empty() {
        return Ok(root);
    }
    let names = names_of(alloc, bytes)?;
    Ok(are_few_names(&names))
}

fn is_path(alloc: Global, root: bool, field: &[u8]) -> Result<bool, AllocError>
    ensures { IfOk result (λ is. is ≡ is_path root field.now) }
{
    match field {
        [b'/', names @ ..] => is_path_behind(alloc, root, names),
        _ => Ok(false),
    }
}

/// A path, which is not the root unless that may be.
#[tactic(auto, unfolding(crate::specs::Readings::path_at))]
pub fn path_at(alloc: Global, root: bool, field: &[u8]) -> Result<Text, Fault>
    ensures { Gives result (path_at root field.now) }
{
    if !is_path(alloc, root, field)? {
        return Err(Fault::Refused(Reason::BadPath));
    }
    Ok(Text::copied(alloc, field)?)
}
