// The keys of a change.
ghost use Rattle.std.specs.Prelude.{◌≡◌, ◌++◌, IfOk};
ghost use Rattle.tree_fold.specs.Paths.{first_name};
ghost use Rattle.tree_fold.specs.Changes.{change_keys};

use crate::change::Change;
use crate::path::Path;
use log_node::{Keys, ListOf, Text};
use std::alloc::{AllocError, Global};

// The keys and the first name of a path, if it has one.
fn with_first(alloc: Global, mut keys: Keys, path: &Path) -> Result<Keys, AllocError>
    ensures { IfOk result (λ more. more ≡ keys ++ first_name path.now) }
{
    if let Some(name) = path.names().first() {
        keys.push(Text::copied(alloc, name.as_bytes())?)?;
    }
    Ok(keys)
}

/// The first names of a change's paths, by which its shards are told. `AllocError` where memory is refused.
pub fn change_keys(alloc: Global, change: &Change) -> Result<Keys, AllocError>
    ensures { IfOk result (λ keys. keys ≡ change_keys change.now) }
{
    match change {
        Change::Make {
            path,
            value: _value,
        } => with_first(alloc, ListOf::new(alloc), path),
        Change::Remove { path } => with_first(alloc, ListOf::new(alloc), path),
        Change::Move { source, target } => {
            let keys = with_first(alloc, ListOf::new(alloc), source)?;
            with_first(alloc, keys, target)
        }
    }
}
