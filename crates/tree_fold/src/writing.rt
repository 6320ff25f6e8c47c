// The text of a change.
ghost use Rattle.std.specs.Prelude.{◌≡◌, ◌++◌, IfOk, OnOk};
ghost use Rattle.tree_fold.specs.Changes.{change_text, IsChange};

use crate::change::Change;
use log_node::Text;
use std::alloc::{AllocError, Global};

fn put_change(bytes: &mut Vec<u8>, change: &Change) -> Result<(), AllocError>
    ensures { OnOk result (bytes.new.items ≡ bytes.old.items ++ change_text change.now) }
{
    match change {
        Change::Make { path, value } => {
            bytes.extend_from_slice(b"k:")?;
            path.put(bytes)?;
            bytes.push(b'=')?;
            bytes.extend_from_slice(value.as_bytes())
        }
        Change::Remove { path } => {
            bytes.extend_from_slice(b"x:")?;
            path.put(bytes)
        }
        Change::Move { source, target } => {
            bytes.extend_from_slice(b"v:")?;
            source.put(bytes)?;
            bytes.push(b'>')?;
            target.put(bytes)
        }
    }
}

/// The text of a change that may be. `AllocError` where memory is refused.
pub fn write_change(alloc: Global, change: &Change) -> Result<Text, AllocError>
    requires { IsChange change.now }
    ensures { IfOk result (λ text. text ≡ change_text change.now) }
{
    let mut bytes = Vec::new(alloc);
    put_change(&mut bytes, change)?;
    Text::copied(alloc, &bytes)
}
