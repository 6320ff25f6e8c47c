// Pairs once more, for a text that is appended.
ghost use Rattle.std.specs.Prelude.{◌≡◌, IfOk};

use log_node::{ListOf, Pair, Pairs, Text};
use std::alloc::{AllocError, Global};

/// The same pairs once more.
pub fn copied_pairs(alloc: Global, pairs: &[Pair]) -> Result<Pairs, AllocError>
    ensures { IfOk result (λ copy. copy ≡ pairs.now) }
{
    let mut copy = ListOf::with_capacity(alloc, pairs.len())?;
    for pair in pairs {
        let key = Text::copied(alloc, pair.key.as_bytes())?;
        let value = Text::copied(alloc, pair.value.as_bytes())?;
        copy.push(Pair { key, value })?;
    }
    Ok(copy)
}
