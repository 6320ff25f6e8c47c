// Reading the front of a source.
ghost use Rattle.std.specs.Prelude.{◌≡◌, ◌+◌, ◌<◌, ◌≤◌, take, IfOk, IfSome, IsErrOf};
ghost use Rattle.fuzzy_io.specs.Causes.{Rose, ConsumesUpTo};

use fuzzy_io::Source;
use std::alloc::Global;

/// How many bytes are asked for at a time.
const PIECE: usize = 65_536;

/// Why the front of a source was not had.
#[derive(Clone, Copy, Debug, PartialEq, Eq)]
pub enum FrontFault {
    /// The source failed.
    Failed,
    /// Memory was refused.
    NoMemory,
}

// How many bytes to ask for with so many at hand: one past the limit at most.
fn next_room(held: usize, most: usize) -> usize
    requires { held ≤ most }
    ensures some { (0 < result) × (result ≤ PIECE) }
    ensures limit { held + result ≤ most + 1 }
{
    (most - held).min(PIECE - 1) + 1
}

/// Reads to the end, or until `most` bytes and one more have come.
pub fn read_front<S: Source>(
    alloc: Global,
    source: &mut S,
    most: usize,
) -> Result<Vec<u8>, FrontFault>
    ensures front { IfOk result (λ bytes. IfSome (S.left source.old) (λ all. bytes.items ≡ take (most + 1) all)) }
    // When it gives none. Memory alone may be refused at any time.
    ensures failed { IsErrOf result FrontFault.Failed → Rose (S.faults source.old) (S.faults source.new) }
    // Whatever it answers, no more is read than one byte past the limit.
    ensures taken { ConsumesUpTo most (S.left source.old) (S.left source.new) }
{
    let mut bytes = Vec::new(alloc);
    let mut piece = [0; PIECE];
    while bytes.len() <= most {
        let front = &mut piece[..next_room(bytes.len(), most)];
        let count = match source.read(front) {
            Ok(count) => count,
            Err(_) => return Err(FrontFault::Failed),
        };
        if count == 0 {
            return Ok(bytes);
        }
        if bytes.extend_from_slice(&front[..count]).is_err() {
            return Err(FrontFault::NoMemory);
        }
    }
    Ok(bytes)
}
