// Reading all of a source, up to a limit.
ghost use Rattle.std.specs.Prelude.{◌≡◌, ◌≢◌, ◌+◌, ◌<◌, ◌≤◌, length, Err, OnOk, IfOk, IfSome, IsErrOf, vec_len};
ghost use Rattle.std.specs.Io.KnownBytes.{IsAtEnd};
ghost use Rattle.fuzzy_io.specs.Causes.{Rose, ConsumesUpTo};

use crate::source::Source;
use std::alloc::Global;

/// How many bytes are asked for at a time.
const PIECE: usize = 65_536;

/// Why reading ended early.
#[derive(Clone, Copy, Debug, PartialEq, Eq)]
pub enum ReadStop {
    /// The source failed.
    Failed,
    /// There are more bytes than the limit. One byte past it was read, and no more.
    TooLong,
    /// Memory was refused.
    NoMemory,
}

// How many bytes to ask for with so many at hand: one past the limit at most.
fn next_room(held: usize, most: usize) -> usize
    requires { held ≤ most }
    ensures some { (0 < result) × (result ≤ PIECE) }
    ensures limit { held + result ≤ most + 1 }
{
    (most - held).min(PIECE - 1) + 1
}

/// Reads to the end, or until `most` bytes and one more have come.
pub fn read_all<S: Source>(alloc: Global, source: &mut S, most: usize) -> Result<Vec<u8>, ReadStop>
    // What Ok gives is all that was left, and no more than the limit.
    ensures all { IfOk result (λ bytes. IfSome (S.left source.old) (λ all. bytes.items ≡ all)) }
    ensures end { OnOk result (IsAtEnd (S.left source.new)) }
    ensures within { IfOk result (λ bytes. vec_len bytes ≤ most) }
    // When it refuses. Memory alone may be refused at any time.
    ensures failed { IsErrOf result ReadStop.Failed → Rose (S.faults source.old) (S.faults source.new) }
    ensures too_long { IsErrOf result ReadStop.TooLong → IfSome (S.left source.old) (λ all. most < length all) }
    // Whatever it answers, no more is read than one byte past the limit, and no other fault rose.
    ensures taken { ConsumesUpTo most (S.left source.old) (S.left source.new) }
    ensures clean { result ≢ Err ReadStop.Failed → S.faults source.new ≡ S.faults source.old }
{
    let mut bytes = Vec::new(alloc);
    let mut piece = [0; PIECE];
    loop {
        let front = &mut piece[..next_room(bytes.len(), most)];
        let count = match source.read(front) {
            Ok(count) => count,
            Err(_) => return Err(ReadStop::Failed),
        };
        if count == 0 {
            return Ok(bytes);
        }
        if bytes.extend_from_slice(&front[..count]).is_err() {
            return Err(ReadStop::NoMemory);
        }
        if bytes.len() > most {
            return Err(ReadStop::TooLong);
        }
    }
}
