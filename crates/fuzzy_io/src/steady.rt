// A source and a sink that never fail, so that their counts of faults are the constant 0.
ghost use Rattle.std.specs.Prelude.{◌≡◌, drop, length, min, None, Ok, Some, IfOk};
ghost use Rattle.std.specs.Io.{ReadsAtMost};
ghost use Rattle.std.specs.Io.KnownBytes.{ReadConsumes};
ghost use Rattle.fuzzy_io.specs.Causes.{CountsFaults, WritesSome};

use crate::sink::Sink;
use crate::source::{Failed, Source};
use std::alloc::{AllocError, Global};
use std::marker::Model;

/// Bytes in memory, of which a read gives as many as there is room for. Contracts see those that are left.
#[derive(Drop)]
pub struct SteadySource {
    bytes: Vec<u8>,
    given: usize,
}

impl Model for SteadySource {
    ghost use Rattle.std.specs.Prelude.{List, ℕ, ◌≤◌, drop, length};

    ghost Value = { List ℕ };

    ghost view = { λ s. drop s.given s.bytes.items };

    ghost invariant = { λ s. s.given ≤ length s.bytes.items };
}

impl SteadySource {
    /// A source that has given nothing yet.
    pub fn open(alloc: Global, bytes: &[u8]) -> Result<SteadySource, AllocError>
        ensures { IfOk result (λ source. source ≡ bytes.now) }
    {
        Ok(SteadySource {
            bytes: bytes.to_vec(alloc)?,
            given: 0,
        })
    }
}

impl Source for SteadySource {
    ghost left = { λ source. Some source };

    ghost faults = { λ source. 0 };

    fn read(&mut self, into: &mut [u8]) -> Result<usize, Failed>
        ensures bound { ReadsAtMost result into.new }
        ensures bytes { ReadConsumes (Some self.old) (Some self.new) result into.new }
        ensures cause { CountsFaults 0 0 result }
        ensures value { result ≡ Ok (min (length self.old) (length into.old)) }
        ensures after { self.new ≡ drop (min (length self.old) (length into.old)) self.old }
    {
        let unread = &self.bytes[self.given..];
        let count = unread.len().min(into.len());
        into[..count].copy_from_slice(&unread[..count]);
        self.given += count;
        Ok(count)
    }
}

/// Takes every piece whole and keeps nothing, so that it tells nothing of its bytes.
pub struct SteadySink;

impl Sink for SteadySink {
    ghost holds = { λ sink. None };

    ghost faults = { λ sink. 0 };

    fn write(&mut self, from: &[u8]) -> Result<usize, Failed>
        ensures bytes { WritesSome None None result from.now }
        ensures cause { CountsFaults 0 0 result }
        ensures whole { result ≡ Ok (length from.now) }
    {
        Ok(from.len())
    }
}
