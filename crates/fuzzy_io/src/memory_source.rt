// A source over bytes in memory, whose reads may be short and may fail.
ghost use Rattle.std.specs.Prelude.{◌≡◌, ◌<◌, ◌++◌, length, take, drop, Some, IfOk};
ghost use Rattle.std.specs.Io.{ReadsAtMost};
ghost use Rattle.std.specs.Io.KnownBytes.{ReadConsumes};
ghost use Rattle.fuzzy_io.specs.Causes.{CountsFaults};

use crate::source::{Failed, Source};
use std::alloc::{AllocError, Global};
use std::marker::Model;

/// Bytes in memory. A read gives at most `at_most` of them; the reads with the listed numbers, counted from 0, fail.
#[derive(Drop)]
pub struct MemorySource {
    bytes: Vec<u8>,
    given: usize,
    at_most: u32,
    failing: Vec<u64>,
    reads: u64,
    faults: u64,
}

impl Model for MemorySource {
    ghost use Rattle.std.specs.Prelude.{◌<◌, ◌≤◌, drop, length};
    ghost use Rattle.fuzzy_io.specs.Memory.{BytesLeft};

    ghost Value = { BytesLeft };

    ghost view = { λ s. record {
      unread = drop s.given s.bytes.items;
      at_most = s.at_most;
      failing = s.failing.items;
      reads = s.reads;
      faults = s.faults;
    } };

    ghost invariant = { λ s. (s.given ≤ length s.bytes.items) × (0 < s.at_most) };
}

impl MemorySource {
    ghost use Rattle.fuzzy_io.specs.Memory.{unread_source};

    /// A source that has given nothing yet.
    pub fn open(
        alloc: Global,
        bytes: &[u8],
        at_most: u32,
        failing: &[u64],
    ) -> Result<MemorySource, AllocError>
        requires { 0 < at_most }
        ensures { IfOk result (λ source. source ≡ unread_source bytes.now at_most failing.now) }
    {
        Ok(MemorySource {
            bytes: bytes.to_vec(alloc)?,
            given: 0,
            at_most,
            failing: failing.to_vec(alloc)?,
            reads: 0,
            faults: 0,
        })
    }
}

impl Source for MemorySource {
    ghost use Rattle.fuzzy_io.specs.Memory.{read_answer, read_piece, after_read};

    ghost left = { λ source. Some source.unread };

    ghost faults = { λ source. source.faults };

    fn read(&mut self, into: &mut [u8]) -> Result<usize, Failed>
        ensures bound { ReadsAtMost result into.new }
        ensures bytes { ReadConsumes (Some self.old.unread) (Some self.new.unread) result into.new }
        ensures cause { CountsFaults self.old.faults self.new.faults result }
        ensures value { result ≡ read_answer self.old (length into.old) }
        ensures piece { into.new ≡ read_piece self.old into.old }
        ensures after { self.new ≡ after_read self.old (length into.old) }
    {
        let number = self.reads;
        self.reads = number.saturating_add(1);
        if self.failing.contains(&number) {
            self.faults = self.faults.saturating_add(1);
            return Err(Failed);
        }
        let unread = &self.bytes[self.given..];
        let count = unread.len().min(into.len()).min(self.at_most as usize);
        into[..count].copy_from_slice(&unread[..count]);
        self.given += count;
        Ok(count)
    }
}
