// A sink that keeps its bytes in memory, whose writes may be short and may fail.
ghost use Rattle.std.specs.Prelude.{◌≡◌, ◌<◌, length, take, Some, IsTrue, IsErr, IfOk, OnErr};
ghost use Rattle.fuzzy_io.specs.Causes.{CountsFaults, WritesSome};

use crate::sink::Sink;
use crate::source::Failed;
use std::alloc::{AllocError, Global};
use std::marker::Model;

/// Keeps the bytes that it took, at most `at_most` by a write. The writes with the listed numbers, counted from 0,
/// fail, and so does one for which memory is refused.
#[derive(Drop)]
pub struct MemorySink {
    bytes: Vec<u8>,
    at_most: u32,
    failing: Vec<u64>,
    writes: u64,
    faults: u64,
}

impl Model for MemorySink {
    ghost use Rattle.std.specs.Prelude.{◌<◌};
    ghost use Rattle.fuzzy_io.specs.Memory.{BytesHeld};

    ghost Value = { BytesHeld };

    ghost view = { λ s. record {
      bytes = s.bytes.items;
      at_most = s.at_most;
      failing = s.failing.items;
      writes = s.writes;
      faults = s.faults;
    } };

    ghost invariant = { λ s. 0 < s.at_most };
}

impl MemorySink {
    ghost use Rattle.fuzzy_io.specs.Memory.{empty_sink};

    /// A sink that has taken nothing yet.
    pub fn open(alloc: Global, at_most: u32, failing: &[u64]) -> Result<MemorySink, AllocError>
        requires { 0 < at_most }
        ensures { IfOk result (λ sink. sink ≡ empty_sink at_most failing.now) }
    {
        Ok(MemorySink {
            bytes: Vec::new(alloc),
            at_most,
            failing: failing.to_vec(alloc)?,
            writes: 0,
            faults: 0,
        })
    }

    /// The bytes that it took, in order.
    pub fn bytes(&self) -> &[u8]
        ensures { result.now ≡ self.now.bytes }
    {
        self.bytes.as_slice()
    }
}

impl Sink for MemorySink {
    ghost use Rattle.fuzzy_io.specs.Memory.{is_listed, write_count, after_write, after_failed_write};

    ghost holds = { λ sink. Some sink.bytes };

    ghost faults = { λ sink. sink.faults };

    fn write(&mut self, from: &[u8]) -> Result<usize, Failed>
        ensures bytes { WritesSome (Some self.old.bytes) (Some self.new.bytes) result from.now }
        ensures cause { CountsFaults self.old.faults self.new.faults result }
        ensures ok { IfOk result (λ n.
            (n ≡ write_count self.old (length from.now)) × (self.new ≡ after_write self.old (take n from.now))) }
        ensures err { OnErr result (self.new ≡ after_failed_write self.old) }
        ensures listed { IsTrue (is_listed self.old.failing self.old.writes) → IsErr result }
    {
        let number = self.writes;
        self.writes = number.saturating_add(1);
        if self.failing.contains(&number) {
            self.faults = self.faults.saturating_add(1);
            return Err(Failed);
        }
        let count = from.len().min(self.at_most as usize);
        if self.bytes.extend_from_slice(&from[..count]).is_err() {
            self.faults = self.faults.saturating_add(1);
            return Err(Failed);
        }
        Ok(count)
    }
}
