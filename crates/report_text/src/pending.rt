// Bytes that wait to be written together.
ghost use Rattle.std.specs.Prelude.{◌≡◌, ◌+◌, ◌≤◌, [], ◌++◌, length, decimal};

use itoa::write_digits;
use std::marker::Model;

/// How many bytes are joined before they are written.
pub const PAGE: usize = 4096;

/// At most `PAGE` bytes, which contracts see as their list.
#[derive(Drop)]
pub struct Pending {
    bytes: [u8; PAGE],
    used: usize,
}

impl Model for Pending {
    ghost use Rattle.std.specs.Prelude.{ℕ, ◌≤◌, List, take};

    ghost Value = { List ℕ };

    ghost view = { λ p. take p.used p.bytes };

    ghost invariant = { λ p. p.used ≤ 4096 };
}

impl Pending {
    /// A page with nothing on it.
    pub fn new() -> Pending
        ensures { result ≡ [] }
    {
        Pending {
            bytes: [0; PAGE],
            used: 0,
        }
    }

    /// How many bytes wait.
    #[inline]
    pub fn len(&self) -> usize
        ensures len { result ≡ length self.now }
        ensures limit { result ≤ PAGE }
    {
        self.used
    }

    /// The bytes that wait.
    pub fn as_slice(&self) -> &[u8]
        ensures { result.now ≡ self.now }
    {
        &self.bytes[..self.used]
    }

    /// A piece more, for which there is room.
    #[inline]
    pub fn push(&mut self, piece: &[u8])
        requires { length self.old + length piece.now ≤ PAGE }
        ensures { self.new ≡ self.old ++ piece.now }
    {
        let end = self.used + piece.len();
        self.bytes[self.used..end].copy_from_slice(piece);
        self.used = end;
    }

    /// A number more, in this many digits, for which there is room.
    #[inline]
    pub fn push_number(&mut self, number: u64, digits: usize)
        requires digits { digits ≡ length (decimal number) }
        requires room { length self.old + digits ≤ PAGE }
        ensures { self.new ≡ self.old ++ decimal number }
    {
        let end = self.used + digits;
        write_digits(number, &mut self.bytes, end);
        self.used = end;
    }

    /// Nothing waits afterwards.
    pub fn clear(&mut self)
        ensures { self.new ≡ [] }
    {
        self.used = 0;
    }
}
