// Where bytes come from, and the one fault of a read or a write.
ghost use Rattle.std.specs.Prelude.{ℕ, List};
ghost use Rattle.std.specs.declared.option.Option.{Option};
ghost use Rattle.std.specs.Io.{ReadsAtMost};
ghost use Rattle.std.specs.Io.KnownBytes.{ReadConsumes};
ghost use Rattle.fuzzy_io.specs.Causes.{CountsFaults};

/// It could not be done, and the count of faults rose.
#[derive(Clone, Copy, Debug, PartialEq, Eq)]
pub struct Failed;

/// Where bytes come from.
pub trait Source {
    /// What is left to read, where it is told.
    ghost left: { Self → Option (List ℕ) };

    /// How often it has failed, up to `u64::MAX`.
    ghost faults: { Self → ℕ };

    /// Puts the next bytes at the front of the piece and says how many they are. For a piece that is not empty, none
    /// is the end of input.
    fn read(&mut self, into: &mut [u8]) -> Result<usize, Failed>
        ensures bound { ReadsAtMost result into.new }
        ensures bytes { ReadConsumes (left self.old) (left self.new) result into.new }
        ensures cause { CountsFaults (faults self.old) (faults self.new) result };
}
