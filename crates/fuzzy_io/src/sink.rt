// Where bytes go to.
ghost use Rattle.std.specs.Prelude.{ℕ, List};
ghost use Rattle.std.specs.declared.option.Option.{Option};
ghost use Rattle.fuzzy_io.specs.Causes.{CountsFaults, WritesSome};

use crate::source::Failed;

/// Where bytes go to.
pub trait Sink {
    /// What it holds, where it is told.
    ghost holds: { Self → Option (List ℕ) };

    /// How often it has failed, up to `u64::MAX`.
    ghost faults: { Self → ℕ };

    /// Takes a front of the piece and says how long that is: at least one byte, of a piece that is not empty.
    fn write(&mut self, from: &[u8]) -> Result<usize, Failed>
        ensures bytes { WritesSome (holds self.old) (holds self.new) result from.now }
        ensures cause { CountsFaults (faults self.old) (faults self.new) result };
}
