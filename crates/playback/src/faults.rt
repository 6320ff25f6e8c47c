// Why nothing was played.
ghost use Rattle.std.specs.Prelude.{◌≡◌};
ghost use Rattle.playback.specs.declared.faults.PlayFault.TheVariants.{NoMemory};

use log_node::Counts;
use std::alloc::AllocError;
use std::error::Error;
use std::fmt;

/// Why nothing was played. The player is then as before.
#[derive(Clone, Copy, Debug, PartialEq, Eq)]
pub enum PlayFault {
    /// A played count is below the base, so nodes that were not played are trimmed.
    Trimmed { base: Counts },
    /// Memory was refused.
    NoMemory,
}

impl fmt::Display for PlayFault {
    ghost use Rattle.std.specs.Prelude.{Some};
    ghost use Rattle.playback.specs.Playing.{fault_text};

    ghost output = { λ fault. Some (fault_text fault) };

    fn fmt<W: fmt::Write>(&self, f: &mut fmt::Formatter<W>) -> fmt::Result {
        match self {
            PlayFault::Trimmed { base } => {
                let [a, b, c, d] = base.0;
                write!(f, "trimmed below {a},{b},{c},{d}")
            }
            PlayFault::NoMemory => write!(f, "out of memory"),
        }
    }
}

impl Error for PlayFault {}

impl From<AllocError> for PlayFault {
    ghost from_gives = { λ _ e. e ≡ NoMemory };

    fn from(_: AllocError) -> PlayFault {
        PlayFault::NoMemory
    }
}
