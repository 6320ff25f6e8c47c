// Why a report is not read.
ghost use Rattle.std.specs.Prelude.{◌≡◌};
ghost use Rattle.report_reading.specs.declared.fault.ReadFault.TheVariants.{Memory};

use std::alloc::{AllocError, AllocFailed};

/// Why a report is not read.
#[derive(Clone, Copy, Debug, PartialEq, Eq)]
pub enum ReportFault {
    /// The bytes, this many, are the text of no report of the script.
    BadForm { len: u64 },
    /// Memory was refused.
    NoMemory,
}

/// Why a part of a report is not read.
#[derive(Clone, Copy, Drop)]
pub enum ReadFault {
    /// Memory was refused.
    Memory,
    /// No such part begins here.
    Form,
}

impl From<AllocError> for ReadFault {
    ghost from_gives = { λ _ e. e ≡ Memory };

    fn from(_e: AllocError) -> ReadFault {
        ReadFault::Memory
    }
}

impl<T: Drop> From<AllocFailed<T>> for ReadFault {
    ghost from_gives = { λ _ e. e ≡ Memory };

    fn from(_e: AllocFailed<T>) -> ReadFault {
        ReadFault::Memory
    }
}
