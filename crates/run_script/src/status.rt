// How a run ends.
ghost use Rattle.std.specs.Prelude.{◌≡◌};
ghost use Rattle.std.specs.Option.{option_map};
ghost use Rattle.run_script.specs.Statuses.{code_of, complaint_of};

/// How a run ends; the program exits with its code.
#[derive(Clone, Copy, Debug, PartialEq, Eq)]
pub enum Status {
    /// The source was read to its end, and the whole report was written.
    Done,
    /// The words are none that the program knows. Nothing was read or written.
    BadWords,
    /// The bytes are no script that can be done, and the line that says why was written.
    Refused,
    /// The source failed. Nothing was written.
    ReadFault,
    /// The sink failed. It got the beginning of the text.
    WriteFault,
    /// Memory was refused. Nothing was written.
    NoMemory,
    /// The report is not lawful, and the line with the first rule that it breaks was written.
    Unlawful,
}

impl Status {
    /// The exit code, 0 to 6.
    pub fn code(self) -> u8
        ensures { result ≡ code_of self }
    {
        match self {
            Status::Done => 0,
            Status::BadWords => 1,
            Status::Refused => 2,
            Status::ReadFault => 3,
            Status::WriteFault => 4,
            Status::NoMemory => 5,
            Status::Unlawful => 6,
        }
    }
    /// What is said on standard error; what was done, refused or found unlawful was said to the sink.
    pub fn complaint(self) -> Option<&'static str>
        ensures { option_map (λ s. s.now) result ≡ complaint_of self }
    {
        match self {
            Status::Done | Status::Refused | Status::Unlawful => None,
            Status::BadWords => Some("usage: fuzzy_run step, run, check or load N"),
            Status::ReadFault => Some("fuzzy_run: the input failed"),
            Status::WriteFault => Some("fuzzy_run: the output failed"),
            Status::NoMemory => Some("fuzzy_run: out of memory"),
        }
    }
}
