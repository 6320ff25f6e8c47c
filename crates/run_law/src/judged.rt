// What a report is judged to be, or why it is not judged.

/// What a report of a script is judged to be.
#[derive(Clone, Copy)]
pub enum Judged {
    /// It keeps all rules.
    Lawful,
    /// This rule is the least that it breaks, by its number, from 1 to 14.
    Broken { rule: u8 },
}

/// Why no report is judged.
#[derive(Clone, Copy, Debug, PartialEq, Eq)]
pub enum JudgeFault {
    /// The reply to the command in this line is the first that hides what was done.
    Hidden { line: u32 },
    /// Memory was refused.
    NoMemory,
}
