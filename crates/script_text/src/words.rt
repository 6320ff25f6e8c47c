// The words of reasons.
use crate::script::Reason;
use std::fmt;

impl Reason {
    ghost use Rattle.std.specs.Prelude.{◌≡◌};
    ghost use Rattle.script_text.specs.Words.{reason_text};

    /// The reason in words.
    pub fn as_str(&self) -> &'static str
        ensures { result.now ≡ reason_text self.now }
    {
        match self {
            Reason::ScriptTooLong => "script too long",
            Reason::TooManyLines => "too many lines",
            Reason::NotAscii => "not ascii",
            Reason::BadVersion => "bad version",
            Reason::BadForm => "bad form",
            Reason::BadHeader => "bad header",
            Reason::UnknownClient => "unknown client",
            Reason::ClientStopped => "client stopped",
            Reason::UnknownCommand => "unknown command",
            Reason::StopNeedsTwoColours => "stop needs two colours",
            Reason::BadNumber => "bad number",
            Reason::NoRead => "no read",
            Reason::MissingBegin => "missing begin",
            Reason::BadName => "bad name",
            Reason::NameRepeated => "name repeated",
            Reason::UnknownRegion => "unknown region",
            Reason::UnknownColour => "unknown colour",
            Reason::ColourRepeated => "colour repeated",
            Reason::ColourTaken => "colour taken",
            Reason::TextLength => "text length",
            Reason::ReservedText => "reserved text",
            Reason::UnknownObject => "unknown object",
            Reason::WrongObject => "wrong object",
            Reason::BadKey => "bad key",
            Reason::KeyRepeated => "key repeated",
            Reason::BadValue => "bad value",
            Reason::BadPath => "bad path",
        }
    }
}

impl fmt::Display for Reason {
    ghost use Rattle.std.specs.Prelude.{Some};
    ghost use Rattle.script_text.specs.Words.{reason_text};

    ghost output = { λ reason. Some (reason_text reason) };

    fn fmt<W: fmt::Write>(&self, f: &mut fmt::Formatter<W>) -> fmt::Result {
        f.write_str(self.as_str())
    }
}
