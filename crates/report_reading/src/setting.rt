// What is known of a report before it is read.
ghost use Rattle.std.specs.Prelude.{◌≡◌, []};
ghost use Rattle.report_reading.specs.Apart.{AreApart};
ghost use Rattle.report_reading.specs.Known.{is_many};

use script_text::Script;
use std::marker::Model;

/// The script, and for each command of a client in turn whether it gets from a causal map.
#[derive(Drop)]
pub struct Setting<'s> {
    script: &'s Script,
    many: &'s [bool],
}

impl<'s> Model for Setting<'s> {
    ghost use Rattle.report_reading.specs.Known.{Known};
    ghost use Rattle.report_reading.specs.Apart.{AreApart};

    ghost Value = { Known };

    ghost view = { λ s. record { script = s.script.now; many = s.many.now } };

    ghost invariant = { λ s. AreApart s.script.now };
}

impl<'s> Setting<'s> {
    /// A script, and no command.
    pub fn of(script: &'s Script) -> Setting<'s>
        requires { AreApart script.now }
        ensures { result ≡ record { script = script.now; many = [] } }
    {
        Setting { script, many: &[] }
    }

    /// A script, and for each command of a client whether it gets from a causal map.
    pub fn of_client(script: &'s Script, many: &'s [bool]) -> Setting<'s>
        requires { AreApart script.now }
        ensures { result ≡ record { script = script.now; many = many.now } }
    {
        Setting { script, many }
    }

    /// The script.
    pub fn script(&self) -> &'s Script
        ensures value { result.now ≡ self.now.script }
        ensures apart { AreApart result.now }
    {
        self.script
    }

    /// Whether the command in this place gets from a causal map.
    pub fn is_many(&self, place: usize) -> bool
        ensures { result ≡ is_many self.now place }
    {
        match self.many.get(place) {
            Some(many) => *many,
            None => false,
        }
    }
}
