// The reads of objects that commits may use up.
ghost use Rattle.std.specs.Prelude.{◌≡◌, ℕ, IfOk, List, None, Option};
ghost use Rattle.std.specs.Option.{option_map};
ghost use Rattle.log_node.specs.declared.forms.Version.{Version as Found};
ghost use Rattle.col_core.specs.Keeping.{Kept, updated};
ghost use Rattle.col_core.specs.Log.{Log};
ghost use Rattle.script_text.specs.Commands.{use_of};
ghost use Rattle.script_text.specs.declared.script.Command.{Command};
ghost use Rattle.report_text.specs.declared.report.ReplyLine.{ReplyLine};
ghost use Rattle.lawful_run.specs.Callers.{Caller};
ghost use Rattle.lawful_run.specs.Deeds.{found_by};
ghost use Rattle.run_rules.specs.Told.{kept_past};
ghost use Rattle.run_rules.specs.Telling.{step_finding};
ghost use Rattle.walk_law.specs.Finds.{AreFoundAt, place_at};

use report_text::Answer;
use script_text::{ReadUse, Use, What};
use std::alloc::{AllocError, Global};
use std::marker::Model;
use walk_law::place_read;

// How many numbers objects have.
const NUMBERS: usize = 256;

/// The places among a client's replies of the reads that commits may use up, by object.
#[derive(Drop)]
pub(crate) struct ReadPlaces {
    places: Vec<Option<usize>>,
}

impl Model for ReadPlaces {
    ghost use Rattle.std.specs.Prelude.{◌≡◌, ℕ, List, Option, length};

    ghost Value = { List (Option ℕ) };

    ghost view = { λ p. p.places.items };

    ghost invariant = { λ p. length p.places.items ≡ 256 };
}

impl ReadPlaces {
    /// None yet.
    pub(crate) fn new(alloc: Global) -> Result<ReadPlaces, AllocError>
        ensures { IfOk result (λ places. (object : ℕ) → place_at places object ≡ None) }
    {
        Ok(ReadPlaces {
            places: vec![in alloc; None; NUMBERS]?,
        })
    }

    /// The place of the read that a command uses up.
    pub(crate) fn used(&self, what: &What) -> Option<usize>
        ensures { (found : ℕ → List Found) (kept : Kept) → AreFoundAt found kept.reads self.now
            → found_by (use_of what.now) kept ≡ option_map found result }
    {
        match what.use_of() {
            Use::OfObject {
                object,
                read: ReadUse::UsesUp,
            } => self.places[object as usize],
            _ => None,
        }
    }

    // The read of an object stands in this place, or there is none.
    fn keep(&mut self, object: u8, place: Option<usize>)
        ensures { (found : ℕ → List Found) (reads : ℕ → Option (List Found)) (versions : Option (List Found))
            → versions ≡ option_map found place → AreFoundAt found reads self.old
            → AreFoundAt found (updated reads object versions) self.new }
    {
        self.places[object as usize] = place;
    }

    /// Goes on behind a command, whose reply in this place is answered so.
    pub(crate) fn pass(&mut self, what: &What, answer: &Answer, place: usize)
        ensures { (found : ℕ → List Found) (log : Log) (caller : Caller) (shown : ℕ → ℕ → List ℕ) (kept : Kept) (command : Command)
            (reply : ReplyLine) → command.what ≡ what.now → reply.answer ≡ answer.now → AreFoundAt found kept.reads self.old
            → AreFoundAt found (kept_past log caller (step_finding log caller shown (found place) kept command reply)).reads self.new }
    {
        match what.use_of() {
            Use::OfObject {
                object,
                read: ReadUse::Takes,
            } => self.keep(object, place_read(answer, place)),
            Use::OfObject {
                object,
                read: ReadUse::UsesUp,
            } => self.keep(object, None),
            Use::OfObject {
                object: _object,
                read: ReadUse::Leaves,
            } => {}
            Use::OfLog { stops: _stops } => {}
        }
    }
}
