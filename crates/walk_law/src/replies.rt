// The first rule's replies: each client has one for each of its commands, in their order, that the command can have.
ghost use Rattle.std.specs.Prelude.{◌≡◌, ◌+◌, ◌∷◌, ◌<◌, ◌≤◌, ◌^◌, ℕ, IfOk, List, Option, Some, length, slice_get};
ghost use Rattle.std.specs.List.{All};
ghost use Rattle.std.specs.Option.{option_copied};
ghost use Rattle.log_node.specs.declared.forms.Version.{Version};
ghost use Rattle.col_core.specs.Keeping.{Kept, nothing_kept, updated};
ghost use Rattle.col_core.specs.Log.{Log};
ghost use Rattle.script_text.specs.Commands.{use_of};
ghost use Rattle.script_text.specs.declared.script.Command.{Command};
ghost use Rattle.report_text.specs.declared.report.ReplyLine.{ReplyLine};
ghost use Rattle.column_track.specs.Tracks.{Tells};
ghost use Rattle.lawful_run.specs.Callers.{Caller};
ghost use Rattle.lawful_run.specs.Deeds.{found_by};
ghost use Rattle.run_rules.specs.Told.{Step, kept_at, kept_past};
ghost use Rattle.run_rules.specs.Telling.{step_of};
ghost use Rattle.run_rules.specs.Rules.{IsReplyTo};
ghost use Rattle.walk_law.specs.Asking.{AreFoundOf, HaveLowColours};
ghost use Rattle.walk_law.specs.Keepings.{IsFoundAt};
ghost use Rattle.walk_law.specs.Replies.{AreAllPassed, AreAllReplies, AreReadsAt, AreReplies, GoesOn, HasCome, IsBegun, place_read};

use crate::asked::colours_asked;
use crate::can_have::can_have;
use log_node::ListOf;
use report_text::{Answer, ClientReport, KeyAnswer, ReplyLine};
use script_text::{Command, Object, ReadUse, Script, Use, What};
use std::alloc::{AllocError, Global};
use std::marker::Model;

// How many numbers objects have.
const NUMBERS: usize = 256;

// How many of a client's replies are passed, and the place among them of each object's read that a commit may use up.
#[derive(Drop)]
struct Progress {
    next: usize,
    reads: Vec<Option<usize>>,
}

impl Model for Progress {
    ghost use Rattle.walk_law.specs.Replies.{Passed};

    ghost Value = { Passed };

    ghost view = { λ p. record { next = p.next; reads = p.reads.items } };

    ghost use Rattle.std.specs.Prelude.{◌≡◌, length};

    ghost invariant = { λ p. length p.reads.items ≡ 256 };
}

/// The keys that are shown by the reply in this place, where it is that of a read.
pub(crate) fn keys_at<'r>(
    replies: &'r [ReplyLine],
    place: Option<usize>,
) -> Option<&'r ListOf<KeyAnswer>>
    ensures { (found : Option (List Version)) → IsFoundAt replies.now found place → AreFoundOf found (option_copied result) }
{
    match &replies.get(place?)?.answer {
        Answer::GotKeys { keys, .. } => Some(keys),
        _ => None,
    }
}

/// The place of a reply, where it shows what a read found.
pub fn place_read(answer: &Answer, place: usize) -> Option<usize>
    ensures { result ≡ place_read answer.now place }
{
    match answer {
        Answer::GotKeys { .. } => Some(place),
        _ => None,
    }
}

impl Progress {
    // None is passed.
    fn new(alloc: Global) -> Result<Progress, AllocError>
        ensures { IfOk result IsBegun }
    {
        Ok(Progress {
            next: 0,
            reads: vec![in alloc; None; NUMBERS]?,
        })
    }

    // The keys of the read that a command uses up, where it is a commit that has one.
    fn used<'r>(&self, what: &What, replies: &'r [ReplyLine]) -> Option<&'r ListOf<KeyAnswer>>
        ensures { (kept : Kept) → AreReadsAt replies.now kept.reads self.now.reads
            → AreFoundOf (found_by (use_of what.now) kept) (option_copied result) }
    {
        match what.use_of() {
            Use::OfObject {
                object,
                read: ReadUse::UsesUp,
            } => keys_at(replies, self.reads[object as usize]),
            _ => None,
        }
    }

    // The read of an object is that of the reply in this place, or there is none.
    fn keep(&mut self, object: u8, place: Option<usize>)
        ensures reads { (replies : List ReplyLine) (reads : ℕ → Option (List Version)) (found : Option (List Version))
            → IsFoundAt replies found place → AreReadsAt replies reads self.old.reads
            → AreReadsAt replies (updated reads object found) self.new.reads }
        ensures next { self.new.next ≡ self.old.next }
    {
        self.reads[object as usize] = place;
    }

    // What the next reply tells of the reads that commits may use up.
    fn read(&mut self, command: &Command, reply: &ReplyLine)
        ensures reads { (log : Log) (caller : Caller) (shown : ℕ → ℕ → List ℕ) (kept : Kept) (replies : List ReplyLine)
            → slice_get replies self.old.next ≡ Some reply.now → AreReadsAt replies kept.reads self.old.reads
            → AreReadsAt replies (kept_past log caller (step_of log caller shown kept command.now reply.now)).reads self.new.reads }
        ensures next { self.new.next ≡ self.old.next }
    {
        match command.what.use_of() {
            Use::OfObject {
                object,
                read: ReadUse::Takes,
            } => self.keep(object, place_read(&reply.answer, self.next)),
            Use::OfObject {
                object,
                read: ReadUse::UsesUp,
            } => self.keep(object, None),
            Use::OfObject {
                object: _object,
                read: ReadUse::Leaves,
            } => {}
            Use::OfLog { stops: _stops } => {}
        }
    }

    // The next reply is passed, which is one to this command.
    fn pass(&mut self, command: &Command, reply: &ReplyLine)
        requires { self.old.next + 1 < 2 ^ 64 }
        ensures reads { (log : Log) (caller : Caller) (shown : ℕ → ℕ → List ℕ) (kept : Kept) (replies : List ReplyLine)
            → slice_get replies self.old.next ≡ Some reply.now → AreReadsAt replies kept.reads self.old.reads
            → AreReadsAt replies (kept_past log caller (step_of log caller shown kept command.now reply.now)).reads self.new.reads }
        ensures next { self.new.next ≡ self.old.next + 1 }
    {
        self.read(command, reply);
        self.next += 1;
    }

    // Whether all of a client's replies are passed.
    fn has_passed(&self, client: &ClientReport) -> bool
        ensures { Tells result (length client.now.replies ≤ self.now.next) }
    {
        client.replies.len() <= self.next
    }
}

// Whether a reply has a command's line and word, and an answer that the command can have, of a client whose last read of the
// object showed these keys; they are given for a commit alone.
fn is_reply_to(
    alloc: Global,
    objects: &[Object],
    command: &Command,
    found: Option<&ListOf<KeyAnswer>>,
    reply: &ReplyLine,
) -> Result<bool, AllocError>
    requires { HaveLowColours objects.now }
    ensures { (caller : Caller) (step : Step) → caller.objects ≡ objects.now → step.command ≡ command.now
        → step.reply ≡ reply.now → AreFoundOf (found_by (use_of command.now.what) (kept_at step)) (option_copied found.entry)
        → IfOk result (λ ok. Tells ok (IsReplyTo caller step)) }
{
    if reply.line != command.line || reply.word != command.what.word() {
        return Ok(false);
    }
    let asked = colours_asked(alloc, objects, &command.what, found)?;
    can_have(
        alloc,
        objects,
        &command.what,
        asked.as_slice(),
        &reply.nodes,
        &reply.answer,
    )
}

// Whether the client's next reply is there, and one to this command; it is passed then.
fn passes(
    alloc: Global,
    objects: &[Object],
    command: &Command,
    replies: &[ReplyLine],
    progress: &mut Progress,
) -> Result<bool, AllocError>
    requires { HaveLowColours objects.now }
    ensures { (log : Log) (caller : Caller) (shown : ℕ → ℕ → List ℕ) (all left : List Command)
        → caller.objects ≡ objects.now → HasCome log caller shown all replies.now (command.now ∷ left) progress.old
        → IfOk result (λ ok. GoesOn ok (HasCome log caller shown all replies.now left progress.new)
        (AreReplies log caller shown nothing_kept all replies.now)) }
{
    let Some(reply) = replies.get(progress.next) else {
        return Ok(false);
    };
    let found = progress.used(&command.what, replies);
    if !is_reply_to(alloc, objects, command, found, reply)? {
        return Ok(false);
    }
    progress.pass(command, reply);
    Ok(true)
}

// None of so many clients' replies are passed.
fn begun(alloc: Global, clients: usize) -> Result<Vec<Progress>, AllocError>
    ensures each { IfOk result (λ progress. All IsBegun progress.items) }
    ensures len { IfOk result (λ progress. length progress.items ≡ clients) }
{
    let mut progress = Vec::new(alloc);
    for _ in 0..clients {
        progress.push(Progress::new(alloc)?)?;
    }
    Ok(progress)
}

// Whether all replies of each client are passed.
fn are_passed(clients: &[ClientReport], progress: &[Progress]) -> bool
    requires { length progress.now ≡ length clients.now }
    ensures { Tells result (AreAllPassed clients.now progress.now) }
{
    for at in 0..clients.len() {
        if !progress[at].has_passed(&clients[at]) {
            return false;
        }
    }
    true
}

/// Whether each client has one reply for each of its commands, in their order, and an answer that the command can have.
pub fn are_replies(
    alloc: Global,
    script: &Script,
    clients: &[ClientReport],
) -> Result<bool, AllocError>
    requires low { HaveLowColours script.now.objects }
    requires callers { All (λ (c : Command). c.client < length clients.now) script.now.commands }
    ensures { (log : Log) (shown : ℕ → ℕ → ℕ → List ℕ)
        → IfOk result (λ ok. Tells ok (AreAllReplies log shown script.now clients.now)) }
{
    let objects = script.objects.as_slice();
    let mut progress = begun(alloc, clients.len())?;
    for command in script.commands.as_slice() {
        let client = command.client as usize;
        let replies = clients[client].replies.as_slice();
        if !passes(alloc, objects, command, replies, &mut progress[client])? {
            return Ok(false);
        }
    }
    Ok(are_passed(clients, progress.as_slice()))
}
