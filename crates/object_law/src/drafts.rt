// The nodes that commands appended, but for what their texts say of what reads found.
ghost use Rattle.std.specs.Prelude.{◌≡◌, ◌+◌, ◌∷◌, ◌++◌, ◌<◌, ◌≤◌, ℕ, [], IfOk, IfSome, OnOk, List, Some, length, slice_get};
ghost use Rattle.std.specs.Option.{option_copied, option_map};
ghost use Rattle.log_node.specs.declared.forms.Version.{Version as Found};
ghost use Rattle.col_core.specs.Keeping.{Kept, nothing_kept};
ghost use Rattle.script_text.specs.Commands.{use_of};
ghost use Rattle.script_text.specs.Fitting.{IsWithin};
ghost use Rattle.script_text.specs.declared.script.Command.{Command as Asked};
ghost use Rattle.report_text.specs.declared.report.ReplyLine.{ReplyLine as Replied};
ghost use Rattle.lawful_run.specs.Callers.{caller_of, commands_of};
ghost use Rattle.lawful_run.specs.Deeds.{found_by};
ghost use Rattle.run_rules.specs.Told.{Untold, kept_appending, kept_told};
ghost use Rattle.run_rules.specs.Telling.{FindKeys, replies_to, untold_told};
ghost use Rattle.object_law.specs.Drafts.{AreDrafts, AreDraftsOf, SaysDraft, StepsOn, draft_in, found_used, pairs_at, pairs_written};
ghost use Rattle.walk_law.specs.Finds.{AreFoundAt, CountsFinding, decision_at};
ghost use Rattle.walk_law.specs.Keepings.{IsCounted};
ghost use Rattle.walk_law.specs.Walking.{HasFew, IsStepOf, log_walked, places_printed};

use crate::finds::Decisions;
use crate::node_said::node_saying;
use crate::read_places::ReadPlaces;
use log_node::{Id, ListOf, Node, Version};
use part_fold::Decision;
use report_text::Answer;
use script_text::What;
use std::alloc::{AllocError, Global};
use std::marker::Model;
use walk_law::{Keeping, Subject, kind_asked, tells_node, text_said};

/// A read that a commit uses up, and the commit, by their places among their client's commands.
#[derive(Clone, Copy)]
pub(crate) struct Used {
    pub(crate) read: usize,
    pub(crate) commit: usize,
}

/// A command's node. Where it is that of a commit, its text has to be written by what the read found that the commit uses up.
#[derive(Drop)]
pub(crate) struct Draft {
    pub(crate) node: Node,
    pub(crate) used: Option<Used>,
}

// What stands for what a read found that a commit uses up: nothing, where there is one.
fn nothing_found(used: Option<Used>) -> Option<&'static [Version]>
    ensures { option_copied result ≡ option_map (λ u. []) used }
{
    match used {
        Some(_) => Some(&[]),
        None => None,
    }
}

// The draft of a node, where there is one.
fn drafted(node: Option<Node>, used: Option<Used>) -> Option<Draft>
    ensures { result ≡ option_map (λ n. record { node = n; used = used }) node }
{
    match node {
        Some(node) => Some(Draft { node, used }),
        None => None,
    }
}

// The draft of the node of a client's command, where the answer tells one: by the read that it uses up, and by what a decision says.
// The client keeps this when the node is appended.
fn draft_appended(
    alloc: Global,
    subject: &Subject<'_>,
    client: u8,
    keeping: &Keeping,
    what: &What,
    answer: &Answer,
    used: Option<Used>,
    decision: Decision,
) -> Result<Option<Draft>, AllocError>
    requires client { client < length subject.now.report.clients }
    requires few { HasFew keeping.now }
    requires within { IsWithin subject.now.script.shape.regions subject.now.script.shape.colours what.now }
    requires counts { (kept : Kept) × IsCounted (replies_to subject.now.report client) kept keeping.now }
    ensures { (kept : Kept) (commands : List Asked) (found : ℕ → List Found)
        → IsCounted (replies_to subject.now.report client) kept keeping.now
        → found_by (use_of what.now) kept ≡ found_used found used
        → IfSome used (λ u. pairs_at commands u.commit ≡ pairs_written what.now)
        → IfOk result (SaysDraft commands found decision (caller_of subject.now.script client) kept what.now answer.now) }
{
    subject.agrees();
    let asked = keeping.asked(alloc, subject, client, what)?;
    if !tells_node(1 < asked.len(), answer) {
        return Ok(None);
    }
    let kind = kind_asked(subject.script().objects.as_slice(), what);
    let text = text_said(alloc, kind, what, nothing_found(used), decision)?;
    let own = subject.own(client);
    let node = node_saying(alloc, client, own, keeping, what, asked.as_slice(), text)?;
    Ok(drafted(node, used))
}

/// A client's commands that are gone over: what it keeps, and the places of the reads that commits may use up.
#[derive(Drop)]
pub(crate) struct Going {
    keeping: Keeping,
    places: ReadPlaces,
}

impl Going {
    /// Before the first command.
    pub(crate) fn new(alloc: Global) -> Result<Going, AllocError>
        ensures counts { (replies : List Replied) (found : ℕ → List Found)
            → IfOk result (λ g. CountsFinding replies found nothing_kept g.keeping g.places) }
        ensures none { IfOk result (λ g. (g.keeping.ids ≡ 0) × (g.keeping.rows ≡ 0)) }
    {
        Ok(Going {
            keeping: Keeping::new(alloc)?,
            places: ReadPlaces::new(alloc)?,
        })
    }

    // The read that the command in this place uses up, where it is a commit that has one.
    fn used(&self, what: &What, place: usize) -> Option<Used>
        ensures read { (found : ℕ → List Found) (kept : Kept) → AreFoundAt found kept.reads self.now.places
            → found_by (use_of what.now) kept ≡ found_used found result }
        ensures commit { IfSome result (λ u. u.commit ≡ place) }
    {
        match self.places.used(what) {
            Some(read) => Some(Used {
                read,
                commit: place,
            }),
            None => None,
        }
    }

    /// Goes on behind the command in this place, and gives the draft of the node that is told of it, if one is.
    pub(crate) fn next(
        &mut self,
        alloc: Global,
        subject: &Subject<'_>,
        client: u8,
        place: usize,
        decisions: &Decisions,
    ) -> Result<Option<Draft>, AllocError>
        requires there { IsStepOf subject.now client place }
        requires few { HasFew self.old.keeping }
        requires counts { (kept : Kept) × IsCounted (replies_to subject.now.report client) kept self.old.keeping }
        ensures step { (found : ℕ → List Found) (kept : Kept) (command : Asked) (reply : Replied)
            → FindKeys found (replies_to subject.now.report client)
            → CountsFinding (replies_to subject.now.report client) found kept self.old.keeping self.old.places
            → slice_get (commands_of subject.now.script client) place ≡ Some command
            → slice_get (replies_to subject.now.report client) place ≡ Some reply → IfOk result (λ made. StepsOn subject.now client
            place found (decision_at decisions.now client place) kept made self.new.keeping self.new.places command reply) }
        ensures ids { OnOk result (self.new.keeping.ids ≤ self.old.keeping.ids + 1) }
        ensures rows { OnOk result (self.new.keeping.rows ≤ self.old.keeping.rows + 1) }
    {
        subject.agrees();
        let what = &subject.command(client, place).what;
        let answer = &subject.reply(client, place).answer;
        self.keeping.begin(what);
        self.keeping.to_append(subject, client, answer)?;
        let used = self.used(what, place);
        let decision = decisions.decision(client, place);
        let made = draft_appended(
            alloc,
            subject,
            client,
            &self.keeping,
            what,
            answer,
            used,
            decision,
        )?;
        self.keeping
            .behind_append(alloc, subject, client, place, what, answer)?;
        self.keeping.end(what);
        self.places.pass(what, answer, place);
        Ok(made)
    }
}

/// The drafts of the nodes of a client's commands, in the order of their ids.
pub(crate) fn client_drafts(
    alloc: Global,
    subject: &Subject<'_>,
    client: u8,
    decisions: &Decisions,
) -> Result<ListOf<Draft>, AllocError>
    requires { client < length subject.now.report.clients }
    ensures { IfOk result (AreDraftsOf subject.now (decision_at decisions.now) client) }
{
    subject.agrees();
    let mut going = Going::new(alloc)?;
    let mut drafts = ListOf::new(alloc);
    for place in 0..subject.count(client) {
        let made = going.next(alloc, subject, client, place, decisions)?;
        if let Some(draft) = made {
            drafts.push(draft)?;
        }
    }
    Ok(drafts)
}

/// The drafts of the nodes of all commands, by client. Contracts see the lists.
#[derive(Drop)]
pub(crate) struct DraftTable {
    lists: Vec<ListOf<Draft>>,
}

impl Model for DraftTable {
    ghost use Rattle.std.specs.Prelude.{List};
    ghost use Rattle.object_law.specs.declared.drafts.Draft.{Draft as Drafted};

    ghost Value = { List (List Drafted) };

    ghost view = { λ t. t.lists.items };
}

impl DraftTable {
    // The drafts of one more client.
    fn add(&mut self, drafts: ListOf<Draft>) -> Result<(), AllocError>
        ensures { OnOk result (self.new ≡ self.old ++ drafts ∷ []) }
    {
        self.lists.push(drafts)?;
        Ok(())
    }

    /// The draft of the node with this id, where there is one.
    pub(crate) fn draft(&self, id: Id) -> Option<&Draft>
        ensures { option_copied result ≡ draft_in self.now id }
    {
        match self.lists.get(id.client as usize) {
            Some(list) => list.get(id.count as usize),
            None => None,
        }
    }
}

/// The drafts of the nodes of all commands.
pub(crate) fn drafts_of(
    alloc: Global,
    subject: &Subject<'_>,
    decisions: &Decisions,
) -> Result<DraftTable, AllocError>
    ensures { IfOk result (AreDrafts subject.now (decision_at decisions.now)) }
{
    let mut table = DraftTable {
        lists: Vec::new(alloc),
    };
    for client in 0..subject.clients() {
        table.add(client_drafts(alloc, subject, client, decisions)?)?;
    }
    Ok(table)
}
