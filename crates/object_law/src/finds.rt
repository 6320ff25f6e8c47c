// What reads found, and what decisions say.
ghost use Rattle.std.specs.Prelude.{◌≡◌, ◌<◌, ℕ, [], IfOk, None, length, map, slice_index_or, slice_set};
ghost use Rattle.run_rules.specs.Nodes.{any_decision};
ghost use Rattle.run_rules.specs.Telling.{unnamed};
ghost use Rattle.object_law.specs.Unnamed.{unnamed_finds};
ghost use Rattle.walk_law.specs.Finds.{decision_at, finds_at};

use log_node::{Id, Key, ListOf, Text, Version, Versions};
use part_fold::Decision;
use report_text::{Answer, KeyAnswer, ReplyLine, Report};
use std::alloc::{AllocError, Global};
use std::marker::Model;

/// What a client's reads found, by the number of the command.
#[derive(Drop)]
pub(crate) struct ClientFinds {
    found: Vec<Versions>,
}

impl Model for ClientFinds {
    ghost use Rattle.std.specs.Prelude.{List};
    ghost use Rattle.log_node.specs.declared.forms.Version.{Version as Found};

    ghost Value = { List (List Found) };

    ghost view = { λ f. f.found.items };
}

/// What reads found, by client and the number of the command. Contracts see the lists.
#[derive(Drop)]
pub struct Finds {
    clients: Vec<ClientFinds>,
}

impl Model for Finds {
    ghost use Rattle.std.specs.Prelude.{List};
    ghost use Rattle.log_node.specs.declared.forms.Version.{Version as Found};

    ghost Value = { List (List (List Found)) };

    ghost view = { λ f. f.clients.items };
}

impl ClientFinds {
    // What the read with this number found; nothing where there is none.
    fn versions(&self, place: usize) -> &[Version]
        ensures { result.now ≡ slice_index_or self.now place [] }
    {
        match self.found.get(place) {
            Some(found) => found.as_slice(),
            None => &[],
        }
    }
}

// The keys that an answer shows, of which nobody is named as the writer.
fn unnamed_keys(alloc: Global, shown: &[KeyAnswer]) -> Result<Versions, AllocError>
    ensures { IfOk result (λ found. found ≡ map (λ k. record { key = k.key; writer = None }) shown.now) }
{
    let mut found = ListOf::new(alloc);
    for answer in shown {
        let key = Text::copied(alloc, answer.key.as_bytes())?;
        found.push(Version { key, writer: None })?;
    }
    Ok(found)
}

// So it is of an answer.
fn unnamed(alloc: Global, answer: &Answer) -> Result<Versions, AllocError>
    ensures { IfOk result (λ found. found ≡ unnamed answer.now) }
{
    match answer {
        Answer::GotKeys { keys, .. } => unnamed_keys(alloc, keys.as_slice()),
        _ => Ok(ListOf::new(alloc)),
    }
}

impl ClientFinds {
    // So it is of the replies to a client.
    fn unnamed(alloc: Global, replies: &[ReplyLine]) -> Result<ClientFinds, AllocError>
        ensures { IfOk result (λ finds. finds ≡ map (λ r. unnamed r.answer) replies.now) }
    {
        let mut found = Vec::with_capacity(alloc, replies.len())?;
        for reply in replies {
            found.push(unnamed(alloc, &reply.answer)?)?;
        }
        Ok(ClientFinds { found })
    }

    // Notes what a read found.
    fn note(&mut self, place: usize, versions: Versions)
        requires { place < length self.old }
        ensures { self.new ≡ slice_set self.old place versions }
    {
        self.found[place] = versions;
    }
}

impl Finds {
    /// Of each reply the keys that it shows, of which nobody is named as the writer.
    pub(crate) fn unnamed(alloc: Global, report: &Report) -> Result<Finds, AllocError>
        ensures { IfOk result (λ finds. finds ≡ unnamed_finds report.now) }
    {
        let shown = report.clients.as_slice();
        let mut clients = Vec::with_capacity(alloc, shown.len())?;
        for client in shown {
            clients.push(ClientFinds::unnamed(alloc, client.replies.as_slice())?)?;
        }
        Ok(Finds { clients })
    }

    /// Notes what a client's read found.
    pub(crate) fn note(&mut self, client: u8, place: usize, versions: Versions)
        requires client { client < length self.old }
        requires place { place < length (slice_index_or self.old client []) }
        ensures { self.new ≡ slice_set self.old client (slice_set (slice_index_or self.old client []) place versions) }
    {
        self.clients[client as usize].note(place, versions);
    }

    /// What a client's read found, by the number of its command; nothing where none is listed.
    pub fn versions(&self, client: u8, place: usize) -> &[Version]
        ensures { result.now ≡ finds_at self.now client place }
    {
        match self.clients.get(client as usize) {
            Some(finds) => finds.versions(place),
            None => &[],
        }
    }
}

/// What a client's decisions say, by the number of the command.
#[derive(Drop)]
pub(crate) struct ClientDecisions {
    pub(crate) decided: Vec<Decision>,
}

impl Model for ClientDecisions {
    ghost use Rattle.std.specs.Prelude.{List};
    ghost use Rattle.part_fold.specs.declared.decision.Decision.{Decision as Decided};

    ghost Value = { List Decided };

    ghost view = { λ d. d.decided.items };
}

/// What decisions say, by client and the number of the command. Contracts see the lists.
#[derive(Drop)]
pub struct Decisions {
    pub(crate) clients: Vec<ClientDecisions>,
}

impl Model for Decisions {
    ghost use Rattle.std.specs.Prelude.{List};
    ghost use Rattle.part_fold.specs.declared.decision.Decision.{Decision as Decided};

    ghost Value = { List (List Decided) };

    ghost view = { λ d. d.clients.items };
}

/// A decision, on a transaction of nobody's.
pub(crate) fn any_decision() -> Decision
    ensures { result ≡ any_decision }
{
    Decision {
        key: Key {
            stamp: 0,
            id: Id {
                client: 0,
                count: 0,
            },
        },
        commits: false,
    }
}

impl ClientDecisions {
    // What the decision with this number says.
    fn decision(&self, place: usize) -> Decision
        ensures { result ≡ slice_index_or self.now place any_decision }
    {
        match self.decided.get(place) {
            Some(decision) => *decision,
            None => any_decision(),
        }
    }
}

impl Decisions {
    /// None of which anything is known.
    pub fn none(alloc: Global) -> Decisions
        ensures { (client k : ℕ) → decision_at result client k ≡ any_decision }
    {
        Decisions {
            clients: Vec::new(alloc),
        }
    }

    /// What a client's decision says, by the number of its command; where none is listed, nothing that is known.
    pub fn decision(&self, client: u8, place: usize) -> Decision
        ensures { result ≡ decision_at self.now client place }
    {
        match self.clients.get(client as usize) {
            Some(decisions) => decisions.decision(place),
            None => any_decision(),
        }
    }
}
