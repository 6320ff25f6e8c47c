// What decisions say, noted one after another.
ghost use Rattle.std.specs.Prelude.{◌≡◌, ◌<◌, ℕ, [], IfOk, length, slice_index_or, slice_set};
ghost use Rattle.run_rules.specs.Nodes.{any_decision};
ghost use Rattle.walk_law.specs.Finds.{decision_at};
ghost use Rattle.walk_law.specs.Walking.{IsStepOf};

use crate::finds::{ClientDecisions, Decisions, any_decision};
use part_fold::Decision;
use std::alloc::{AllocError, Global};
use walk_law::Subject;

// Of one client, for so many commands, of which nothing is known.
fn unknown_of(alloc: Global, count: usize) -> Result<ClientDecisions, AllocError>
    ensures many { IfOk result (λ d. length d ≡ count) }
    ensures none { IfOk result (λ d. (k : ℕ) → slice_index_or d k any_decision ≡ any_decision) }
{
    let mut decided = Vec::with_capacity(alloc, count)?;
    for _ in 0..count {
        decided.push(any_decision())?;
    }
    Ok(ClientDecisions { decided })
}

/// One for each command of each client, of which nothing is known.
pub(crate) fn unknown(alloc: Global, subject: &Subject<'_>) -> Result<Decisions, AllocError>
    ensures none { IfOk result (λ d. (client k : ℕ) → decision_at d client k ≡ any_decision) }
    ensures slots { IfOk result (λ d. (client k : ℕ) → IsStepOf subject.now client k
        → (client < length d) × (k < length (slice_index_or d client []))) }
{
    let mut clients = Vec::new(alloc);
    for client in 0..subject.clients() {
        clients.push(unknown_of(alloc, subject.count(client))?)?;
    }
    Ok(Decisions { clients })
}

// Notes what a decision of one client says.
fn note_of(decisions: &mut ClientDecisions, place: usize, decision: Decision)
    requires { place < length decisions.old }
    ensures { decisions.new ≡ slice_set decisions.old place decision }
{
    decisions.decided[place] = decision;
}

/// Notes what a client's decision says.
pub(crate) fn note(decisions: &mut Decisions, client: u8, place: usize, decision: Decision)
    requires client { client < length decisions.old }
    requires place { place < length (slice_index_or decisions.old client []) }
    ensures { decisions.new
        ≡ slice_set decisions.old client (slice_set (slice_index_or decisions.old client []) place decision) }
{
    note_of(&mut decisions.clients[client as usize], place, decision);
}
