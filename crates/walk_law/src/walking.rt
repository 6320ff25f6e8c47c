// A walk over the commands of clients, each with its reply and with what its client keeps.
ghost use Rattle.std.specs.Prelude.{◌≡◌, ◌<◌, IfOk, length};
ghost use Rattle.lawful_run.specs.Callers.{Caller, caller_of};
ghost use Rattle.run_rules.specs.Told.{Step as StepTold};
ghost use Rattle.walk_law.specs.Walking.{DecidesEachStep, GoesOn, HasFew, IsSeen, IsStepOf, Walked, WalksTo};

use crate::keeping::Keeping;
use crate::subject::Subject;
use run_rules::nodes_change_no_step;
use std::alloc::{AllocError, Global};

/// What a pass asks of each step of each client.
pub trait Check {
    // what it asks of a step of a client
    ghost Asks: { Self → Walked → Caller → StepTold → Type 0 };

    /// Whether the client's step in this place is as is asked; where it is, goes on behind it. The keeping counts what the client
    /// keeps when the command is answered.
    fn go_on(
        &self,
        alloc: Global,
        subject: &Subject<'_>,
        client: u8,
        place: usize,
        keeping: &mut Keeping,
    ) -> Result<bool, AllocError>
        requires there { IsStepOf subject.now client place }
        requires few { HasFew keeping.old }
        ensures { (step : StepTold) → IsSeen subject.now client place keeping.old step → IfOk result
            (GoesOn subject.now client step (Asks self.now subject.now (caller_of subject.now.script client) step) keeping.new) };
}

/// Goes over the steps of a client, and has what it keeps in the end; `None` exactly where a step is not as is asked.
pub fn walk<C: Check>(
    alloc: Global,
    subject: &Subject<'_>,
    client: u8,
    check: &C,
) -> Result<Option<Keeping>, AllocError>
    requires { client < length subject.now.report.clients }
    ensures { IfOk result (WalksTo subject.now client (C.Asks check.now subject.now (caller_of subject.now.script client))) }
{
    subject.agrees();
    let mut keeping = Keeping::new(alloc)?;
    for place in 0..subject.count(client) {
        keeping.begin(&subject.command(client, place).what);
        if !check.go_on(alloc, subject, client, place, &mut keeping)? {
            return Ok(None);
        }
    }
    Ok(Some(keeping))
}

/// Whether all steps of all clients are as is asked.
pub fn each_step<C: Check>(
    alloc: Global,
    subject: &Subject<'_>,
    check: &C,
) -> Result<bool, AllocError>
    ensures { IfOk result (DecidesEachStep subject.now (C.Asks check.now subject.now)) }
{
    nodes_change_no_step();
    for client in 0..subject.clients() {
        if walk(alloc, subject, client, check)?.is_none() {
            return Ok(false);
        }
    }
    Ok(true)
}
