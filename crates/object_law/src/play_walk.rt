// A walk over the commands of clients by objects that are played from answer to answer.
ghost use Rattle.std.specs.Prelude.{◌<◌, IfOk, OnOk, List, length};
ghost use Rattle.log_node.specs.declared.node.Node.{Node as Appended};
ghost use Rattle.lawful_run.specs.Callers.{Caller, caller_of};
ghost use Rattle.run_rules.specs.Told.{Step as StepTold};
ghost use Rattle.walk_law.specs.Walking.{DecidesEachStep, GoesOn, HasFew, IsSeen, IsStepOf, Walked, WalksTo};

use crate::node_table::NodeTable;
use run_rules::nodes_change_no_step;
use std::alloc::{AllocError, Global};
use walk_law::{Keeping, Subject};

/// What a pass asks of each step of each client, by objects that it plays over the nodes in a table.
pub(crate) trait PlayCheck {
    // what it asks of a step of a client
    ghost Asks: { Walked → List (List Appended) → Caller → StepTold → Type 0 };

    // so its objects stand between steps
    ghost Stands: { Self → Walked → List (List Appended) → Type 0 };

    /// Whether the client's step in this place is as is asked; where it is, goes on behind it.
    fn go_on(
        &mut self,
        alloc: Global,
        subject: &Subject<'_>,
        nodes: &NodeTable,
        client: u8,
        place: usize,
        keeping: &mut Keeping,
    ) -> Result<bool, AllocError>
        requires there { IsStepOf subject.now client place }
        requires few { HasFew keeping.old }
        requires stands { Stands self.old subject.now nodes.now }
        ensures told { (step : StepTold) → IsSeen subject.now client place keeping.old step → IfOk result
            (GoesOn subject.now client step (Asks subject.now nodes.now (caller_of subject.now.script client) step) keeping.new) }
        ensures stands { OnOk result (Stands self.new subject.now nodes.now) };
}

// Goes over the steps of a client, and has what it keeps in the end; `None` exactly where a step is not as is asked.
fn walk<C: PlayCheck>(
    alloc: Global,
    subject: &Subject<'_>,
    nodes: &NodeTable,
    client: u8,
    check: &mut C,
) -> Result<Option<Keeping>, AllocError>
    requires client { client < length subject.now.report.clients }
    requires stands { C.Stands check.old subject.now nodes.now }
    ensures told { IfOk result (WalksTo subject.now client (C.Asks subject.now nodes.now (caller_of subject.now.script client))) }
    ensures stands { OnOk result (C.Stands check.new subject.now nodes.now) }
{
    subject.agrees();
    let mut keeping = Keeping::new(alloc)?;
    for place in 0..subject.count(client) {
        keeping.begin(&subject.command(client, place).what);
        if !check.go_on(alloc, subject, nodes, client, place, &mut keeping)? {
            return Ok(None);
        }
    }
    Ok(Some(keeping))
}

/// Whether all steps of all clients are as is asked.
pub(crate) fn each_step_played<C: PlayCheck>(
    alloc: Global,
    subject: &Subject<'_>,
    nodes: &NodeTable,
    check: &mut C,
) -> Result<bool, AllocError>
    requires { C.Stands check.old subject.now nodes.now }
    ensures { IfOk result (DecidesEachStep subject.now (C.Asks subject.now nodes.now)) }
{
    nodes_change_no_step();
    for client in 0..subject.clients() {
        if walk(alloc, subject, nodes, client, check)?.is_none() {
            return Ok(false);
        }
    }
    Ok(true)
}
