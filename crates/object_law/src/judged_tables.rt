// The nodes of commands as a report is judged by them from the tenth rule on.
ghost use Rattle.std.specs.Prelude.{◌≡◌, IfOk, ℕ};
ghost use Rattle.run_rules.specs.Computing.{any_decisions, finds_of};
ghost use Rattle.run_rules.specs.Deciding.{ColoursDiffer, decisions_of};
ghost use Rattle.run_rules.specs.Keeping.{Keeps};
ghost use Rattle.run_rules.specs.Nodes.{nodes_with};
ghost use Rattle.walk_law.specs.Finds.{finds_at};
ghost use Rattle.object_law.specs.NodeTables.{AreNodes};

use crate::decided::decisions_of;
use crate::finds::{Decisions, Finds};
use crate::node_table::NodeTable;
use crate::node_told::nodes_with;
use std::alloc::{AllocError, Global};
use walk_law::Subject;

/// The nodes of commands by what reads found, whatever decisions say.
pub fn nodes_found(
    alloc: Global,
    subject: &Subject<'_>,
    finds: &Finds,
) -> Result<NodeTable, AllocError>
    requires { (client k : ℕ) → finds_at finds.now client k ≡ finds_of subject.now.script subject.now.report client k }
    ensures { IfOk result (AreNodes (nodes_with subject.now.script subject.now.report
        (finds_of subject.now.script subject.now.report) any_decisions)) }
{
    let decisions = Decisions::none(alloc);
    nodes_with(alloc, subject, finds, &decisions)
}

/// The nodes of commands by what reads found and the decisions that are computed.
pub fn nodes_decided(
    alloc: Global,
    subject: &Subject<'_>,
    finds: &Finds,
) -> Result<NodeTable, AllocError>
    requires keeps { Keeps subject.now.script subject.now.report 13 }
    requires differ { ColoursDiffer subject.now.script }
    requires finds { (client k : ℕ) → finds_at finds.now client k ≡ finds_of subject.now.script subject.now.report client k }
    ensures { IfOk result (AreNodes (nodes_with subject.now.script subject.now.report
        (finds_of subject.now.script subject.now.report) (decisions_of subject.now.script subject.now.report))) }
{
    let decisions = decisions_of(alloc, subject, finds)?;
    nodes_with(alloc, subject, finds, &decisions)
}
