// The nodes that commands appended, by what reads found and what decisions say.
ghost use Rattle.std.specs.Prelude.{◌≡◌, ◌<◌, IfOk, length};
ghost use Rattle.lawful_run.specs.Callers.{commands_of};
ghost use Rattle.run_rules.specs.Nodes.{nodes_with};
ghost use Rattle.object_law.specs.Drafts.{filled, pairs_at, text_used};
ghost use Rattle.walk_law.specs.Finds.{FindsKeys, decision_at, finds_at};
ghost use Rattle.object_law.specs.NodeTables.{AreNodes};

use crate::drafts::{Draft, Used, client_drafts};
use crate::finds::{Decisions, Finds};
use crate::node_table::NodeTable;
use log_node::{ListOf, Node, Pair, Text};
use script_text::What;
use std::alloc::{AllocError, Global};
use walk_law::{Subject, transaction_text};

// The pairs that a client's command in this place writes; none where it is no commit.
fn pairs_at<'s>(subject: &'s Subject<'_>, client: u8, place: usize) -> &'s [Pair]
    requires { client < length subject.now.report.clients }
    ensures { result.now ≡ pairs_at (commands_of subject.now.script client) place }
{
    if place >= subject.count(client) {
        return &[];
    }
    match &subject.command(client, place).what {
        What::Commit { pairs, .. } => pairs.as_slice(),
        _ => &[],
    }
}

/// The text of a client's commit, by what the read found that it uses up.
pub(crate) fn text_used(
    alloc: Global,
    subject: &Subject<'_>,
    client: u8,
    finds: &Finds,
    used: Used,
) -> Result<Text, AllocError>
    requires { client < length subject.now.report.clients }
    ensures { IfOk result (λ text. text
        ≡ text_used (commands_of subject.now.script client) (finds_at finds.now client) used) }
{
    let pairs = pairs_at(subject, client, used.commit);
    transaction_text(alloc, finds.versions(client, used.read), pairs)
}

/// The node of a draft, where reads found this.
pub(crate) fn filled(
    alloc: Global,
    subject: &Subject<'_>,
    client: u8,
    finds: &Finds,
    draft: Draft,
) -> Result<Node, AllocError>
    requires { client < length subject.now.report.clients }
    ensures { IfOk result (λ node. node
        ≡ filled (commands_of subject.now.script client) (finds_at finds.now client) draft) }
{
    let Draft { mut node, used } = draft;
    if let Some(used) = used {
        node.text = text_used(alloc, subject, client, finds, used)?;
    }
    Ok(node)
}

// The nodes of a client's commands, in the order of their ids.
fn client_nodes(
    alloc: Global,
    subject: &Subject<'_>,
    client: u8,
    finds: &Finds,
    decisions: &Decisions,
) -> Result<ListOf<Node>, AllocError>
    requires walker { client < length subject.now.report.clients }
    requires keys { FindsKeys subject.now.report (finds_at finds.now) }
    ensures { IfOk result (λ nodes. nodes
        ≡ nodes_with subject.now.script subject.now.report (finds_at finds.now) (decision_at decisions.now) client) }
{
    let mut nodes = ListOf::new(alloc);
    for draft in client_drafts(alloc, subject, client, decisions)?.into_vec() {
        nodes.push(filled(alloc, subject, client, finds, draft)?)?;
    }
    Ok(nodes)
}

/// The nodes of each client's commands, by what reads found and what decisions say.
pub(crate) fn nodes_with(
    alloc: Global,
    subject: &Subject<'_>,
    finds: &Finds,
    decisions: &Decisions,
) -> Result<NodeTable, AllocError>
    requires { FindsKeys subject.now.report (finds_at finds.now) }
    ensures { IfOk result (AreNodes
        (nodes_with subject.now.script subject.now.report (finds_at finds.now) (decision_at decisions.now))) }
{
    let mut table = NodeTable::new(alloc, 0)?;
    for client in 0..subject.clients() {
        table.add_client(client_nodes(alloc, subject, client, finds, decisions)?)?;
    }
    Ok(table)
}
