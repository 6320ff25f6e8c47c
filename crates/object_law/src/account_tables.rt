// The tables of nodes of the accounts by which reports are judged from the tenth rule on.
ghost use Rattle.std.specs.Prelude.{◌≡◌, IfOk};
ghost use Rattle.run_rules.specs.Computing.{any_decisions, finds_of};
ghost use Rattle.run_rules.specs.Deciding.{nodes_showing};
ghost use Rattle.run_rules.specs.Nodes.{nodes_with};
ghost use Rattle.run_rules.specs.Said.{shown_text, with_text};
ghost use Rattle.object_law.specs.AccountTables.{as_shown};
ghost use Rattle.object_law.specs.NodeTables.{AreNodes};

use crate::node_table::NodeTable;
use log_node::{ListOf, Node, Text};
use std::alloc::{AllocError, Global};
use walk_law::{ShownTexts, Subject};

// A node with the text that is shown of it, where one is.
fn node_showing(alloc: Global, node: Node, texts: &ShownTexts<'_>) -> Result<Node, AllocError>
    ensures { IfOk result (λ shown. shown ≡ with_text (shown_text texts.now node.id) node) }
{
    let mut shown = node;
    if let Some(text) = texts.text(shown.id) {
        shown.text = Text::copied(alloc, text)?;
    }
    Ok(shown)
}

// The nodes of a client, each with the text that is shown of it.
fn list_showing(
    alloc: Global,
    nodes: ListOf<Node>,
    texts: &ShownTexts<'_>,
) -> Result<ListOf<Node>, AllocError>
    ensures { IfOk result (λ shown. shown ≡ as_shown texts.now nodes) }
{
    let mut shown = ListOf::new(alloc);
    for node in nodes.into_vec() {
        shown.push(node_showing(alloc, node, texts)?)?;
    }
    Ok(shown)
}

/// The nodes of each client's commands by what reads found, whatever decisions say, each with the text that is shown of it, where
/// one is.
pub fn show(
    alloc: Global,
    subject: &Subject<'_>,
    nodes: NodeTable,
    texts: &ShownTexts<'_>,
) -> Result<NodeTable, AllocError>
    requires nodes { AreNodes (nodes_with subject.now.script subject.now.report
        (finds_of subject.now.script subject.now.report) any_decisions) nodes }
    requires texts { texts.now ≡ subject.now.report }
    ensures { IfOk result (AreNodes (nodes_showing subject.now.script subject.now.report)) }
{
    let _subject = subject;
    let mut table = NodeTable::new(alloc, 0)?;
    for list in nodes.into_lists() {
        table.add_client(list_showing(alloc, list, texts)?)?;
    }
    Ok(table)
}
