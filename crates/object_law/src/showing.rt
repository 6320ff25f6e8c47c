// Nodes beside the texts that node lines show of them: before the tenth rule is looked at, and before the fourteenth.
ghost use Rattle.std.specs.Prelude.{◌≡◌, ◌<◌, ℕ, length};
ghost use Rattle.std.specs.List.{All};
ghost use Rattle.column_track.specs.Tracks.{Tells};
ghost use Rattle.run_rules.specs.Computing.{any_decisions, finds_of};
ghost use Rattle.run_rules.specs.Deciding.{account_showing, decisions_of};
ghost use Rattle.run_rules.specs.Keeping.{Keeps, RulesTo};
ghost use Rattle.run_rules.specs.Nodes.{nodes_with};
ghost use Rattle.object_law.specs.NodeTables.{AreNodes, nodes_at};
ghost use Rattle.object_law.specs.Showing.{IsShown, OfEachNode, SaysShown, ShownAreDecided};

use crate::node_table::NodeTable;
use crate::object_laws::showing_is_found;
use log_node::Node;
use walk_law::{ShownTexts, Subject, is_decision};

// Whether a text that is said is the one that is shown; where decisions are not known, one decision may be another.
fn is_shown(said: &[u8], shown: &[u8], decided: bool) -> bool
    ensures { Tells result (IsShown decided said.now shown.now) }
{
    said == shown || (!decided && is_decision(said) && is_decision(shown))
}

// Whether a node says what is shown of it, if anything is.
fn says_shown(node: &Node, texts: &ShownTexts<'_>, decided: bool) -> bool
    ensures { Tells result (SaysShown decided texts.now node.now) }
{
    match texts.text(node.id) {
        Some(text) => is_shown(node.text.as_bytes(), text, decided),
        None => true,
    }
}

// Whether all these nodes do.
fn all_say_shown(nodes: &[Node], texts: &ShownTexts<'_>, decided: bool) -> bool
    ensures { Tells result (All (SaysShown decided texts.now) nodes.now) }
{
    for node in nodes {
        if !says_shown(node, texts, decided) {
            return false;
        }
    }
    true
}

// Whether those of all clients do.
fn each_says_shown(
    subject: &Subject<'_>,
    nodes: &NodeTable,
    texts: &ShownTexts<'_>,
    decided: bool,
) -> bool
    ensures { Tells result (OfEachNode (SaysShown decided texts.now) subject.now.report (nodes_at nodes.now)) }
{
    for client in 0..subject.clients() {
        if !all_say_shown(nodes.of_client(client), texts, decided) {
            return false;
        }
    }
    true
}

/// Whether a report that keeps the first nine rules keeps them at the account that shows what reads found: whether the nodes of its
/// commands, by these finds and whatever decisions, say what is shown of them.
pub fn keeps_showing(subject: &Subject<'_>, nodes: &NodeTable, texts: &ShownTexts<'_>) -> bool
    requires texts { texts.now ≡ subject.now.report }
    requires nodes { AreNodes (nodes_with subject.now.script subject.now.report
        (finds_of subject.now.script subject.now.report) any_decisions) nodes.now }
    requires kept { Keeps subject.now.script subject.now.report 9 }
    ensures { Tells result (RulesTo subject.now.script subject.now.report
        (account_showing subject.now.script subject.now.report) 9) }
{
    showing_is_found();
    subject.agrees();
    each_says_shown(subject, nodes, texts, false)
}

/// Whether the nodes of commands, by what reads found and the decisions that are computed, say what is shown of them.
pub fn shows_decisions(subject: &Subject<'_>, nodes: &NodeTable, texts: &ShownTexts<'_>) -> bool
    requires texts { texts.now ≡ subject.now.report }
    requires nodes { AreNodes (nodes_with subject.now.script subject.now.report
        (finds_of subject.now.script subject.now.report) (decisions_of subject.now.script subject.now.report)) nodes.now }
    ensures { Tells result (ShownAreDecided subject.now.script subject.now.report) }
{
    each_says_shown(subject, nodes, texts, true)
}
