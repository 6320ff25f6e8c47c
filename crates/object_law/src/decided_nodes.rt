// The nodes of commands by what reads found, of which those of decisions may still say any.
ghost use Rattle.std.specs.Prelude.{◌≡◌, ◌++◌, ◌∷◌, ◌<◌, [], IfOk, OnOk, Some, length, slice_get};
ghost use Rattle.std.specs.Option.{option_copied};
ghost use Rattle.script_text.specs.declared.script.Command.{Command as Asked};
ghost use Rattle.lawful_run.specs.Callers.{commands_of};
ghost use Rattle.object_law.specs.Decided.{AreDecided, AreDecidedOf, decided_in, decider, drafted};
ghost use Rattle.walk_law.specs.Finds.{FindsKeys, finds_at};
ghost use Rattle.walk_law.specs.Walking.{IsStepOf};

use crate::drafts::{Draft, Going};
use crate::finds::{Decisions, Finds};
use crate::node_told::filled;
use log_node::{Id, ListOf, Node};
use script_text::What;
use std::alloc::{AllocError, Global};
use std::marker::Model;
use walk_law::Subject;

/// A command's node. Where it is to say a decision, the place of the command among those of its client stands beside it.
#[derive(Drop)]
pub(crate) struct DecidedNode {
    pub(crate) node: Node,
    pub(crate) place: Option<usize>,
}

// The place of a command, where its node says a decision.
fn decider(what: &What, place: usize) -> Option<usize>
    ensures { result ≡ decider what.now place }
{
    match what {
        What::Decide { .. } => Some(place),
        _ => None,
    }
}

// Adds the node of a command's draft, where there is one.
fn add_node(
    nodes: &mut ListOf<DecidedNode>,
    alloc: Global,
    subject: &Subject<'_>,
    client: u8,
    place: usize,
    finds: &Finds,
    made: Option<Draft>,
) -> Result<(), AllocError>
    requires { IsStepOf subject.now client place }
    ensures { (command : Asked) → slice_get (commands_of subject.now.script client) place ≡ Some command
        → OnOk result (nodes.new ≡ nodes.old
        ++ drafted (commands_of subject.now.script client) (finds_at finds.now client) command.what place made) }
{
    match made {
        Some(draft) => {
            let node = filled(alloc, subject, client, finds, draft)?;
            let place = decider(&subject.command(client, place).what, place);
            nodes.push(DecidedNode { node, place })?;
            Ok(())
        }
        None => Ok(()),
    }
}

// The nodes of a client's commands, in the order of their ids.
fn client_nodes(
    alloc: Global,
    subject: &Subject<'_>,
    client: u8,
    finds: &Finds,
) -> Result<ListOf<DecidedNode>, AllocError>
    requires client { client < length subject.now.report.clients }
    requires keys { FindsKeys subject.now.report (finds_at finds.now) }
    ensures { IfOk result (AreDecidedOf subject.now (finds_at finds.now) client) }
{
    subject.agrees();
    let decisions = Decisions::none(alloc);
    let mut going = Going::new(alloc)?;
    let mut nodes = ListOf::new(alloc);
    for place in 0..subject.count(client) {
        let made = going.next(alloc, subject, client, place, &decisions)?;
        add_node(&mut nodes, alloc, subject, client, place, finds, made)?;
    }
    Ok(nodes)
}

/// The nodes of all commands, by client. Contracts see the lists.
#[derive(Drop)]
pub(crate) struct DecidedNodes {
    lists: Vec<ListOf<DecidedNode>>,
}

impl Model for DecidedNodes {
    ghost use Rattle.std.specs.Prelude.{List};
    ghost use Rattle.object_law.specs.declared.decided_nodes.DecidedNode.{DecidedNode as Decided};

    ghost Value = { List (List Decided) };

    ghost view = { λ t. t.lists.items };
}

impl DecidedNodes {
    // The nodes of one more client.
    fn add(&mut self, nodes: ListOf<DecidedNode>) -> Result<(), AllocError>
        ensures { OnOk result (self.new ≡ self.old ++ nodes ∷ []) }
    {
        self.lists.push(nodes)?;
        Ok(())
    }

    /// The node with this id, where there is one.
    pub(crate) fn node(&self, id: Id) -> Option<&DecidedNode>
        ensures { option_copied result ≡ decided_in self.now id }
    {
        match self.lists.get(id.client as usize) {
            Some(list) => list.get(id.count as usize),
            None => None,
        }
    }
}

/// The nodes of all commands, by what reads found.
pub(crate) fn decided_nodes(
    alloc: Global,
    subject: &Subject<'_>,
    finds: &Finds,
) -> Result<DecidedNodes, AllocError>
    requires { FindsKeys subject.now.report (finds_at finds.now) }
    ensures { IfOk result (AreDecided subject.now (finds_at finds.now)) }
{
    let mut table = DecidedNodes {
        lists: Vec::new(alloc),
    };
    for client in 0..subject.clients() {
        table.add(client_nodes(alloc, subject, client, finds)?)?;
    }
    Ok(table)
}
