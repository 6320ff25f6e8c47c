// The node that a command appends over what its client keeps.
ghost use Rattle.std.specs.Prelude.{◌≡◌, ◌<◌, ◌^◌, IfOk, List};
ghost use Rattle.std.specs.List.{All};
ghost use Rattle.log_node.specs.declared.limits.TheConstants.{MAX_COLOURS as ALL_COLOURS};
ghost use Rattle.col_core.specs.Keeping.{Kept};
ghost use Rattle.report_text.specs.declared.report.ReplyLine.{ReplyLine};
ghost use Rattle.lawful_run.specs.Callers.{Caller, node_of, row_taken};
ghost use Rattle.walk_law.specs.Asking.{colours_in};
ghost use Rattle.walk_law.specs.Finds.{node_list, node_with, set_asked, wants_in};
ghost use Rattle.walk_law.specs.Keepings.{IsCounted};
ghost use Rattle.walk_law.specs.Walking.{HasFew};

use log_node::{Colours, Node, Row, Text, Wants};
use script_text::What;
use std::alloc::{AllocError, Global};
use walk_law::Keeping;

// The set of the colours on which a command appends, which are these.
fn set_asked(what: &What, asked: &[u8]) -> Colours
    requires { All (λ colour. colour < ALL_COLOURS) asked.now }
    ensures { result ≡ set_asked what.now asked.now }
{
    match what {
        What::Append { colours, .. } => *colours,
        What::Stop { colours, .. } => *colours,
        _ => Colours::of(asked),
    }
}

// What a node on these colours wants, of a client that keeps this.
fn wants_in(alloc: Global, keeping: &Keeping, colours: Colours) -> Result<Wants, AllocError>
    ensures { IfOk result (λ wants. wants ≡ wants_in keeping.now colours) }
{
    let mut wants = Wants::new(alloc);
    for colour in colours.members() {
        wants.push(keeping.start(colour))?;
    }
    Ok(wants)
}

// The row that a node on these colours takes, of a client that has begun so many.
fn row_taken(client: u8, rows: u64, colours: Colours) -> Option<Row>
    requires { rows < 2 ^ 32 }
    ensures { result ≡ row_taken client rows (colours_in colours) }
{
    if 1 < colours.count() {
        Some(Row {
            client,
            number: rows as u32,
        })
    } else {
        None
    }
}

// The node that a client appends over what it keeps.
fn node_of(
    alloc: Global,
    client: u8,
    own: u8,
    keeping: &Keeping,
    colours: Colours,
    text: Text,
) -> Result<Node, AllocError>
    requires { HasFew keeping.now }
    ensures { (replies : List ReplyLine) (caller : Caller) (kept : Kept) → caller.client ≡ client → caller.own ≡ own
        → IsCounted replies kept keeping.now → IfOk result (λ node. node ≡ node_of caller kept colours text) }
{
    let wants = wants_in(alloc, keeping, colours)?;
    Ok(Node {
        id: keeping.next_id(client),
        region: own,
        colours,
        text,
        floor: keeping.floor(),
        wants,
        row: row_taken(client, keeping.rows(), colours),
    })
}

/// The node with this text of a command that appends on these colours, if there is a text.
pub(crate) fn node_saying(
    alloc: Global,
    client: u8,
    own: u8,
    keeping: &Keeping,
    what: &What,
    asked: &[u8],
    text: Option<Text>,
) -> Result<Option<Node>, AllocError>
    requires few { HasFew keeping.now }
    requires low { All (λ colour. colour < ALL_COLOURS) asked.now }
    ensures { (replies : List ReplyLine) (caller : Caller) (kept : Kept) → caller.client ≡ client → caller.own ≡ own
        → IsCounted replies kept keeping.now → IfOk result (λ node. node_list node
        ≡ node_with caller kept (set_asked what.now asked.now) text) }
{
    match text {
        Some(text) => {
            let colours = set_asked(what, asked);
            Ok(Some(node_of(alloc, client, own, keeping, colours, text)?))
        }
        None => Ok(None),
    }
}
