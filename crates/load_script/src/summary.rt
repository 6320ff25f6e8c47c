// What every run of a load comes to that finds no want of memory, counted from its commands.
ghost use Rattle.std.specs.Prelude.{◌≡◌, ◌<◌, IfOk, length, string_bytes};
ghost use Rattle.std.specs.List.{filter};
ghost use Rattle.load_script.specs.Summing.{appended, appends, begins_row, goes_to, length_of, summary_of, summary_text};

use log_node::Colours;
use script_text::{Command, What};
use std::alloc::{AllocError, Global};
use std::fmt;

/// What the commands of a load come to: how long the own lines are, by region and then colour, how many nodes are
/// appended, and how many rows are begun.
#[derive(Clone, Copy, Debug, PartialEq, Eq)]
pub struct Summary {
    pub count: u32,
    pub lengths: [usize; 8],
    pub nodes: usize,
    pub rows: usize,
}

// The colours to which a command appends a node.
fn appended(what: &What) -> Option<Colours>
    ensures { result ≡ appended what.now }
{
    match what {
        What::Append { colours, .. } => Some(*colours),
        _ => None,
    }
}

fn goes_to(command: &Command, region: u8, colour: u8) -> bool
    requires { colour < 4 }
    ensures { result ≡ goes_to region colour command.now }
{
    command.client % 2 == region
        && appended(&command.what).is_some_and(|colours| colours.has(colour))
}

fn length_of(commands: &[Command], region: u8, colour: u8) -> usize
    requires { colour < 4 }
    ensures { result ≡ length_of commands.now (region, colour) }
{
    commands
        .iter()
        .filter(|command| goes_to(command, region, colour))
        .count()
}

fn appends(command: &Command) -> bool
    ensures { result ≡ appends command.now }
{
    appended(&command.what).is_some()
}

fn begins_row(command: &Command) -> bool
    ensures { result ≡ begins_row command.now }
{
    appended(&command.what).is_some_and(|colours| colours.count() > 1)
}

fn nodes_of(commands: &[Command]) -> usize
    ensures { result ≡ length (filter appends commands.now) }
{
    commands.iter().filter(|command| appends(command)).count()
}

fn rows_of(commands: &[Command]) -> usize
    ensures { result ≡ length (filter begins_row commands.now) }
{
    commands
        .iter()
        .filter(|command| begins_row(command))
        .count()
}

/// The summary of the commands of a load of this many rounds.
pub fn sum_up(count: u32, commands: &[Command]) -> Summary
    ensures { result ≡ summary_of count commands.now }
{
    Summary {
        count,
        lengths: [
            length_of(commands, 0, 0),
            length_of(commands, 0, 1),
            length_of(commands, 0, 2),
            length_of(commands, 0, 3),
            length_of(commands, 1, 0),
            length_of(commands, 1, 1),
            length_of(commands, 1, 2),
            length_of(commands, 1, 3),
        ],
        nodes: nodes_of(commands),
        rows: rows_of(commands),
    }
}

// How long a region's own lines are, by colour.
#[derive(Clone, Copy)]
struct Lengths([usize; 4]);

impl fmt::Display for Lengths {
    ghost use Rattle.std.specs.Prelude.{Some};
    ghost use Rattle.load_script.specs.Summing.{lengths_text};

    ghost output = { λ lengths. Some (lengths_text lengths.0) };

    fn fmt<W: fmt::Write>(&self, f: &mut fmt::Formatter<W>) -> fmt::Result {
        let [a, b, c, d] = self.0;
        write!(f, "{a} {b} {c} {d}")
    }
}

impl Summary {
    /// The four lines that a load prints.
    pub fn text(&self, alloc: Global) -> Result<String, AllocError>
        ensures { IfOk result (λ text. string_bytes text ≡ summary_text self.now) }
    {
        let [a, b, c, d, e, g, h, i] = self.lengths;
        let east = Lengths([a, b, c, d]);
        let west = Lengths([e, g, h, i]);
        let Summary {
            count,
            nodes,
            rows,
            ..
        } = self;
        format!(in alloc; "load {count}\neast {east}\nwest {west}\nnodes {nodes} rows {rows}\n")
    }
}
