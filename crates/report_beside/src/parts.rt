// The parts of a report's text.
ghost use Rattle.std.specs.Prelude.{◌≡◌, ◌<◌, IfOk, OnOk};
ghost use Rattle.std.specs.List.{flat_map};
ghost use Rattle.report_text.specs.Replies.{client_lines, reply_lines};
ghost use Rattle.report_text.specs.Output.{Adds};
ghost use Rattle.report_text.specs.Rows.{row_line};
ghost use Rattle.report_text.specs.Columns.{column_lines};
ghost use Rattle.report_beside.specs.Parts.{part_text, HaveMore, ArePartsOf};

use log_node::Text;
use report_text::{
    ClientReport, ColumnReport, NameIndex, Output, Printed, ReplyLine, Report, RowReport,
};
use std::alloc::{AllocError, Global};
use std::num::NonZeroUsize;

/// How many replies are one part.
const REPLIES: usize = 512;

/// How many rows are one part.
const ROWS: usize = 512;

/// For which weight of parts a thread is begun.
const WEIGHT: usize = 512;

/// A part of a report: the line that begins a client, some of its replies, some of the rows, or a column.
#[derive(Drop)]
pub enum Part<'r> {
    Client(&'r Text),
    Replies(&'r [ReplyLine]),
    Rows(&'r [RowReport]),
    Column(&'r ColumnReport),
}

impl<'r> Part<'r> {
    /// How long its text takes to make, about: three for a reply, since many show nodes, and two for any other line.
    pub fn weight(&self) -> usize {
        match self {
            Part::Client(_) => 2,
            Part::Replies(replies) => replies.len().saturating_mul(3),
            Part::Rows(rows) => rows.len().saturating_mul(2),
            Part::Column(column) => column.journal.len().saturating_mul(2),
        }
    }
}

impl<'r> Printed for Part<'r> {
    ghost text = { part_text };

    fn print<O: Output>(&self, names: &NameIndex<'_>, out: &mut O) {
        match self {
            Part::Client(name) => {
                out.put(b"client ");
                name.print(names, out);
                out.put(b"\n");
            }
            Part::Replies(replies) => print_all(replies, names, out),
            Part::Rows(rows) => print_all(rows, names, out),
            Part::Column(column) => column.print(names, out),
        }
    }
}

// One item after another.
fn print_all<T: Printed, O: Output>(items: &[T], names: &NameIndex<'_>, out: &mut O)
    ensures { Adds (O.state out.old) (O.state out.new) (flat_map (T.text names.now) items.now) }
{
    for item in items {
        item.print(names, out);
    }
}

// Puts replies behind the parts, so many at a time.
fn push_replies<'r>(parts: &mut Vec<Part<'r>>, replies: &'r [ReplyLine]) -> Result<(), AllocError>
    ensures { OnOk result (HaveMore (λ r. flat_map (reply_lines r) replies.now) parts.old.items parts.new.items) }
{
    let mut rest = replies;
    while !rest.is_empty() {
        let (some, after) = rest.split_at(rest.len().min(REPLIES));
        parts.push(Part::Replies(some))?;
        rest = after;
    }
    Ok(())
}

// Puts the clients behind the parts.
fn push_clients<'r>(
    parts: &mut Vec<Part<'r>>,
    clients: &'r [ClientReport],
) -> Result<(), AllocError>
    ensures { OnOk result (HaveMore (λ r. flat_map (client_lines r) clients.now) parts.old.items parts.new.items) }
{
    for client in clients {
        parts.push(Part::Client(&client.name))?;
        push_replies(parts, client.replies.as_slice())?;
    }
    Ok(())
}

// Puts the rows behind the parts, so many at a time.
fn push_rows<'r>(parts: &mut Vec<Part<'r>>, rows: &'r [RowReport]) -> Result<(), AllocError>
    ensures { OnOk result (HaveMore (λ r. flat_map (row_line r) rows.now) parts.old.items parts.new.items) }
{
    let mut rest = rows;
    while !rest.is_empty() {
        let (some, after) = rest.split_at(rest.len().min(ROWS));
        parts.push(Part::Rows(some))?;
        rest = after;
    }
    Ok(())
}

// Puts the columns behind the parts.
fn push_columns<'r>(
    parts: &mut Vec<Part<'r>>,
    columns: &'r [ColumnReport],
) -> Result<(), AllocError>
    ensures { OnOk result (HaveMore (λ r. flat_map (column_lines r) columns.now) parts.old.items parts.new.items) }
{
    for column in columns {
        parts.push(Part::Column(column))?;
    }
    Ok(())
}

/// A report in parts: its clients, its rows, its columns.
pub fn parts_of(alloc: Global, report: &Report) -> Result<Vec<Part<'_>>, AllocError>
    ensures { IfOk result (λ parts. ArePartsOf report.now parts.items) }
{
    let mut parts = Vec::new(alloc);
    push_clients(&mut parts, report.clients.as_slice())?;
    push_rows(&mut parts, report.rows.as_slice())?;
    push_columns(&mut parts, report.columns.as_slice())?;
    Ok(parts)
}

/// On how many threads the texts of the parts are made: one more for so much weight, up to the most.
pub fn threads_for(parts: &[Part<'_>], most: NonZeroUsize) -> usize
    ensures { 0 < result }
{
    let mut weight = 0usize;
    for part in parts {
        weight = weight.saturating_add(part.weight());
    }
    (weight / WEIGHT + 1).min(most.get())
}
