// The boxes of a column's nodes.
ghost use Rattle.std.specs.Prelude.{◌≡◌, ◌++◌, map, IfOk, OnOk};
ghost use Rattle.std.specs.List.{find};
ghost use Rattle.std.specs.Option.{option_copied};
ghost use Rattle.col_core.specs.History.{enters};
ghost use Rattle.report_text.specs.Names.{client_name};
ghost use Rattle.run_picture.specs.Boxes.{slot_of, lane_of, entry_wants, wants_of, is_help, helper_of, box_of, column_boxes, boxes};

use crate::marks::{depth_among, first_stamp, greatest_clock, shown_marks};
use crate::picture::{Mark, NodeBox, Spot};
use col_core::{Entry, Event};
use log_node::{Counts, Id, ListOf};
use report_text::{ColumnReport, Report};
use script_text::Script;
use std::alloc::{AllocError, Global};

/// The lane of a column: those of a colour stand together.
pub fn lane_of(script: &Script, column: &ColumnReport) -> u16
    ensures { result ≡ lane_of script.now column.now }
{
    column.colour as u16 * script.shape.regions as u16 + column.region as u16
}

// The place on the axis of a stamp, where this is the last one.
fn slot_of(last: u64, stamp: u64) -> u8
    ensures { result ≡ slot_of last stamp }
{
    stamp.saturating_sub(first_stamp(last)).min(255) as u8
}

// Whether the event enters the id.
fn enters(id: Id, event: &Event) -> bool
    ensures { result ≡ enters id event.now }
{
    match event {
        Event::Single { id: other, .. } | Event::Propose { id: other, .. } => id == *other,
        Event::Settle { .. } => false,
        Event::Raise { .. } => false,
        Event::Give { .. } => false,
        Event::Carry { .. } => false,
        Event::Trim { .. } => false,
    }
}

// What the event wants that enters an id.
fn entry_wants(event: &Event) -> Counts
    ensures { result ≡ entry_wants event.now }
{
    match event {
        Event::Single { wants, .. } | Event::Propose { wants, .. } => *wants,
        Event::Settle { .. } => Counts::zeros(),
        Event::Raise { .. } => Counts::zeros(),
        Event::Give { .. } => Counts::zeros(),
        Event::Carry { .. } => Counts::zeros(),
        Event::Trim { .. } => Counts::zeros(),
    }
}

// The first entry that enters the id.
fn entry_of(journal: &[Entry], id: Id) -> Option<&Entry>
    ensures { option_copied result ≡ find (λ entry. enters id entry.event) journal.now }
{
    journal.iter().find(|entry| enters(id, &entry.event))
}

// What the event wanted by which the id entered.
fn wants_of(journal: &[Entry], id: Id) -> Counts
    ensures { result ≡ wants_of journal.now id }
{
    match entry_of(journal, id) {
        Some(entry) => entry_wants(&entry.event),
        None => Counts::zeros(),
    }
}

// Whether another client settles the id.
fn is_help(id: Id, entry: &Entry) -> bool
    ensures { result ≡ is_help id entry.now }
{
    match &entry.event {
        Event::Single { .. } => false,
        Event::Propose { .. } => false,
        Event::Settle { id: other, .. } => id == *other && entry.by != id.client,
        Event::Raise { .. } => false,
        Event::Give { .. } => false,
        Event::Carry { .. } => false,
        Event::Trim { .. } => false,
    }
}

/// A client's name; nothing where the number names none.
pub fn client_name(report: &Report, number: u8) -> &[u8]
    ensures { result.now ≡ client_name report.now number }
{
    match report.clients.get(number as usize) {
        Some(client) => client.name.as_bytes(),
        None => &[],
    }
}

// The first entry by which another client settled the id.
fn help_of(journal: &[Entry], id: Id) -> Option<&Entry>
    ensures { option_copied result ≡ find (is_help id) journal.now }
{
    journal.iter().find(|entry| is_help(id, entry))
}

// Another client who settled the id, where there is one.
fn helper_of(journal: &[Entry], id: Id) -> Option<u8>
    ensures { result ≡ helper_of journal.now id }
{
    match help_of(journal, id) {
        Some(entry) => Some(entry.by),
        None => None,
    }
}

// The box of a node of a column, of which these nodes are shown.
fn box_of(script: &Script, column: &ColumnReport, last: u64, those: &[Mark], mark: &Mark) -> NodeBox
    ensures { result ≡ box_of script.now column.now last those.now mark.now }
{
    let id = mark.key.id;
    let journal = column.journal.as_slice();
    NodeBox {
        region: column.region,
        colour: column.colour,
        mark: *mark,
        wants: wants_of(journal, id),
        at: Spot {
            slot: slot_of(last, mark.key.stamp),
            lane: lane_of(script, column),
            depth: depth_among(those, mark),
        },
        helper: helper_of(journal, id),
    }
}

// Adds the boxes of a column's nodes, where these are shown.
fn push_boxes(
    script: &Script,
    column: &ColumnReport,
    last: u64,
    those: &[Mark],
    boxes: &mut ListOf<NodeBox>,
) -> Result<(), AllocError>
    ensures { OnOk result (boxes.new ≡ boxes.old
        ++ map (box_of script.now column.now last those.now) those.now) }
{
    for mark in those {
        boxes.push(box_of(script, column, last, those, mark))?;
    }
    Ok(())
}

// Adds the boxes of a column.
fn push_column(
    alloc: Global,
    script: &Script,
    column: &ColumnReport,
    last: u64,
    boxes: &mut ListOf<NodeBox>,
) -> Result<(), AllocError>
    ensures { OnOk result (boxes.new ≡ boxes.old ++ column_boxes script.now last column.now) }
{
    let those = shown_marks(alloc, column, last)?;
    push_boxes(script, column, last, those.as_slice(), boxes)
}

/// The boxes of all columns: one for each node that is shown.
pub fn boxes_of(
    alloc: Global,
    script: &Script,
    report: &Report,
) -> Result<ListOf<NodeBox>, AllocError>
    ensures { IfOk result (λ made. made ≡ boxes script.now report.now) }
{
    let last = greatest_clock(report);
    let mut made = ListOf::new(alloc);
    for column in report.columns.as_slice() {
        push_column(alloc, script, column, last, &mut made)?;
    }
    Ok(made)
}
