// The nodes of a column, and which of them are shown.
ghost use Rattle.std.specs.Prelude.{◌≡◌, filter, map, IfOk};
ghost use Rattle.std.specs.List.{enumerate_from};
ghost use Rattle.log_node.specs.Vectors.{at};
ghost use Rattle.run_picture.specs.Marks.{greatest_clock, first_stamp, slots, line_mark, marks, has_stamp, is_shown, shown, keys_left_out, queue_left_out, left_out, is_above, depth_among, is_in_line};

use crate::picture::{Kind, Mark};
use log_node::{Counts, Key};
use report_text::{ColumnReport, QueueKey, Report};
use std::alloc::{AllocError, Global};

/// How many stamps the axis has at most.
pub const SHOWN: u64 = 24;

/// The greatest clock of all columns.
pub fn greatest_clock(report: &Report) -> u64
    ensures { result ≡ greatest_clock report.now }
{
    let mut last = 0;
    for column in report.columns.as_slice() {
        if last < column.clock {
            last = column.clock;
        }
    }
    last
}

/// The first stamp that is shown, where this is the last one.
pub fn first_stamp(last: u64) -> u64
    ensures { result ≡ first_stamp last }
{
    if last < SHOWN { 1 } else { last - SHOWN + 1 }
}

/// How many stamps are shown, where this is the last one.
pub fn slots(last: u64) -> u8
    ensures { result ≡ slots last }
{
    last.min(SHOWN) as u8
}

/// A vector's number for a region.
pub fn count_of(counts: &Counts, region: u8) -> u64
    ensures { result ≡ at counts.now region }
{
    match counts.0.get(region as usize) {
        Some(count) => *count,
        None => 0,
    }
}

// A node of the line.
fn line_mark(base: u64, position: u64, key: Key) -> Mark
    ensures { result ≡ line_mark base (position, key) }
{
    let kind = if position < base {
        Kind::Trimmed
    } else {
        Kind::Stands
    };
    Mark {
        key,
        kind,
        position,
    }
}

// The nodes of the line.
fn line_marks(alloc: Global, line: &[Key], base: u64) -> Result<Vec<Mark>, AllocError>
    ensures { IfOk result (λ found. found.items ≡ map (line_mark base) (enumerate_from 0 line.now)) }
{
    line.iter()
        .enumerate()
        .map(|(position, key)| line_mark(base, position as u64, *key))
        .collect(alloc)
}

// The nodes of the column, in rising key.
fn marks_of(alloc: Global, column: &ColumnReport) -> Result<Vec<Mark>, AllocError>
    ensures { IfOk result (λ found. found.items ≡ marks column.now) }
{
    let base = count_of(&column.base, column.region);
    let mut found = line_marks(alloc, column.line.as_slice(), base)?;
    let position = column.line.len() as u64;
    for waiting in column.queue.as_slice() {
        let kind = if waiting.settled {
            Kind::Waits
        } else {
            Kind::Open
        };
        found.push(Mark {
            key: waiting.key,
            kind,
            position,
        })?;
    }
    Ok(found)
}

// Whether the axis has the stamp.
fn has_stamp(last: u64, stamp: u64) -> bool
    ensures { result ≡ has_stamp last stamp }
{
    first_stamp(last) <= stamp && stamp <= last
}

// Whether the axis has the stamp of the node.
fn is_shown(last: u64, mark: &Mark) -> bool
    ensures { result ≡ is_shown last mark.now }
{
    has_stamp(last, mark.key.stamp)
}

// Those of the nodes that are shown.
fn shown(alloc: Global, last: u64, found: &[Mark]) -> Result<Vec<Mark>, AllocError>
    ensures { IfOk result (λ those. those.items ≡ filter (is_shown last) found.now) }
{
    found
        .iter()
        .copied()
        .filter(|mark| is_shown(last, mark))
        .collect(alloc)
}

/// The nodes of the column that are shown.
pub fn shown_marks(alloc: Global, column: &ColumnReport, last: u64) -> Result<Vec<Mark>, AllocError>
    ensures { IfOk result (λ those. those.items ≡ shown last column.now) }
{
    let found = marks_of(alloc, column)?;
    shown(alloc, last, &found)
}

// How many keys have a stamp that is not shown.
fn keys_left_out(last: u64, line: &[Key]) -> u64
    ensures { result ≡ keys_left_out last line.now }
{
    line.iter()
        .filter(|key| !has_stamp(last, key.stamp))
        .count() as u64
}

// How many keys of a queue have a stamp that is not shown.
fn queue_left_out(last: u64, queue: &[QueueKey]) -> u64
    ensures { result ≡ queue_left_out last queue.now }
{
    queue
        .iter()
        .filter(|waiting| !has_stamp(last, waiting.key.stamp))
        .count() as u64
}

/// How many nodes of the column are not shown.
pub fn left_out(last: u64, column: &ColumnReport) -> u64
    ensures { result ≡ left_out last column.now }
{
    let line = keys_left_out(last, column.line.as_slice());
    line.saturating_add(queue_left_out(last, column.queue.as_slice()))
}

// Whether the one node stands above the other in its lane: both have one stamp, and the one has the lesser id.
fn is_above(mark: &Mark, other: &Mark) -> bool
    ensures { result ≡ is_above mark.now other.now }
{
    other.key.stamp == mark.key.stamp && other.key.id.is_below(mark.key.id)
}

/// How many of the nodes have the stamp of this one and a lesser id, 3 at most.
pub fn depth_among(found: &[Mark], mark: &Mark) -> u8
    ensures { result ≡ depth_among found.now mark.now }
{
    found
        .iter()
        .filter(|other| is_above(mark, other))
        .count()
        .min(3) as u8
}

impl Kind {
    /// Whether the node is in the line.
    pub fn is_in_line(self) -> bool
        ensures { result ≡ is_in_line self }
    {
        match self {
            Kind::Stands | Kind::Trimmed => true,
            Kind::Waits | Kind::Open => false,
        }
    }
}
