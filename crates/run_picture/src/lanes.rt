// The lanes of columns, and what columns hold of chains.
ghost use Rattle.std.specs.Prelude.{◌≡◌, length};
ghost use Rattle.std.specs.List.{flat_map};
ghost use Rattle.col_core.specs.Cuts.{carried};
ghost use Rattle.report_text.specs.Output.{Adds};
ghost use Rattle.run_picture.specs.Marks.{left_out};
ghost use Rattle.run_picture.specs.Lanes.{carried_count, held_of, left_out_text, lane_start, holding_text, origin_text, column_text};

use crate::boxes::lane_of;
use crate::marks::{count_of, left_out};
use crate::pieces::{Piece, put_all};
use crate::spots::lane_top;
use col_core::{Entry, Event};
use report_text::{ColumnReport, Output, Report};
use script_text::Script;

// How many nodes of the region were carried to the column.
fn carried_count(journal: &[Entry], region: u8) -> u64
    ensures { result ≡ carried_count region journal.now }
{
    let mut count: u64 = 0;
    for entry in journal {
        count = count.saturating_add(carried_by(entry, region));
    }
    count
}

// How many nodes of the region an event brings.
fn carried_by(entry: &Entry, region: u8) -> u64
    ensures { result ≡ length (carried region entry.now.event) }
{
    match &entry.event {
        Event::Single { .. } => 0,
        Event::Propose { .. } => 0,
        Event::Settle { .. } => 0,
        Event::Raise { .. } => 0,
        Event::Give { .. } => 0,
        Event::Carry {
            region: other,
            heads,
            ..
        } => {
            if *other == region {
                heads.len() as u64
            } else {
                0
            }
        }
        Event::Trim { .. } => 0,
    }
}

// How many nodes of the region the column holds: of its own the line, and of another what was carried.
fn held_of(column: &ColumnReport, region: u8) -> u64
    ensures { result ≡ held_of column.now region }
{
    if region == column.region {
        column.line.len() as u64
    } else {
        carried_count(column.journal.as_slice(), region)
    }
}

// How many nodes of a lane are not shown, where there are any.
fn put_left_out<O: Output>(count: u64, out: &mut O)
    ensures { Adds (O.state out.old) (O.state out.new) (left_out_text count) }
{
    if count == 0 {
        put_all(&[Piece::Mark("</g>\n")], out);
    } else {
        put_all(
            &[
                Piece::Mark("<text x='18' y='75'>"),
                Piece::Number(count),
                Piece::Mark(" not shown</text></g>\n"),
            ],
            out,
        );
    }
}

// How many nodes of a column are not shown.
fn put_hidden<O: Output>(last: u64, column: &ColumnReport, out: &mut O)
    ensures { Adds (O.state out.old) (O.state out.new) (left_out_text (left_out last column.now)) }
{
    put_left_out(left_out(last, column), out);
}

// The lane of a column: its colour, its region, and its clock.
fn put_lane_start<O: Output>(script: &Script, column: &ColumnReport, out: &mut O)
    ensures { Adds (O.state out.old) (O.state out.new) (lane_start script.now column.now) }
{
    put_all(
        &[
            Piece::Mark("<g transform='translate(0,"),
            Piece::Number(lane_top(lane_of(script, column))),
            Piece::Mark(")' class='lane r"),
            Piece::Number(column.region as u64),
            Piece::Mark("'><use href='#l'/><text x='18' y='25'>"),
            Piece::Text(column.colour_name.as_bytes()),
            Piece::Mark("</text><text x='18' y='43'>in "),
            Piece::Text(column.region_name.as_bytes()),
            Piece::Mark("</text><text x='18' y='59'>clock "),
            Piece::Number(column.clock),
            Piece::Mark("</text>"),
        ],
        out,
    );
}

// What a column holds of the chain of another column of its colour, or of its own.
fn put_holding<O: Output>(
    script: &Script,
    column: &ColumnReport,
    origin: &ColumnReport,
    out: &mut O,
)
    ensures { Adds (O.state out.old) (O.state out.new) (holding_text script.now column.now origin.now) }
{
    let region = origin.region;
    put_all(
        &[
            Piece::Mark("<text x='130' y='"),
            Piece::Number(lane_top(lane_of(script, column)) + 25 + 16 * region as u64),
            Piece::Mark("'>"),
            Piece::Text(origin.region_name.as_bytes()),
            Piece::Mark(": holds "),
            Piece::Number(held_of(column, region)),
            Piece::Mark(", plays "),
            Piece::Number(count_of(&column.cut, region)),
            Piece::Mark(", dropped "),
            Piece::Number(count_of(&column.base, region)),
            Piece::Mark("</text>\n"),
        ],
        out,
    );
}

// The same, where the other column is of its colour.
fn put_origin<O: Output>(script: &Script, column: &ColumnReport, origin: &ColumnReport, out: &mut O)
    ensures { Adds (O.state out.old) (O.state out.new) (origin_text script.now column.now origin.now) }
{
    if origin.colour == column.colour {
        put_holding(script, column, origin, out);
    } else {
        put_all(&[], out);
    }
}

// What a column holds of the chains of these columns, where they are of its colour.
fn put_holdings<O: Output>(
    script: &Script,
    column: &ColumnReport,
    origins: &[ColumnReport],
    out: &mut O,
)
    ensures { Adds (O.state out.old) (O.state out.new)
        (flat_map (origin_text script.now column.now) origins.now) }
{
    for origin in origins {
        put_origin(script, column, origin, out);
    }
}

// A lane, and what its column holds.
fn put_column<O: Output>(
    script: &Script,
    report: &Report,
    last: u64,
    column: &ColumnReport,
    out: &mut O,
)
    ensures { Adds (O.state out.old) (O.state out.new) (column_text script.now report.now last column.now) }
{
    put_lane_start(script, column, out);
    put_hidden(last, column, out);
    put_holdings(script, column, report.columns.as_slice(), out);
}

/// The lanes, and what their columns hold.
pub fn put_columns<O: Output>(
    script: &Script,
    report: &Report,
    last: u64,
    columns: &[ColumnReport],
    out: &mut O,
)
    ensures { Adds (O.state out.old) (O.state out.new)
        (flat_map (column_text script.now report.now last) columns.now) }
{
    for column in columns {
        put_column(script, report, last, column, out);
    }
}
