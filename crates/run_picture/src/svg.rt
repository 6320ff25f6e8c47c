// The text of a picture, in SVG.
ghost use Rattle.std.specs.Prelude.{◌≡◌, ◌<◌, ◌^◌};
ghost use Rattle.std.specs.List.{flat_map, range_with_len};
ghost use Rattle.report_text.specs.Output.{Adds};
ghost use Rattle.run_picture.specs.Svg.{stamp_text, slot_text, box_start, reply_text, said_text, by_text, helper_text, box_text, is_gone, gone_id, gone_row, any_gone, gone_list, gone_text, bottom_of, head_text, axis_text, parts_text, svg_text};

use crate::boxes::client_name;
use crate::labels::put_node;
use crate::lanes::put_columns;
use crate::links::put_links;
use crate::look::{PICTURE_LEGEND, put_start};
use crate::makers::{command_at, maker};
use crate::marks::{first_stamp, greatest_clock, slots};
use crate::picture::NodeBox;
use crate::pieces::{Piece, put_all};
use crate::spots::{lane_top, slot_x, spot_y};
use log_node::Outcome;
use report_text::{Output, ReplyLine, Report, RowReport};
use script_text::Script;

// A stamp of the axis.
fn put_stamp<O: Output>(slot: u8, stamp: u64, out: &mut O)
    ensures { Adds (O.state out.old) (O.state out.new) (stamp_text slot stamp) }
{
    let x = slot_x(slot);
    put_all(
        &[
            Piece::Mark("<text class='axis' x='"),
            Piece::Number(x),
            Piece::Mark("' y='86'>stamp "),
            Piece::Number(stamp),
            Piece::Mark("</text><path class='tick' d='M"),
            Piece::Number(x - 10),
            Piece::Mark(" 90V9999'/>\n"),
        ],
        out,
    );
}

// The axis.
fn put_axis<O: Output>(first: u64, count: u8, out: &mut O)
    ensures { Adds (O.state out.old) (O.state out.new) (flat_map (slot_text first) (range_with_len 0 count)) }
{
    for slot in 0..count {
        put_stamp(slot, first.saturating_add(slot as u64), out);
    }
}

// The beginning of a box: the node's id.
fn put_box_start<O: Output>(report: &Report, node: &NodeBox, out: &mut O)
    ensures { Adds (O.state out.old) (O.state out.new) (box_start report.now node.now) }
{
    let kind = node.mark.kind;
    let id = node.mark.key.id;
    put_all(
        &[
            Piece::Mark("<svg x='"),
            Piece::Number(slot_x(node.at.slot)),
            Piece::Mark("' y='"),
            Piece::Number(spot_y(node.at)),
            Piece::Mark("' width='130' height='36' class='box r"),
            Piece::Number(node.region as u64),
            Piece::Mark(" "),
            Piece::Mark(kind.class()),
            Piece::Mark("'><use href='#b'/><svg width='123' height='36'><text x='8' y='15'>"),
            Piece::Text(client_name(report, id.client)),
            Piece::Mark("."),
            Piece::Number(id.count),
            Piece::Mark(kind.note()),
            Piece::Mark("</text><text x='8' y='29'>"),
        ],
        out,
    );
}

// What a node says that the command made which was answered so.
fn put_reply<O: Output>(script: &Script, reply: &ReplyLine, out: &mut O)
    ensures { Adds (O.state out.old) (O.state out.new) (reply_text script.now reply.now) }
{
    match command_at(script.commands.as_slice(), reply.line) {
        Some(command) => put_node(&command.what, &reply.answer, out),
        None => put_all(&[], out),
    }
}

// What a node says; nothing where no reply tells of it.
fn put_said<O: Output>(script: &Script, report: &Report, node: &NodeBox, out: &mut O)
    ensures { Adds (O.state out.old) (O.state out.new) (said_text script.now report.now node.now) }
{
    match maker(report, node.colour, node.mark.position, node.mark.key) {
        Some(reply) => put_reply(script, reply, out),
        None => put_all(&[], out),
    }
}

// Who completed a node, to the right of the band.
fn put_by<O: Output>(report: &Report, node: &NodeBox, helper: u8, out: &mut O)
    ensures { Adds (O.state out.old) (O.state out.new) (by_text report.now node.now helper) }
{
    put_all(
        &[
            Piece::Mark("</text></svg></svg><text class='note' x='"),
            Piece::Number(slot_x(node.at.slot) + 76),
            Piece::Mark("' y='"),
            Piece::Number(spot_y(node.at) + 49),
            Piece::Mark("'>completed by "),
            Piece::Text(client_name(report, helper)),
            Piece::Mark("</text>\n"),
        ],
        out,
    );
}

// The end of a box, and who completed its node.
fn put_helper<O: Output>(report: &Report, node: &NodeBox, out: &mut O)
    ensures { Adds (O.state out.old) (O.state out.new) (helper_text report.now node.now) }
{
    match node.helper {
        Some(helper) => put_by(report, node, helper, out),
        None => put_all(&[Piece::Mark("</text></svg></svg>\n")], out),
    }
}

// A box under its stamp, in its lane: the id, what the node says, and who completed it.
fn put_box<O: Output>(script: &Script, report: &Report, node: &NodeBox, out: &mut O)
    ensures { Adds (O.state out.old) (O.state out.new) (box_text script.now report.now node.now) }
{
    put_box_start(report, node, out);
    put_said(script, report, node, out);
    put_helper(report, node, out);
}

// The boxes.
fn put_boxes<O: Output>(script: &Script, report: &Report, boxes: &[NodeBox], out: &mut O)
    ensures { Adds (O.state out.old) (O.state out.new) (flat_map (box_text script.now report.now) boxes.now) }
{
    for node in boxes {
        put_box(script, report, node, out);
    }
}

// Whether the row's append came to nothing.
fn is_gone(row: &RowReport) -> bool
    ensures { result ≡ is_gone row.now.last }
{
    match row.last {
        Outcome::Open => false,
        Outcome::Gone(_) => true,
        Outcome::Final(_) => false,
    }
}

// The id of an append that came to nothing.
fn put_gone<O: Output>(report: &Report, row: &RowReport, out: &mut O)
    ensures { Adds (O.state out.old) (O.state out.new) (gone_id report.now row.now) }
{
    put_all(
        &[
            Piece::Mark(" "),
            Piece::Text(client_name(report, row.id.client)),
            Piece::Mark("."),
            Piece::Number(row.id.count),
        ],
        out,
    );
}

// The same, where its append came to nothing.
fn put_row<O: Output>(report: &Report, row: &RowReport, out: &mut O)
    ensures { Adds (O.state out.old) (O.state out.new) (gone_row report.now row.now) }
{
    if is_gone(row) {
        put_gone(report, row, out);
    } else {
        put_all(&[], out);
    }
}

// The ids of those that came to nothing.
fn put_gone_rows<O: Output>(report: &Report, rows: &[RowReport], out: &mut O)
    ensures { Adds (O.state out.old) (O.state out.new) (flat_map (gone_row report.now) rows.now) }
{
    for row in rows {
        put_row(report, row, out);
    }
}

// Whether an append came to nothing.
fn any_gone(rows: &[RowReport]) -> bool
    ensures { result ≡ any_gone rows.now }
{
    rows.iter().any(|row| is_gone(row))
}

// The appends that came to nothing, below the lanes.
fn put_gone_list<O: Output>(height: u64, report: &Report, out: &mut O)
    ensures { Adds (O.state out.old) (O.state out.new) (gone_list height report.now) }
{
    put_all(
        &[
            Piece::Mark("<text x='18' y='"),
            Piece::Number(height),
            Piece::Mark("'>gone:"),
        ],
        out,
    );
    put_gone_rows(report, report.rows.as_slice(), out);
    put_all(&[Piece::Mark("</text>\n")], out);
}

// The same where there are any.
fn put_any_gone<O: Output>(height: u64, report: &Report, out: &mut O)
    ensures { Adds (O.state out.old) (O.state out.new) (gone_text height report.now) }
{
    if any_gone(report.rows.as_slice()) {
        put_gone_list(height, report, out);
    } else {
        put_all(&[], out);
    }
}

// Below all lanes.
fn bottom_of(script: &Script) -> u64
    ensures value { result ≡ bottom_of script.now }
    ensures range { result < 2 ^ 24 }
{
    lane_top(script.shape.colours as u16 * script.shape.regions as u16) + 8
}

// The beginning, for an axis up to this stamp.
fn put_head<O: Output>(script: &Script, last: u64, out: &mut O)
    ensures { Adds (O.state out.old) (O.state out.new) (head_text script.now last) }
{
    let width = slot_x(slots(last)) + 60;
    put_start(width, bottom_of(script) + 12, PICTURE_LEGEND, out);
}

// The axis up to this stamp.
fn put_stamps<O: Output>(last: u64, out: &mut O)
    ensures { Adds (O.state out.old) (O.state out.new) (axis_text last) }
{
    put_axis(first_stamp(last), slots(last), out);
}

// What came to nothing, below all lanes.
fn put_bottom<O: Output>(script: &Script, report: &Report, out: &mut O)
    ensures { Adds (O.state out.old) (O.state out.new) (gone_text (bottom_of script.now) report.now) }
{
    put_any_gone(bottom_of(script), report, out);
}

// The text of a picture with these boxes and an axis up to this stamp.
fn put_parts<O: Output>(script: &Script, report: &Report, last: u64, boxes: &[NodeBox], out: &mut O)
    ensures { Adds (O.state out.old) (O.state out.new) (parts_text script.now report.now last boxes.now) }
{
    put_head(script, last, out);
    put_stamps(last, out);
    put_columns(script, report, last, report.columns.as_slice(), out);
    put_links(boxes, boxes, out);
    put_boxes(script, report, boxes, out);
    put_bottom(script, report, out);
    put_all(&[Piece::Mark("</svg>\n")], out);
}

/// The text of a picture of a script's run, by its report, with these boxes.
pub fn put_picture<O: Output>(script: &Script, report: &Report, boxes: &[NodeBox], out: &mut O)
    ensures { Adds (O.state out.old) (O.state out.new) (svg_text script.now report.now boxes.now) }
{
    put_parts(script, report, greatest_clock(report), boxes, out);
}
