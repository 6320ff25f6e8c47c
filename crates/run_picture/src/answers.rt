// What a command was answered, as a drawing has it.
ghost use Rattle.std.specs.Prelude.{◌≡◌};
ghost use Rattle.std.specs.List.{flat_map, find, enumerate_from};
ghost use Rattle.std.specs.Option.{option_copied};
ghost use Rattle.report_text.specs.Output.{Adds};
ghost use Rattle.run_picture.specs.Answers.{home_of, column_of, id_at, first_id, id_label, value_label, values_label, found_label, verdict_label, count_label, region_label, based_label, stood_label, ruled_label, told_label, changed_label, listed_label, took_label, undecided_label, decision_label, ended_id, decided_label, answer_label};

use crate::boxes::client_name;
use crate::labels::put_fields;
use crate::marks::count_of;
use crate::pieces::{Piece, put_all};
use log_node::{Counts, Id, Names, Text};
use object_form::TreeWhy;
use report_text::{Answer, ColumnReport, Ended, KeyAnswer, Output, PointPiece, Report};
use script_text::Script;

/// The region of a client; 0 where the number names no client.
pub fn home_of(script: &Script, client: u8) -> u8
    ensures { result ≡ home_of script.now client }
{
    match script.shape.homes.get(client as usize) {
        Some(region) => *region,
        None => 0,
    }
}

// The column of a region and a colour.
fn column_of(report: &Report, region: u8, colour: u8) -> Option<&ColumnReport>
    ensures { option_copied result ≡ column_of report.now region colour }
{
    report.columns.as_slice().iter().find(|column| column.region == region
        && column.colour == colour)
}

// The id of the node where an append of this region stands.
fn id_at(report: &Report, region: u8, point: &PointPiece) -> Option<Id>
    ensures { result ≡ id_at report.now region point.now }
{
    let column = column_of(report, region, point.colour)?;
    let key = column.line.get(point.position as usize)?;
    Some(key.id)
}

// The same, of the first of the points.
fn first_id(report: &Report, region: u8, points: &[PointPiece]) -> Option<Id>
    ensures { result ≡ first_id report.now region points.now }
{
    match points {
        [point, ..] => id_at(report, region, point),
        [] => None,
    }
}

// An id, where there is one.
fn put_id<O: Output>(report: &Report, id: Option<Id>, out: &mut O)
    ensures { Adds (O.state out.old) (O.state out.new) (id_label report.now id) }
{
    match id {
        Some(id) => put_all(
            &[
                Piece::Text(client_name(report, id.client)),
                Piece::Mark("."),
                Piece::Number(id.count),
                Piece::Mark(" "),
            ],
            out,
        ),
        None => put_all(&[], out),
    }
}

// A value, or that there is none.
fn put_value<O: Output>(value: &Option<Text>, out: &mut O)
    ensures { Adds (O.state out.old) (O.state out.new) (value_label value.now) }
{
    match value {
        Some(value) => put_all(&[Piece::Text(value.as_bytes())], out),
        None => put_all(&[Piece::Mark("none")], out),
    }
}

// Values, or that there is none.
fn put_values<O: Output>(values: &[Text], out: &mut O)
    ensures { Adds (O.state out.old) (O.state out.new) (values_label values.now) }
{
    match values {
        [] => put_all(&[Piece::Mark("none")], out),
        [_, ..] => put_fields(values, out),
    }
}

// A number of a base.
fn put_count<O: Output>(base: &Counts, region: usize, out: &mut O)
    ensures { Adds (O.state out.old) (O.state out.new) (count_label base.now region) }
{
    put_all(
        &[
            Piece::Mark(" "),
            Piece::Number(count_of(base, region.min(255) as u8)),
        ],
        out,
    );
}

// The numbers of a base, one for each of these regions.
fn put_base<O: Output>(base: &Counts, regions: &[Text], out: &mut O)
    ensures { Adds (O.state out.old) (O.state out.new)
        (flat_map (region_label base.now) (enumerate_from 0 regions.now)) }
{
    for (region, _) in regions.iter().enumerate() {
        put_count(base, region, out);
    }
}

// The base that a trim left.
fn put_based<O: Output>(script: &Script, base: &Counts, out: &mut O)
    ensures { Adds (O.state out.old) (O.state out.new) (based_label script.now base.now) }
{
    put_all(&[Piece::Mark("base")], out);
    put_base(base, script.regions.as_slice(), out);
}

// A key with its value, or a dash where it has none.
fn put_found<O: Output>(found: &KeyAnswer, out: &mut O)
    ensures { Adds (O.state out.old) (O.state out.new) (found_label found.now) }
{
    let value = match &found.value {
        Some(value) => value.as_bytes(),
        None => b"-",
    };
    put_all(
        &[
            Piece::Mark(" "),
            Piece::Text(found.key.as_bytes()),
            Piece::Mark("="),
            Piece::Text(value),
        ],
        out,
    );
}

// Keys with their values.
fn put_founds<O: Output>(founds: &[KeyAnswer], out: &mut O)
    ensures { Adds (O.state out.old) (O.state out.new) (flat_map found_label founds.now) }
{
    for found in founds {
        put_found(found, out);
    }
}

// The verdict on a transaction.
fn put_verdict<O: Output>(conflict: &Option<Text>, stamp: u64, out: &mut O)
    ensures { Adds (O.state out.old) (O.state out.new) (verdict_label conflict.now stamp) }
{
    match conflict {
        Some(key) => put_all(
            &[Piece::Mark("conflict "), Piece::Text(key.as_bytes())],
            out,
        ),
        None => put_all(&[Piece::Mark("committed "), Piece::Number(stamp)], out),
    }
}

// A node that was made under this stamp.
fn put_stood<O: Output>(report: &Report, id: Option<Id>, stamp: u64, out: &mut O)
    ensures { Adds (O.state out.old) (O.state out.new) (stood_label report.now id stamp) }
{
    put_id(report, id, out);
    put_all(&[Piece::Mark("stamp "), Piece::Number(stamp)], out);
}

// A transaction's node, and its verdict.
fn put_ruled<O: Output>(
    report: &Report,
    id: Option<Id>,
    conflict: &Option<Text>,
    stamp: u64,
    out: &mut O,
)
    ensures { Adds (O.state out.old) (O.state out.new) (ruled_label report.now id conflict.now stamp) }
{
    put_id(report, id, out);
    put_verdict(conflict, stamp, out);
}

// The node of one that took a value from a queue, and the value.
fn put_took<O: Output>(report: &Report, id: Option<Id>, value: &Option<Text>, out: &mut O)
    ensures { Adds (O.state out.old) (O.state out.new) (took_label report.now id value.now) }
{
    put_id(report, id, out);
    put_value(value, out);
}

// What became of a change of a tree.
fn put_told<O: Output>(failed: Option<TreeWhy>, stamp: u64, out: &mut O)
    ensures { Adds (O.state out.old) (O.state out.new) (told_label failed stamp) }
{
    match failed {
        Some(why) => put_all(
            &[Piece::Mark("failed "), Piece::Text(why.as_str().as_bytes())],
            out,
        ),
        None => put_all(&[Piece::Mark("done "), Piece::Number(stamp)], out),
    }
}

// A change's node, and what became of it.
fn put_changed<O: Output>(
    report: &Report,
    id: Option<Id>,
    failed: Option<TreeWhy>,
    stamp: u64,
    out: &mut O,
)
    ensures { Adds (O.state out.old) (O.state out.new) (changed_label report.now id failed stamp) }
{
    put_id(report, id, out);
    put_told(failed, stamp, out);
}

// The names in a path of a tree, or that it is not there.
fn put_listed<O: Output>(names: &Option<Names>, out: &mut O)
    ensures { Adds (O.state out.old) (O.state out.new) (listed_label names.now) }
{
    match names {
        Some(names) => put_values(names.as_slice(), out),
        None => put_all(&[Piece::Mark("missing")], out),
    }
}

// A transaction whose verdict is not known yet.
fn put_undecided<O: Output>(stamp: u64, out: &mut O)
    ensures { Adds (O.state out.old) (O.state out.new) (undecided_label stamp) }
{
    put_all(&[Piece::Mark("undecided "), Piece::Number(stamp)], out);
}

// The verdict that is decided on a transaction.
fn put_decision<O: Output>(commits: bool, stamp: u64, out: &mut O)
    ensures { Adds (O.state out.old) (O.state out.new) (decision_label commits stamp) }
{
    match commits {
        true => put_all(&[Piece::Mark("committed "), Piece::Number(stamp)], out),
        false => put_all(&[Piece::Mark("conflict "), Piece::Number(stamp)], out),
    }
}

// The id of the node of a decision whose append in this region ended so.
fn ended_id(report: &Report, region: u8, ended: &Ended) -> Option<Id>
    ensures { result ≡ ended_id report.now region ended.now }
{
    match ended {
        Ended::Stood { point, .. } => id_at(report, region, point),
        Ended::StampEnd { .. } => None,
        Ended::NoMemory => None,
    }
}

// A decision's node, and the verdict.
fn put_decided<O: Output>(report: &Report, id: Option<Id>, commits: bool, stamp: u64, out: &mut O)
    ensures { Adds (O.state out.old) (O.state out.new) (decided_label report.now id commits stamp) }
{
    put_id(report, id, out);
    put_decision(commits, stamp, out);
}

/// What a command of a client of this region was answered.
pub fn put_answer<O: Output>(
    script: &Script,
    report: &Report,
    region: u8,
    answer: &Answer,
    out: &mut O,
)
    ensures { Adds (O.state out.old) (O.state out.new) (answer_label script.now report.now region answer.now) }
{
    match answer {
        Answer::Stood { stamp, points, .. } => {
            put_stood(
                report,
                first_id(report, region, points.as_slice()),
                *stamp,
                out,
            )
        }
        Answer::Ruled {
            conflict,
            stamp,
            points,
            ..
        } => put_ruled(
            report,
            first_id(report, region, points.as_slice()),
            conflict,
            *stamp,
            out,
        ),
        Answer::Changed {
            failed,
            stamp,
            points,
            ..
        } => put_changed(
            report,
            first_id(report, region, points.as_slice()),
            *failed,
            *stamp,
            out,
        ),
        Answer::Listed { names, .. } => put_listed(names, out),
        Answer::Undecided { stamp, .. } => put_undecided(*stamp, out),
        Answer::Decided {
            commits,
            stamp,
            ended,
            ..
        } => put_decided(
            report,
            ended_id(report, region, ended),
            *commits,
            *stamp,
            out,
        ),
        Answer::Moved { length, .. } => put_all(
            &[Piece::Mark("moved "), Piece::Number(*length)],
            out,
        ),
        Answer::Took { value, point, .. } => put_took(
            report,
            id_at(report, region, point),
            value,
            out,
        ),
        Answer::Got { value, .. } => put_value(value, out),
        Answer::GotMany { values, .. } => put_values(values.as_slice(), out),
        Answer::GotKeys { keys, .. } => put_founds(keys.as_slice(), out),
        Answer::Based { base, .. } => put_based(script, base, out),
        Answer::Stopped { steps } => put_all(
            &[
                Piece::Mark("stops after step "),
                Piece::Number(*steps as u64),
            ],
            out,
        ),
        Answer::Synced { plays, .. } => put_all(
            &[Piece::Mark("plays "), Piece::Number(*plays)],
            out,
        ),
        Answer::Scanned { nodes, .. } => put_all(
            &[Piece::Mark("nodes "), Piece::Number(*nodes)],
            out,
        ),
        Answer::Pulled { nodes, .. } => put_all(
            &[Piece::Mark("carries "), Piece::Number(*nodes)],
            out,
        ),
        Answer::StampEnd { .. } => put_all(&[Piece::Mark("stampend")], out),
        Answer::Full { .. } => put_all(&[Piece::Mark("full")], out),
        Answer::SameRegion => put_all(&[Piece::Mark("sameregion")], out),
        Answer::NoTx => put_all(&[Piece::Mark("notx")], out),
        Answer::UnreadTrimmed { .. } => put_all(&[Piece::Mark("unread")], out),
        Answer::UnreadNoMemory { .. } => put_all(&[Piece::Mark("unread")], out),
        Answer::Trimmed { .. } => put_all(&[Piece::Mark("trimmed")], out),
        Answer::NotHome { .. } => put_all(&[Piece::Mark("nothome")], out),
        Answer::NoMemory => put_all(&[Piece::Mark("nomemory")], out),
    }
}
