// Who read what a command had made.
ghost use Rattle.std.specs.Prelude.{◌≡◌};
ghost use Rattle.std.specs.List.{flat_map, list_any, position, enumerate_from};
ghost use Rattle.std.specs.Option.{option_copied};
ghost use Rattle.report_text.specs.Output.{Adds};
ghost use Rattle.run_picture.specs.Arrows.{answer_to, is_in, is_in_any, plays, plays_point, plays_end, place_in, plays_column, plays_stop, plays_made, has_read, read_place, side_of, arrow_label, arrow_to, reader_arrow, maker_arrow, maker_arrows, arrows};

use crate::answers::home_of;
use crate::makers::{last_row, replies_of};
use crate::marks::count_of;
use crate::pieces::{Piece, put_all};
use crate::places::{top_of, x_of};
use log_node::{Id, Key};
use report_text::{
    Answer, ClientReport, ColumnReport, Ended, Output, PointPiece, Report, SyncPiece,
};
use script_text::{Command, Script};

/// What a command was answered.
pub fn answer_to<'a>(report: &'a Report, command: &Command) -> Option<&'a Answer>
    ensures { option_copied result ≡ answer_to report.now command.now }
{
    replies_of(report, command.client)
        .iter()
        .find(|reply| reply.line == command.line)
        .map(|reply| &reply.answer)
}

// Whether a sync's snapshot has the node at this position of the region's chain of the colour.
fn is_in(sync: &SyncPiece, region: u8, colour: u8, position: u64) -> bool
    ensures { result ≡ is_in region colour position sync.now }
{
    sync.colour == colour && position < count_of(&sync.counts, region)
}

// Whether the snapshot of one of the syncs has it.
fn is_in_any(syncs: &[SyncPiece], region: u8, colour: u8, position: u64) -> bool
    ensures { result ≡ is_in_any region colour position syncs.now }
{
    syncs
        .iter()
        .any(|sync| is_in(sync, region, colour, position))
}

// Whether a command that was answered so has played it.
fn plays(answer: &Answer, region: u8, colour: u8, position: u64) -> bool
    ensures { result ≡ plays answer.now region colour position }
{
    match answer {
        Answer::Synced { sync, .. } => is_in(sync, region, colour, position),
        Answer::Got { sync, .. } => is_in(sync, region, colour, position),
        Answer::GotMany { sync, .. } => is_in(sync, region, colour, position),
        Answer::Took { sync, .. } => is_in(sync, region, colour, position),
        Answer::Undecided { sync, .. } => is_in(sync, region, colour, position),
        Answer::Scanned { syncs, .. } => is_in_any(syncs.as_slice(), region, colour, position),
        Answer::GotKeys { syncs, .. } => is_in_any(syncs.as_slice(), region, colour, position),
        Answer::Ruled { syncs, .. } => is_in_any(syncs.as_slice(), region, colour, position),
        Answer::Changed { syncs, .. } => is_in_any(syncs.as_slice(), region, colour, position),
        Answer::Listed { syncs, .. } => is_in_any(syncs.as_slice(), region, colour, position),
        Answer::Decided { syncs, .. } => is_in_any(syncs.as_slice(), region, colour, position),
        Answer::Moved { .. } => false,
        Answer::Stood { .. } => false,
        Answer::StampEnd { .. } => false,
        Answer::Full { .. } => false,
        Answer::Stopped { .. } => false,
        Answer::Pulled { .. } => false,
        Answer::SameRegion => false,
        Answer::Based { .. } => false,
        Answer::NoTx => false,
        Answer::UnreadTrimmed { .. } => false,
        Answer::UnreadNoMemory { .. } => false,
        Answer::Trimmed { .. } => false,
        Answer::NotHome { .. } => false,
        Answer::NoMemory => false,
    }
}

// Whether it has played the node of an append of this region that stands there.
fn plays_point(answer: &Answer, region: u8, point: &PointPiece) -> bool
    ensures { result ≡ plays_point answer.now region point.now }
{
    plays(answer, region, point.colour, point.position)
}

// The same of one of several points.
fn plays_points(answer: &Answer, region: u8, points: &[PointPiece]) -> bool
    ensures { result ≡ list_any (plays_point answer.now region) points.now }
{
    points
        .iter()
        .any(|point| plays_point(answer, region, point))
}

// Whether it has played the node of a decision whose append in this region ended so.
fn plays_end(answer: &Answer, region: u8, ended: &Ended) -> bool
    ensures { result ≡ plays_end answer.now region ended.now }
{
    match ended {
        Ended::Stood { point, .. } => plays_point(answer, region, point),
        Ended::StampEnd { .. } => false,
        Ended::NoMemory => false,
    }
}

// The position of the id in a line.
fn place_in(line: &[Key], id: Id) -> Option<usize>
    ensures { result ≡ place_in id line.now }
{
    line.iter().position(|key| key.id == id)
}

// Whether it has played the node of this region in the column.
fn plays_column(answer: &Answer, region: u8, id: Id, column: &ColumnReport) -> bool
    ensures { result ≡ plays_column answer.now region id column.now }
{
    match place_in(column.line.as_slice(), id) {
        Some(position) => {
            column.region == region && plays(answer, region, column.colour, position as u64)
        }
        None => false,
    }
}

// Whether it has played the node of this region in one of the columns.
fn plays_id(answer: &Answer, region: u8, id: Id, columns: &[ColumnReport]) -> bool
    ensures { result ≡ list_any (plays_column answer.now region id) columns.now }
{
    columns
        .iter()
        .any(|column| plays_column(answer, region, id, column))
}

// Whether it has played the node that a client of this region began last.
fn plays_stop(report: &Report, answer: &Answer, region: u8, client: u8) -> bool
    ensures { result ≡ plays_stop report.now answer.now region client }
{
    match last_row(report.rows.as_slice(), client) {
        Some(id) => plays_id(answer, region, id, report.columns.as_slice()),
        None => false,
    }
}

// Whether it has played what a command of a client of this region made, which was answered so.
fn plays_made(report: &Report, answer: &Answer, region: u8, client: u8, made: &Answer) -> bool
    ensures { result ≡ plays_made report.now answer.now region client made.now }
{
    match made {
        Answer::Stood { points, .. } => plays_points(answer, region, points.as_slice()),
        Answer::Ruled { points, .. } => plays_points(answer, region, points.as_slice()),
        Answer::Changed { points, .. } => plays_points(answer, region, points.as_slice()),
        Answer::Took { point, .. } => plays_point(answer, region, point),
        Answer::Undecided { .. } => false,
        Answer::Decided { ended, .. } => plays_end(answer, region, ended),
        Answer::Listed { .. } => false,
        Answer::Moved { .. } => false,
        Answer::Stopped { steps } => *steps > 0 && plays_stop(report, answer, region, client),
        Answer::StampEnd { .. } => false,
        Answer::Full { .. } => false,
        Answer::Synced { .. } => false,
        Answer::Scanned { .. } => false,
        Answer::Pulled { .. } => false,
        Answer::SameRegion => false,
        Answer::Based { .. } => false,
        Answer::Got { .. } => false,
        Answer::GotMany { .. } => false,
        Answer::GotKeys { .. } => false,
        Answer::NoTx => false,
        Answer::UnreadTrimmed { .. } => false,
        Answer::UnreadNoMemory { .. } => false,
        Answer::Trimmed { .. } => false,
        Answer::NotHome { .. } => false,
        Answer::NoMemory => false,
    }
}

// Whether the one command has played what the other made.
fn has_read(script: &Script, report: &Report, maker: &Command, reader: &Command) -> bool
    ensures { result ≡ has_read script.now report.now maker.now reader.now }
{
    let Some(made) = answer_to(report, maker) else {
        return false;
    };
    let Some(answer) = answer_to(report, reader) else {
        return false;
    };
    plays_made(
        report,
        answer,
        home_of(script, maker.client),
        maker.client,
        made,
    )
}

// The place of the client's first command that has played what the other made.
fn read_place(
    script: &Script,
    report: &Report,
    commands: &[Command],
    maker: &Command,
    client: usize,
) -> Option<usize>
    ensures { result ≡ read_place script.now report.now commands.now maker.now client }
{
    commands.iter().position(|reader| {
        reader.client as usize == client && has_read(script, report, maker, reader)
    })
}

// The side of a box from which an arrow leaves it to the box of another lane.
fn side_of(lane: usize, other: usize) -> u64
    ensures { result ≡ side_of lane other }
{
    if lane < other {
        top_of(lane) + 48
    } else {
        top_of(lane) + 12
    }
}

// An arrow from a command to one of another lane.
fn put_arrow<O: Output>(from: usize, maker: usize, to: usize, reader: usize, out: &mut O)
    ensures { Adds (O.state out.old) (O.state out.new) (arrow_label from maker to reader) }
{
    put_all(
        &[
            Piece::Mark("<path class='arrow' d='M"),
            Piece::Number(x_of(from) + 110),
            Piece::Mark(" "),
            Piece::Number(side_of(maker, reader)),
            Piece::Mark("L"),
            Piece::Number(x_of(to) + 26),
            Piece::Mark(" "),
            Piece::Number(side_of(reader, maker)),
            Piece::Mark("'/>\n"),
        ],
        out,
    );
}

// The arrow to a client's command where there is one, and the client is another.
fn put_arrow_to<O: Output>(from: usize, maker: usize, to: Option<usize>, reader: usize, out: &mut O)
    ensures { Adds (O.state out.old) (O.state out.new) (arrow_to from maker to reader) }
{
    match to {
        Some(to) if reader != maker => put_arrow(from, maker, to, reader, out),
        Some(_) => put_all(&[], out),
        None => put_all(&[], out),
    }
}

// The arrow from a command to the first read of a client.
fn put_reader<O: Output>(
    script: &Script,
    report: &Report,
    commands: &[Command],
    from: usize,
    maker: &Command,
    client: usize,
    out: &mut O,
)
    ensures { Adds (O.state out.old) (O.state out.new)
        (reader_arrow script.now report.now commands.now from maker.now client) }
{
    let to = read_place(script, report, commands, maker, client);
    put_arrow_to(from, maker.client as usize, to, client, out);
}

// The arrows from a command to the first read of each of these clients.
fn put_maker_arrows<O: Output>(
    script: &Script,
    report: &Report,
    commands: &[Command],
    from: usize,
    maker: &Command,
    clients: &[ClientReport],
    out: &mut O,
)
    ensures { Adds (O.state out.old) (O.state out.new)
        (flat_map (maker_arrow script.now report.now commands.now from maker.now) (enumerate_from 0 clients.now)) }
{
    for (client, _) in clients.iter().enumerate() {
        put_reader(script, report, commands, from, maker, client, out);
    }
}

/// The arrows from each of the commands.
pub fn put_arrows<O: Output>(script: &Script, report: &Report, commands: &[Command], out: &mut O)
    ensures { Adds (O.state out.old) (O.state out.new) (arrows script.now report.now commands.now) }
{
    for (from, maker) in commands.iter().enumerate() {
        put_maker_arrows(
            script,
            report,
            commands,
            from,
            maker,
            report.clients.as_slice(),
            out,
        );
    }
}
