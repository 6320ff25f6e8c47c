// Which command made a node.
ghost use Rattle.std.specs.Prelude.{◌≡◌, Option};
ghost use Rattle.std.specs.List.{list_any, find};
ghost use Rattle.std.specs.Option.{option_copied};
ghost use Rattle.run_picture.specs.Makers.{is_at, ends_at, last_row, is_last_row, makes, replies_of, command_at};

use log_node::{Id, Key};
use report_text::{Answer, Ended, PointPiece, ReplyLine, Report, RowReport};
use script_text::Command;

// Whether an append stands at this position of this colour.
fn is_at(point: &PointPiece, colour: u8, position: u64) -> bool
    ensures { result ≡ is_at colour position point.now }
{
    point.colour == colour && point.position == position
}

// Whether an append stands, among others, at this position of this colour.
fn are_at(points: &[PointPiece], colour: u8, position: u64) -> bool
    ensures { result ≡ list_any (is_at colour position) points.now }
{
    points.iter().any(|point| is_at(point, colour, position))
}

// Whether the append of a decision stands at this position of this colour.
fn ends_at(ended: &Ended, colour: u8, position: u64) -> bool
    ensures { result ≡ ends_at colour position ended.now }
{
    match ended {
        Ended::Stood { point, .. } => is_at(point, colour, position),
        Ended::StampEnd { .. } => false,
        Ended::NoMemory => false,
    }
}

/// The id of the last append to several colours that the client began.
pub fn last_row(rows: &[RowReport], client: u8) -> Option<Id>
    ensures { result ≡ last_row client rows.now }
{
    let mut last = None;
    for row in rows {
        if row.id.client == client {
            last = Some(row.id);
        }
    }
    last
}

// Whether this is the id of the last append to several colours that its client began.
fn is_last_row(report: &Report, id: Id) -> bool
    ensures { result ≡ is_last_row report.now id }
{
    match last_row(report.rows.as_slice(), id.client) {
        Some(other) => other == id,
        None => false,
    }
}

/// Whether the command of a client of whom the node is was answered so, and made the node, which stands at this position
/// of this colour.
pub fn makes(report: &Report, colour: u8, position: u64, key: Key, answer: &Answer) -> bool
    ensures { result ≡ makes report.now colour position key answer.now }
{
    match answer {
        Answer::Stood { points, .. } => are_at(points.as_slice(), colour, position),
        Answer::Ruled { points, .. } => are_at(points.as_slice(), colour, position),
        Answer::Changed { points, .. } => are_at(points.as_slice(), colour, position),
        Answer::Took { point, .. } => is_at(point, colour, position),
        Answer::Undecided { .. } => false,
        Answer::Decided { ended, .. } => ends_at(ended, colour, position),
        Answer::Listed { .. } => false,
        Answer::Moved { .. } => false,
        Answer::Stopped { steps } => *steps > 0 && is_last_row(report, key.id),
        Answer::UnreadTrimmed { stamp, .. } => *stamp == key.stamp,
        Answer::UnreadNoMemory { stamp } => *stamp == key.stamp,
        Answer::StampEnd { .. } => false,
        Answer::Full { .. } => false,
        Answer::Synced { .. } => false,
        Answer::Scanned { .. } => false,
        Answer::Pulled { .. } => false,
        Answer::SameRegion => false,
        Answer::Based { .. } => false,
        Answer::Got { .. } => false,
        Answer::GotMany { .. } => false,
        Answer::GotKeys { .. } => false,
        Answer::NoTx => false,
        Answer::Trimmed { .. } => false,
        Answer::NotHome { .. } => false,
        Answer::NoMemory => false,
    }
}

/// The replies to a client; none where the number names no client.
pub fn replies_of(report: &Report, client: u8) -> &[ReplyLine]
    ensures { result.now ≡ replies_of report.now client }
{
    match report.clients.get(client as usize) {
        Some(client) => client.replies.as_slice(),
        None => &[],
    }
}

/// The reply to the command by which its client made the node at this position of this colour.
pub fn maker(report: &Report, colour: u8, position: u64, key: Key) -> Option<&ReplyLine>
    ensures { option_copied result
        ≡ find (λ reply. makes report.now colour position key reply.answer) (replies_of report.now key.id.client) }
{
    replies_of(report, key.id.client).iter().find(|reply| makes(
        report,
        colour,
        position,
        key,
        &reply.answer,
    ))
}

/// The command in a line of the script.
pub fn command_at(commands: &[Command], line: u32) -> Option<&Command>
    ensures { option_copied result ≡ command_at line commands.now }
{
    commands.iter().find(|command| command.line == line)
}
