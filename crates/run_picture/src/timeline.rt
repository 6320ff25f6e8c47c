// The timeline of a run: a lane for each client, and its commands in the order of the file.
ghost use Rattle.std.specs.Prelude.{◌≡◌, take};
ghost use Rattle.std.specs.List.{flat_map, enumerate_from};
ghost use Rattle.report_text.specs.Output.{Adds};
ghost use Rattle.run_picture.specs.Timeline.{shown_of, line_text, client_text, form_of, heading_y, box_start, said_text, note_start, told_text, point_text, end_text, more_text, head_text, tail_text, parts_text, timeline_text};

use crate::answers::{home_of, put_answer};
use crate::arrows::{answer_to, put_arrows};
use crate::labels::{name_among, put_content, put_heading};
use crate::look::{TIMELINE_LEGEND, put_start};
use crate::pieces::{Piece, put_all};
use crate::places::{top_of, x_of};
use report_text::{ClientReport, Output, Report};
use script_text::{Command, Content, NodeOf, Script, Use, What};

/// How many commands are shown at most.
pub const COMMANDS_SHOWN: usize = 40;

// The commands that are shown: the first ones.
fn shown_of(script: &Script) -> &[Command]
    ensures { result.now ≡ shown_of script.now }
{
    let commands = script.commands.as_slice();
    &commands[..commands.len().min(COMMANDS_SHOWN)]
}

// The number of a command's line, above the lanes.
fn put_line<O: Output>(place: usize, command: &Command, out: &mut O)
    ensures { Adds (O.state out.old) (O.state out.new) (line_text (place, command.now)) }
{
    put_all(
        &[
            Piece::Mark("<text class='axis' x='"),
            Piece::Number(x_of(place) + 8),
            Piece::Mark("' y='70'>line "),
            Piece::Number(command.line as u64),
            Piece::Mark("</text>\n"),
        ],
        out,
    );
}

// The numbers of the lines.
fn put_lines<O: Output>(commands: &[Command], out: &mut O)
    ensures { Adds (O.state out.old) (O.state out.new) (flat_map line_text (enumerate_from 0 commands.now)) }
{
    for (place, command) in commands.iter().enumerate() {
        put_line(place, command, out);
    }
}

// The lane of a client.
fn put_client<'x, O: Output>(script: &'x Script, lane: usize, client: &'x ClientReport, out: &mut O)
    ensures { Adds (O.state out.old) (O.state out.new) (client_text script.now (lane, client.now)) }
{
    let region = home_of(script, lane.min(255) as u8);
    put_all(
        &[
            Piece::Mark("<g transform='translate(0,"),
            Piece::Number(top_of(lane)),
            Piece::Mark(")' class='lane r"),
            Piece::Number(region as u64),
            Piece::Mark(
                "'><use href='#l'/><path class='time' d='M130 30H9999'/><text x='18' y='28'>",
            ),
            Piece::Text(client.name.as_bytes()),
            Piece::Mark("</text><text x='18' y='46'>in "),
            Piece::Text(name_among(&script.regions, region)),
            Piece::Mark("</text></g>\n"),
        ],
        out,
    );
}

// The lanes.
fn put_clients<O: Output>(script: &Script, clients: &[ClientReport], out: &mut O)
    ensures { Adds (O.state out.old) (O.state out.new)
        (flat_map (client_text script.now) (enumerate_from 0 clients.now)) }
{
    for (lane, client) in clients.iter().enumerate() {
        put_client(script, lane, client, out);
    }
}

// The form of a command's box: round where it only asks, dashed where it stops halfway, and filled where it adds a node.
fn form_of(what: &What) -> &'static str
    ensures { result.now ≡ form_of what.now }
{
    match (what.node_of(), what.use_of()) {
        (NodeOf::NoNode, _) => "asks'><use href='#o'/>",
        (_, Use::OfLog { stops: true }) => "stops'><use href='#b'/>",
        (_, _) => "adds'><use href='#b'/>",
    }
}

// How low its heading stands: higher where content is below.
fn heading_y(what: &What) -> u64
    ensures { result ≡ heading_y what.now }
{
    match what.content() {
        Content::Nothing => 22,
        _ => 15,
    }
}

// The beginning of a command's box.
fn put_box_start<O: Output>(script: &Script, place: usize, command: &Command, out: &mut O)
    ensures { Adds (O.state out.old) (O.state out.new) (box_start script.now place command.now) }
{
    put_all(
        &[
            Piece::Mark("<svg x='"),
            Piece::Number(x_of(place)),
            Piece::Mark("' y='"),
            Piece::Number(top_of(command.client as usize) + 12),
            Piece::Mark("' width='130' height='36' class='box r"),
            Piece::Number(home_of(script, command.client) as u64),
            Piece::Mark(" "),
            Piece::Mark(form_of(&command.what)),
            Piece::Mark("<svg width='123' height='36'><text x='12' y='"),
            Piece::Number(heading_y(&command.what)),
            Piece::Mark("'>"),
        ],
        out,
    );
}

// What a command says.
fn put_said<O: Output>(script: &Script, what: &What, out: &mut O)
    ensures { Adds (O.state out.old) (O.state out.new) (said_text script.now what.now) }
{
    put_heading(script, what, out);
    put_all(&[Piece::Mark("</text><text x='12' y='29'>")], out);
    put_content(what, out);
}

// The beginning of an answer, below the box.
fn put_note_start<O: Output>(place: usize, command: &Command, out: &mut O)
    ensures { Adds (O.state out.old) (O.state out.new) (note_start place command.now) }
{
    put_all(
        &[
            Piece::Mark("</text></svg></svg><svg x='"),
            Piece::Number(x_of(place)),
            Piece::Mark("' y='"),
            Piece::Number(top_of(command.client as usize) + 50),
            Piece::Mark("' width='148' height='18'><text class='note' x='12' y='12'>"),
        ],
        out,
    );
}

// What it was answered; nothing where there is no answer.
fn put_told<O: Output>(script: &Script, report: &Report, command: &Command, out: &mut O)
    ensures { Adds (O.state out.old) (O.state out.new) (told_text script.now report.now command.now) }
{
    match answer_to(report, command) {
        Some(answer) => put_answer(script, report, home_of(script, command.client), answer, out),
        None => put_all(&[], out),
    }
}

// The box of a command, and below it the answer.
fn put_point<O: Output>(
    script: &Script,
    report: &Report,
    place: usize,
    command: &Command,
    out: &mut O,
)
    ensures { Adds (O.state out.old) (O.state out.new) (point_text script.now report.now (place, command.now)) }
{
    put_box_start(script, place, command, out);
    put_said(script, &command.what, out);
    put_note_start(place, command, out);
    put_told(script, report, command, out);
    put_all(&[Piece::Mark("</text></svg>\n")], out);
}

// The boxes of the commands.
fn put_points<O: Output>(script: &Script, report: &Report, commands: &[Command], out: &mut O)
    ensures { Adds (O.state out.old) (O.state out.new)
        (flat_map (point_text script.now report.now) (enumerate_from 0 commands.now)) }
{
    for (place, command) in commands.iter().enumerate() {
        put_point(script, report, place, command, out);
    }
}

// How many commands are left out, below the lanes, and the end.
fn put_end<O: Output>(lanes: usize, more: usize, out: &mut O)
    ensures { Adds (O.state out.old) (O.state out.new) (end_text lanes more) }
{
    put_all(
        &[
            Piece::Mark("<text x='18' y='"),
            Piece::Number(top_of(lanes) + 8),
            Piece::Mark("'>"),
            Piece::Number(more as u64),
            Piece::Mark(" more commands are not shown</text>\n</svg>\n"),
        ],
        out,
    );
}

// The same where any are left out.
fn put_more<O: Output>(lanes: usize, more: usize, out: &mut O)
    ensures { Adds (O.state out.old) (O.state out.new) (more_text lanes more) }
{
    if more == 0 {
        put_all(&[Piece::Mark("</svg>\n")], out);
    } else {
        put_end(lanes, more, out);
    }
}

// The beginning, for these commands and clients.
fn put_head<O: Output>(commands: &[Command], clients: &[ClientReport], out: &mut O)
    ensures { Adds (O.state out.old) (O.state out.new) (head_text commands.now clients.now) }
{
    let width = x_of(commands.len()).max(640);
    put_start(width, top_of(clients.len()) + 16, TIMELINE_LEGEND, out);
}

// How many commands of the script are left out where these are shown, and the end.
fn put_tail<O: Output>(script: &Script, commands: &[Command], clients: &[ClientReport], out: &mut O)
    ensures { Adds (O.state out.old) (O.state out.new) (tail_text script.now commands.now clients.now) }
{
    let more = script.commands.len().saturating_sub(commands.len());
    put_more(clients.len(), more, out);
}

// The text of a timeline with these commands and clients.
fn put_parts<O: Output>(
    script: &Script,
    report: &Report,
    commands: &[Command],
    clients: &[ClientReport],
    out: &mut O,
)
    ensures { Adds (O.state out.old) (O.state out.new)
        (parts_text script.now report.now commands.now clients.now) }
{
    put_head(commands, clients, out);
    put_lines(commands, out);
    put_clients(script, clients, out);
    put_arrows(script, report, commands, out);
    put_points(script, report, commands, out);
    put_tail(script, commands, clients, out);
}

/// The text of the timeline of a script's run, by its report.
pub fn put_timeline<O: Output>(script: &Script, report: &Report, out: &mut O)
    ensures { Adds (O.state out.old) (O.state out.new) (timeline_text script.now report.now) }
{
    put_parts(
        script,
        report,
        shown_of(script),
        report.clients.as_slice(),
        out,
    );
}
