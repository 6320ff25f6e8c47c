// What a command was answered.
ghost use Rattle.report_text.specs.Output.{Adds};
ghost use Rattle.report_text.specs.Replies.{row_text, value_text, values_text, key_answer_text, verdict_text, change_text, listed_or_dash, look_text, names_text, read_text, decided_words, ended_text, answer_text};

use crate::names::NameIndex;
use crate::output::Output;
use crate::printed::{Printed, print_listed, print_spaced};
use crate::report::{Answer, Ended, KeyAnswer, PointPiece, RaisePiece, SyncPiece};
use log_node::{ListOf, Names, Text};
use object_form::TreeWhy;

impl Printed for KeyAnswer {
    ghost text = { λ _ answer. key_answer_text answer };

    fn print<O: Output>(&self, names: &NameIndex<'_>, out: &mut O) {
        self.key.print(names, out);
        out.put(b"=");
        match &self.value {
            Some(value) => value.print(names, out),
            None => out.put(b"-"),
        }
    }
}

/// The number of the row that an append began, where it began one.
fn print_row<O: Output>(row: Option<u32>, out: &mut O)
    ensures { Adds (O.state out.old) (O.state out.new) (row_text row) }
{
    if let Some(number) = row {
        out.put(b" row ");
        out.put_number(number as u64);
    }
}

/// `ok` and the value, or `none`.
fn print_value<O: Output>(value: &Option<Text>, names: &NameIndex<'_>, out: &mut O)
    ensures { Adds (O.state out.old) (O.state out.new) (value_text value.now) }
{
    match value {
        Some(value) => {
            out.put(b"ok ");
            value.print(names, out);
        }
        None => out.put(b"none"),
    }
}

/// `ok` and the values with commas, or `none`.
fn print_values<O: Output>(values: &Names, names: &NameIndex<'_>, out: &mut O)
    ensures { Adds (O.state out.old) (O.state out.new) (values_text values.now) }
{
    if values.is_empty() {
        out.put(b"none");
        return;
    }
    out.put(b"ok ");
    print_listed(values, names, out);
}

/// `committed`, or `conflict` and the key that differs, and the stamp.
fn print_verdict<O: Output>(conflict: &Option<Text>, stamp: u64, names: &NameIndex<'_>, out: &mut O)
    ensures { Adds (O.state out.old) (O.state out.new) (verdict_text conflict.now stamp) }
{
    match conflict {
        None => out.put(b"committed "),
        Some(key) => {
            out.put(b"conflict ");
            key.print(names, out);
            out.put(b" ");
        }
    }
    out.put_number(stamp);
}

/// `done`, or `failed` and the reason, and the stamp.
fn print_change<O: Output>(failed: Option<TreeWhy>, stamp: u64, out: &mut O)
    ensures { Adds (O.state out.old) (O.state out.new) (change_text failed stamp) }
{
    match failed {
        None => out.put(b"done "),
        Some(why) => {
            out.put(b"failed ");
            out.put(why.as_str().as_bytes());
            out.put(b" ");
        }
    }
    out.put_number(stamp);
}

/// `ok`, the stamp, and the names with commas, or a dash where there are none; or `missing` and the stamp.
fn print_names<O: Output>(found: &Option<Names>, stamp: u64, names: &NameIndex<'_>, out: &mut O)
    ensures { Adds (O.state out.old) (O.state out.new) (names_text found.now stamp) }
{
    match found {
        None => {
            out.put(b"missing ");
            out.put_number(stamp);
        }
        Some(found) => {
            out.put(b"ok ");
            out.put_number(stamp);
            out.put(b" ");
            print_or_dash(found, names, out);
        }
    }
}

/// Names with commas, or a dash where there are none.
fn print_or_dash<O: Output>(found: &Names, names: &NameIndex<'_>, out: &mut O)
    ensures { Adds (O.state out.old) (O.state out.new) (listed_or_dash found.now) }
{
    if found.is_empty() {
        out.put(b"-");
    } else {
        print_listed(found, names, out);
    }
}

/// The raises and the syncs of a stamped read.
fn print_read<O: Output>(
    raises: &ListOf<RaisePiece>,
    syncs: &ListOf<SyncPiece>,
    names: &NameIndex<'_>,
    out: &mut O,
)
    ensures { Adds (O.state out.old) (O.state out.new) (read_text names.now raises.now syncs.now) }
{
    print_spaced(raises, names, out);
    print_spaced(syncs, names, out);
}

/// `committed` or `conflict`, and the stamp of the transaction that is decided.
fn print_decision<O: Output>(commits: bool, stamp: u64, out: &mut O)
    ensures { Adds (O.state out.old) (O.state out.new) (decided_words commits stamp) }
{
    if commits {
        out.put(b"committed ");
    } else {
        out.put(b"conflict ");
    }
    out.put_number(stamp);
}

impl Printed for Ended {
    ghost text = { ended_text };

    fn print<O: Output>(&self, names: &NameIndex<'_>, out: &mut O) {
        match self {
            Ended::Stood { stamp, point } => {
                out.put(b"ok ");
                out.put_number(*stamp);
                out.put(b" ");
                point.print(names, out);
            }
            Ended::StampEnd { colour } => {
                out.put(b"stampend ");
                names.put_colour(*colour, out);
            }
            Ended::NoMemory => out.put(b"nomemory"),
        }
    }
}

/// A colour, and after how many events it was looked at.
fn print_look<O: Output>(colour: u8, events: u64, names: &NameIndex<'_>, out: &mut O)
    ensures { Adds (O.state out.old) (O.state out.new) (look_text names.now colour events) }
{
    names.put_colour(colour, out);
    out.put(b"?");
    out.put_number(events);
}

impl Printed for Answer {
    ghost text = { answer_text };

    fn print<O: Output>(&self, names: &NameIndex<'_>, out: &mut O) {
        match self {
            Answer::Stood { stamp, row, points } => {
                out.put(b"ok ");
                out.put_number(*stamp);
                print_row(*row, out);
                points.print(names, out);
            }
            Answer::StampEnd { colour } => {
                out.put(b"stampend ");
                names.put_colour(*colour, out);
            }
            Answer::Full { used } => {
                out.put(b"full ");
                out.put_number(*used as u64);
            }
            Answer::Stopped { steps } => {
                out.put(b"stopped ");
                out.put_number(*steps as u64);
            }
            Answer::Synced { sync, plays } => {
                out.put(b"ok ");
                sync.print(names, out);
                out.put(b" plays ");
                out.put_number(*plays);
            }
            Answer::Scanned {
                stamp,
                nodes,
                raises,
                syncs,
            } => {
                out.put(b"ok ");
                out.put_number(*stamp);
                out.put(b" nodes ");
                out.put_number(*nodes);
                print_read(raises, syncs, names, out);
            }
            Answer::Pulled { nodes, give, carry } => {
                out.put(b"ok ");
                out.put_number(*nodes);
                out.put(b" give ");
                give.print(names, out);
                out.put(b" carry ");
                carry.print(names, out);
            }
            Answer::SameRegion => out.put(b"sameregion"),
            Answer::Based { at, base } => {
                out.put(b"ok ");
                at.print(names, out);
                out.put(b" base ");
                base.print(names, out);
            }
            Answer::Got { value, sync } => {
                print_value(value, names, out);
                out.put(b" ");
                sync.print(names, out);
            }
            Answer::GotMany { values, sync } => {
                print_values(values, names, out);
                out.put(b" ");
                sync.print(names, out);
            }
            Answer::GotKeys {
                stamp,
                keys,
                raises,
                syncs,
            } => {
                out.put(b"ok ");
                out.put_number(*stamp);
                print_spaced(keys, names, out);
                print_read(raises, syncs, names, out);
            }
            Answer::Ruled {
                conflict,
                stamp,
                row,
                points,
                read_stamp,
                raises,
                syncs,
            } => {
                print_verdict(conflict, *stamp, names, out);
                print_row(*row, out);
                print_spaced(points, names, out);
                out.put(b" at ");
                out.put_number(*read_stamp);
                print_read(raises, syncs, names, out);
            }
            Answer::Changed {
                failed,
                stamp,
                row,
                points,
                read_stamp,
                raises,
                syncs,
            } => {
                print_change(*failed, *stamp, out);
                print_row(*row, out);
                print_spaced(points, names, out);
                out.put(b" at ");
                out.put_number(*read_stamp);
                print_read(raises, syncs, names, out);
            }
            Answer::Listed {
                names: found,
                stamp,
                raises,
                syncs,
            } => {
                print_names(found, *stamp, names, out);
                print_read(raises, syncs, names, out);
            }
            Answer::Undecided { stamp, sync } => {
                out.put(b"undecided ");
                out.put_number(*stamp);
                out.put(b" ");
                sync.print(names, out);
            }
            Answer::Decided {
                commits,
                stamp,
                sync,
                read_stamp,
                raises,
                syncs,
                ended,
            } => {
                print_decision(*commits, *stamp, out);
                out.put(b" ");
                sync.print(names, out);
                out.put(b" at ");
                out.put_number(*read_stamp);
                print_read(raises, syncs, names, out);
                out.put(b" ");
                ended.print(names, out);
            }
            Answer::Moved {
                length,
                waiting,
                colour,
                events,
            } => {
                out.put(b"moved ");
                out.put_number(*length);
                out.put(b" ");
                out.put_number(*waiting);
                out.put(b" ");
                print_look(*colour, *events, names, out);
            }
            Answer::NoTx => out.put(b"notx"),
            Answer::Took { value, point, sync } => {
                print_value(value, names, out);
                out.put(b" ");
                point.print(names, out);
                out.put(b" ");
                sync.print(names, out);
            }
            Answer::UnreadTrimmed {
                stamp,
                colour,
                base,
            } => {
                out.put(b"unread ");
                out.put_number(*stamp);
                out.put(b" trimmed ");
                names.put_colour(*colour, out);
                out.put(b" ");
                base.print(names, out);
            }
            Answer::UnreadNoMemory { stamp } => {
                out.put(b"unread ");
                out.put_number(*stamp);
                out.put(b" nomemory");
            }
            Answer::Trimmed { colour, base } => {
                out.put(b"trimmed ");
                names.put_colour(*colour, out);
                out.put(b" ");
                base.print(names, out);
            }
            Answer::NotHome { home } => {
                out.put(b"nothome ");
                names.put_region(*home, out);
            }
            Answer::NoMemory => out.put(b"nomemory"),
        }
    }
}
