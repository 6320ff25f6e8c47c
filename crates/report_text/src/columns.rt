// The lines of a column: its name, its journal, and what it is in the end.
ghost use Rattle.std.specs.Prelude.{ℕ};
ghost use Rattle.std.specs.List.{flat_map, enumerate_from};
ghost use Rattle.report_text.specs.Output.{Adds};
ghost use Rattle.report_text.specs.Columns.{entering_text, head_text, event_text, journal_line, queue_key_text, closing_line, column_lines};

use crate::names::NameIndex;
use crate::output::Output;
use crate::printed::{Printed, print_listed, print_spaced};
use crate::report::{ColumnReport, QueueKey};
use col_core::{Entry, Event};
use log_node::{Counts, Head, Id};

impl Printed for Head {
    ghost text = { head_text };

    fn print<O: Output>(&self, names: &NameIndex<'_>, out: &mut O) {
        self.key.print(names, out);
        out.put(b"/");
        self.needs.print(names, out);
    }
}

impl Printed for QueueKey {
    ghost text = { queue_key_text };

    fn print<O: Output>(&self, names: &NameIndex<'_>, out: &mut O) {
        self.key.print(names, out);
        if !self.settled {
            out.put(b"?");
        }
    }
}

/// An id that enters the column, with the floor and the wants of its append.
fn print_entering<O: Output>(
    id: &Id,
    floor: u64,
    wants: &Counts,
    names: &NameIndex<'_>,
    out: &mut O,
)
    ensures { Adds (O.state out.old) (O.state out.new) (entering_text names.now id.now floor wants.now) }
{
    id.print(names, out);
    out.put(b" floor ");
    out.put_number(floor);
    out.put(b" wants ");
    wants.print(names, out);
}

/// An event, and the stamp that it gave.
impl Printed for Entry {
    ghost text = { λ report entry. event_text report entry.event entry.stamp };

    fn print<O: Output>(&self, names: &NameIndex<'_>, out: &mut O) {
        match &self.event {
            Event::Single { id, floor, wants } => {
                out.put(b"single ");
                print_entering(id, *floor, wants, names, out);
                out.put(b" stamp ");
                out.put_number(self.stamp);
            }
            Event::Propose { id, floor, wants } => {
                out.put(b"propose ");
                print_entering(id, *floor, wants, names, out);
                out.put(b" stamp ");
                out.put_number(self.stamp);
            }
            Event::Settle { id, outcome } => {
                out.put(b"settle ");
                id.print(names, out);
                out.put(b" ");
                outcome.print(names, out);
            }
            Event::Raise { to } => {
                out.put(b"raise ");
                out.put_number(*to);
            }
            Event::Give { region, from } => {
                out.put(b"give ");
                names.put_region(*region, out);
                out.put(b" ");
                out.put_number(*from);
            }
            Event::Carry {
                region,
                start,
                heads,
            } => {
                out.put(b"carry ");
                names.put_region(*region, out);
                out.put(b" ");
                out.put_number(*start);
                print_spaced(heads, names, out);
            }
            Event::Trim { counts } => {
                out.put(b"trim ");
                counts.print(names, out);
            }
        }
    }
}

/// The line of an entry at a place.
fn print_entry<O: Output>(place: u64, entry: &Entry, names: &NameIndex<'_>, out: &mut O)
    ensures { Adds (O.state out.old) (O.state out.new) (journal_line names.now (place, entry.now)) }
{
    out.put_number(place);
    out.put(b" ");
    names.put_client(entry.by, out);
    out.put(b" ");
    entry.print(names, out);
    out.put(b"\n");
}

/// A journal, its places counted from 0.
fn print_journal<O: Output>(journal: &[Entry], names: &NameIndex<'_>, out: &mut O)
    ensures { Adds (O.state out.old) (O.state out.new) (flat_map (journal_line names.now) (enumerate_from 0 journal.now)) }
{
    for (place, entry) in journal.iter().enumerate() {
        print_entry(place as u64, entry, names, out);
    }
}

/// What a column is in the end.
fn print_closing<O: Output>(column: &ColumnReport, names: &NameIndex<'_>, out: &mut O)
    ensures { Adds (O.state out.old) (O.state out.new) (closing_line names.now column.now) }
{
    out.put(b"= clock ");
    out.put_number(column.clock);
    out.put(b" line ");
    print_listed(&column.line, names, out);
    out.put(b" queue ");
    print_listed(&column.queue, names, out);
    out.put(b" cut ");
    column.cut.print(names, out);
    out.put(b" base ");
    column.base.print(names, out);
    out.put(b"\n");
}

impl Printed for ColumnReport {
    ghost text = { column_lines };

    fn print<O: Output>(&self, names: &NameIndex<'_>, out: &mut O) {
        out.put(b"column ");
        self.region_name.print(names, out);
        out.put(b" ");
        self.colour_name.print(names, out);
        out.put(b"\n");
        print_journal(self.journal.as_slice(), names, out);
        print_closing(self, names, out);
    }
}
