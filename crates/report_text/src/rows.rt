// The line of a begun row.
ghost use Rattle.report_text.specs.Output.{Adds};
ghost use Rattle.report_text.specs.Rows.{why_text, mark_text, colour_mark_text, outcome_text, row_line};

use crate::names::NameIndex;
use crate::output::Output;
use crate::printed::{Printed, print_spaced};
use crate::report::RowReport;
use log_node::{ColourMark, Mark, Outcome, Why};

fn print_why<O: Output>(why: Why, out: &mut O)
    ensures { Adds (O.state out.old) (O.state out.new) (why_text why) }
{
    match why {
        Why::Memory => out.put(b"memory"),
        Why::StampEnd => out.put(b"stampend"),
    }
}

fn print_mark<O: Output>(mark: Mark, out: &mut O)
    ensures { Adds (O.state out.old) (O.state out.new) (mark_text mark) }
{
    match mark {
        Mark::None => out.put(b"-"),
        Mark::Number(stamp) => out.put_number(stamp),
        Mark::Fenced(why) => print_why(why, out),
    }
}

impl Printed for ColourMark {
    ghost text = { colour_mark_text };

    fn print<O: Output>(&self, names: &NameIndex<'_>, out: &mut O) {
        names.put_colour(self.colour, out);
        out.put(b"=");
        print_mark(self.mark, out);
    }
}

impl Printed for Outcome {
    ghost text = { λ _ outcome. outcome_text outcome };

    fn print<O: Output>(&self, _names: &NameIndex<'_>, out: &mut O) {
        match self {
            Outcome::Open => out.put(b"open"),
            Outcome::Final(stamp) => {
                out.put(b"final ");
                out.put_number(*stamp);
            }
            Outcome::Gone(why) => {
                out.put(b"gone ");
                print_why(*why, out);
            }
        }
    }
}

impl Printed for RowReport {
    ghost text = { row_line };

    fn print<O: Output>(&self, names: &NameIndex<'_>, out: &mut O) {
        out.put(b"row ");
        names.put_region(self.region, out);
        out.put(b" ");
        names.put_client(self.row.client, out);
        out.put(b".");
        out.put_number(self.row.number as u64);
        out.put(b" ");
        self.id.print(names, out);
        print_spaced(&self.marks, names, out);
        out.put(b" ");
        self.last.print(names, out);
        out.put(b"\n");
    }
}
