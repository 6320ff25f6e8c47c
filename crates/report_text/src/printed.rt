// What has a text in a report, and lists of it.
ghost use Rattle.std.specs.Prelude.{ℕ, List, ◌∷◌};
ghost use Rattle.std.specs.List.{flat_map};
ghost use Rattle.report_text.specs.declared.report.Report.{Report};
ghost use Rattle.report_text.specs.Output.{Adds};
ghost use Rattle.report_text.specs.Pieces.{spaced, listed};

use crate::names::NameIndex;
use crate::output::Output;
use log_node::ListOf;

/// Has a text in a report.
pub trait Printed {
    ghost text: { Report → Self → List ℕ };

    fn print<O: Output>(&self, names: &NameIndex<'_>, out: &mut O)
        ensures { Adds (O.state out.old) (O.state out.new) (text names.now self.now) };
}

/// One after another.
pub fn print_each<T: Printed, O: Output>(items: &ListOf<T>, names: &NameIndex<'_>, out: &mut O)
    ensures { Adds (O.state out.old) (O.state out.new) (flat_map (T.text names.now) items.now) }
{
    for item in items.as_slice() {
        item.print(names, out);
    }
}

/// Each with a space before it.
pub fn print_spaced<T: Printed, O: Output>(items: &ListOf<T>, names: &NameIndex<'_>, out: &mut O)
    ensures { Adds (O.state out.old) (O.state out.new) (spaced (T.text names.now) items.now) }
{
    for item in items.as_slice() {
        out.put(b" ");
        item.print(names, out);
    }
}

// Each with a comma before it.
fn print_further<T: Printed, O: Output>(items: &[T], names: &NameIndex<'_>, out: &mut O)
    ensures { Adds (O.state out.old) (O.state out.new) (flat_map (λ x. 44 ∷ T.text names.now x) items.now) }
{
    for item in items {
        out.put(b",");
        item.print(names, out);
    }
}

/// With a comma between two; a dash where there is none.
pub fn print_listed<T: Printed, O: Output>(items: &ListOf<T>, names: &NameIndex<'_>, out: &mut O)
    ensures { Adds (O.state out.old) (O.state out.new) (listed (T.text names.now) items.now) }
{
    let Some((first, others)) = items.as_slice().split_first() else {
        out.put(b"-");
        return;
    };
    first.print(names, out);
    print_further(others, names, out);
}
