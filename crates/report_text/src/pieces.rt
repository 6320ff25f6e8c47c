// The pieces of a report's lines: ids, keys, counts, and where an append, a raise or a sync was.
ghost use Rattle.std.specs.Prelude.{◌≡◌};
ghost use Rattle.log_node.specs.Vectors.{at};
ghost use Rattle.report_text.specs.Pieces.{id_text, key_text, counts_text, at_text, point_text, raise_text, sync_text};

use crate::names::NameIndex;
use crate::output::Output;
use crate::printed::Printed;
use crate::report::{PointPiece, RaisePiece, SyncPiece};
use log_node::{At, Counts, Id, Key, Text};

impl Printed for Text {
    ghost text = { λ _ bytes. bytes };

    fn print<O: Output>(&self, _names: &NameIndex<'_>, out: &mut O) {
        out.put(self.as_bytes());
    }
}

impl Printed for Id {
    ghost text = { id_text };

    fn print<O: Output>(&self, names: &NameIndex<'_>, out: &mut O) {
        names.put_client(self.client, out);
        out.put(b".");
        out.put_number(self.count);
    }
}

impl Printed for Key {
    ghost text = { key_text };

    fn print<O: Output>(&self, names: &NameIndex<'_>, out: &mut O) {
        self.id.print(names, out);
        out.put(b":");
        out.put_number(self.stamp);
    }
}

/// A vector's number for a region.
fn count_of(counts: &Counts, region: usize) -> u64
    ensures { result ≡ at counts.now region }
{
    match counts.0.get(region) {
        Some(count) => *count,
        None => 0,
    }
}

impl Printed for Counts {
    ghost text = { counts_text };

    #[tactic(auto, using(crate::proofs::Joins::join_more))]
    fn print<O: Output>(&self, names: &NameIndex<'_>, out: &mut O) {
        let regions = names.regions();
        if regions == 0 {
            return;
        }
        out.put_number(count_of(self, 0));
        for region in 1..regions {
            out.put(b",");
            out.put_number(count_of(self, region));
        }
    }
}

impl Printed for At {
    ghost text = { λ _ place. at_text place };

    fn print<O: Output>(&self, _names: &NameIndex<'_>, out: &mut O) {
        match self {
            At::Event(place) => {
                out.put(b"!");
                out.put_number(*place);
            }
            At::Look(events) => {
                out.put(b"?");
                out.put_number(*events);
            }
        }
    }
}

impl Printed for PointPiece {
    ghost text = { point_text };

    fn print<O: Output>(&self, names: &NameIndex<'_>, out: &mut O) {
        names.put_colour(self.colour, out);
        self.at.print(names, out);
        out.put(b"@");
        out.put_number(self.position);
    }
}

impl Printed for RaisePiece {
    ghost text = { raise_text };

    fn print<O: Output>(&self, names: &NameIndex<'_>, out: &mut O) {
        names.put_colour(self.colour, out);
        self.at.print(names, out);
    }
}

impl Printed for SyncPiece {
    ghost text = { sync_text };

    fn print<O: Output>(&self, names: &NameIndex<'_>, out: &mut O) {
        names.put_colour(self.colour, out);
        out.put(b"?");
        out.put_number(self.events);
        out.put(b"/");
        self.counts.print(names, out);
    }
}
