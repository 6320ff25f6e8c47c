// The names in a report, found by number at once.
ghost use Rattle.std.specs.Prelude.{◌≡◌};
ghost use Rattle.report_text.specs.Output.{Adds};
ghost use Rattle.report_text.specs.Names.{region_name, colour_name, client_name, region_count};

use crate::output::Output;
use crate::report::Report;
use std::marker::Model;

/// How many numbers a byte has.
const NUMBERS: usize = 256;

/// A report, with the place of the first column of each region and of each colour, and how many regions there are.
#[derive(Drop)]
pub struct NameIndex<'r> {
    report: &'r Report,
    region_at: [usize; NUMBERS],
    colour_at: [usize; NUMBERS],
    regions: usize,
}

impl<'r> Model for NameIndex<'r> {
    ghost use Rattle.report_text.specs.declared.report.Report.{Report};
    ghost use Rattle.report_text.specs.Index.{AreIndexed};

    ghost Value = { Report };

    ghost view = { λ n. n.report.now };

    ghost invariant = { λ n. AreIndexed n.report.now n.region_at n.colour_at n.regions };
}

impl<'r> NameIndex<'r> {
    /// Reads the columns once, from the last to the first.
    pub fn of(report: &'r Report) -> NameIndex<'r>
        ensures { result ≡ report.now }
    {
        let columns = report.columns.as_slice();
        let mut region_at = [columns.len(); NUMBERS];
        let mut colour_at = [columns.len(); NUMBERS];
        let mut regions = 0;
        let mut at = columns.len();
        while at > 0 {
            at -= 1;
            let column = &columns[at];
            region_at[column.region as usize] = at;
            colour_at[column.colour as usize] = at;
            if column.colour == 0 {
                regions += 1;
            }
        }
        NameIndex {
            report,
            region_at,
            colour_at,
            regions,
        }
    }

    fn region(&self, number: u8) -> &[u8]
        ensures { result.now ≡ region_name self.now number }
    {
        match self.report.columns.get(self.region_at[number as usize]) {
            Some(column) => column.region_name.as_bytes(),
            None => &[],
        }
    }

    fn colour(&self, number: u8) -> &[u8]
        ensures { result.now ≡ colour_name self.now number }
    {
        match self.report.columns.get(self.colour_at[number as usize]) {
            Some(column) => column.colour_name.as_bytes(),
            None => &[],
        }
    }

    fn client(&self, number: u8) -> &[u8]
        ensures { result.now ≡ client_name self.now number }
    {
        match self.report.clients.get(number as usize) {
            Some(client) => client.name.as_bytes(),
            None => &[],
        }
    }

    /// How many regions there are.
    pub fn regions(&self) -> usize
        ensures { result ≡ region_count self.now }
    {
        self.regions
    }

    /// Puts out the name of a region; nothing where the number names none.
    pub fn put_region<O: Output>(&self, number: u8, out: &mut O)
        ensures { Adds (O.state out.old) (O.state out.new) (region_name self.now number) }
    {
        out.put(self.region(number));
    }

    /// Puts out the name of a colour; nothing where the number names none.
    pub fn put_colour<O: Output>(&self, number: u8, out: &mut O)
        ensures { Adds (O.state out.old) (O.state out.new) (colour_name self.now number) }
    {
        out.put(self.colour(number));
    }

    /// Puts out the name of a client; nothing where the number names none.
    pub fn put_client<O: Output>(&self, number: u8, out: &mut O)
        ensures { Adds (O.state out.old) (O.state out.new) (client_name self.now number) }
    {
        out.put(self.client(number));
    }
}
