// Where a trim leaves the base.
ghost use Rattle.std.specs.Prelude.{◌≡◌, ◌<◌, ◌≤◌, ◌==◌, min, if◌then◌else◌};
ghost use Rattle.log_node.specs.Vectors.{at, vector};
ghost use Rattle.column.specs.Inside.{least_noted, trimmed_base};

use log_node::Counts;

// The lesser of a bound and the number of a region, where that is another one.
fn least_with(bound: u64, notes: Counts, own: u8, region: u8) -> u64
    requires { region < 4 }
    ensures { result ≡ (if region == own then bound else min bound (at notes region)) }
{
    if region == own {
        bound
    } else {
        bound.min(notes.of_region(region))
    }
}

// The least of a bound and the numbers of every other region.
fn least_of(notes: Counts, own: u8, regions: u8, bound: u64) -> u64
    requires { regions ≤ 4 }
    ensures { result ≡ least_noted notes own regions bound }
{
    let mut least = bound;
    for region in 0..regions {
        least = least_with(least, notes, own, region);
    }
    least
}

/// What a base was and what is asked of it: which number each region has asked past, what may be played, and the counts
/// of a trim.
#[derive(Clone, Copy)]
pub(crate) struct Trimming {
    pub base: Counts,
    pub notes: Counts,
    pub cut: Counts,
    pub counts: Counts,
    pub own: u8,
    pub regions: u8,
}

impl Trimming {
    // A region's base after the trim.
    fn number(self, region: u8) -> u64
        requires region { region < 4 }
        requires regions { self.regions ≤ 4 }
        ensures { result ≡ trimmed_base self.base self.notes self.cut self.counts self.own self.regions region }
    {
        let bound = self
            .counts
            .of_region(region)
            .min(self.cut.of_region(region));
        let last = if region == self.own {
            least_of(self.notes, self.own, self.regions, bound)
        } else {
            bound
        };
        self.base.of_region(region).max(last)
    }

    /// The base after the trim.
    pub(crate) fn base_after(self) -> Counts
        requires { self.regions ≤ 4 }
        ensures { result ≡ vector (trimmed_base self.base self.notes self.cut self.counts self.own self.regions) }
    {
        Counts([
            self.number(0),
            self.number(1),
            self.number(2),
            self.number(3),
        ])
    }
}
