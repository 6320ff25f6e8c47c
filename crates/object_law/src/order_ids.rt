// Names of what is played in the order of some colours of a region, for tables.

/// Some colours of a region, in whatever order they are listed.
#[derive(Clone, Copy, Debug, PartialEq, Eq, PartialOrd, Ord)]
pub(crate) struct OrderId {
    region: u8,
    colours: u64,
}

impl OrderId {
    /// That of these colours.
    pub(crate) fn of(region: u8, colours: &[u8]) -> OrderId {
        let mut set = 0;
        for colour in colours {
            set |= 1 << (*colour % 64);
        }
        OrderId {
            region,
            colours: set,
        }
    }
}
