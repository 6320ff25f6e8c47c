// What comes where no stamp is left.

/// No stamp is left: the greater of the clock and the floor, `clock`, is the last stamp.
#[derive(Clone, Copy, Debug, PartialEq, Eq)]
pub struct StampEnd {
    pub clock: u64,
}
