// Where things stand in a picture, and how they are classed.
ghost use Rattle.std.specs.Prelude.{◌≡◌, ◌≤◌, ◌<◌, ◌^◌};
ghost use Rattle.run_picture.specs.Spots.{slot_x, lane_top, spot_y, kind_class, kind_note, tie_class, tie_start, tie_end};

use crate::picture::{Kind, Spot, Tie};

/// The left end of a place of the axis.
pub fn slot_x(slot: u8) -> u64
    ensures value { result ≡ slot_x slot }
    ensures range { result < 2 ^ 23 }
{
    380 + 150 * slot as u64
}

/// The upper end of a lane.
pub fn lane_top(lane: u16) -> u64
    ensures value { result ≡ lane_top lane }
    ensures range { result < 2 ^ 23 }
{
    92 + 92 * lane as u64
}

/// The upper end of a box.
pub fn spot_y(at: Spot) -> u64
    ensures value { result ≡ spot_y at }
    ensures range { result < 2 ^ 24 }
{
    lane_top(at.lane) + 12 + 10 * at.depth as u64
}

impl Kind {
    /// The class of its box.
    pub fn class(self) -> &'static str
        ensures { result.now ≡ kind_class self }
    {
        match self {
            Kind::Stands => "stands",
            Kind::Trimmed => "trimmed",
            Kind::Waits => "waits",
            Kind::Open => "open",
        }
    }

    /// What stands behind its id.
    pub fn note(self) -> &'static str
        ensures { result.now ≡ kind_note self }
    {
        match self {
            Kind::Stands => "",
            Kind::Trimmed => " trimmed",
            Kind::Waits => " waits",
            Kind::Open => " open",
        }
    }
}

impl Tie {
    /// The class of its line.
    pub fn class(self) -> &'static str
        ensures { result.now ≡ tie_class self }
    {
        match self {
            Tie::Band => "band",
            Tie::Chain => "chain",
            Tie::Edge => "edge",
        }
    }

    /// How far right in a box the line begins: a band in the middle, an arrow at the left end.
    pub fn start(self) -> u64
        ensures range { result ≤ 130 }
        ensures value { result ≡ tie_start self }
    {
        match self {
            Tie::Band => 65,
            Tie::Chain | Tie::Edge => 0,
        }
    }

    /// How far right in a box the line ends: a band in the middle, an arrow at the right end.
    pub fn end(self) -> u64
        ensures range { result ≤ 130 }
        ensures value { result ≡ tie_end self }
    {
        match self {
            Tie::Band => 65,
            Tie::Chain | Tie::Edge => 130,
        }
    }
}
