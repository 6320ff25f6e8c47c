// Pieces of replies, colour by colour.
ghost use Rattle.std.specs.Prelude.{◌≡◌, ℕ, map};
ghost use Rattle.std.specs.List.{Contains};
ghost use Rattle.column_track.specs.Tracks.{Tells};
ghost use Rattle.run_rules.specs.Answering.{HasPoints, HasReads, CanEnd};

use report_text::{Ended, PointPiece, RaisePiece, SyncPiece};

/// What a reply shows of one colour.
pub trait OfColour {
    ghost colour_of: { Self → ℕ };

    /// The colour of which it is.
    fn colour(&self) -> u8
        ensures { result ≡ colour_of self.now };
}

impl OfColour for PointPiece {
    ghost colour_of = { λ p. p.colour };

    fn colour(&self) -> u8 {
        self.colour
    }
}

impl OfColour for RaisePiece {
    ghost colour_of = { λ p. p.colour };

    fn colour(&self) -> u8 {
        self.colour
    }
}

impl OfColour for SyncPiece {
    ghost colour_of = { λ p. p.colour };

    fn colour(&self) -> u8 {
        self.colour
    }
}

// Whether there is one piece for each of these colours, in their order.
fn are_colours<P: OfColour>(colours: &[u8], pieces: &[P]) -> bool
    ensures { Tells result (map P.colour_of pieces.now ≡ colours.now) }
{
    let [piece, pieces @ ..] = pieces else {
        return colours.is_empty();
    };
    let [colour, colours @ ..] = colours else {
        return false;
    };
    piece.colour() == *colour && are_colours(colours, pieces)
}

/// Whether these are the points of an append to such colours, with a row where there are several.
pub fn has_points(colours: &[u8], row: Option<u32>, points: &[PointPiece]) -> bool
    ensures { Tells result (HasPoints colours.now row points.now) }
{
    match row {
        None => are_colours(colours, points) && colours.len() == 1,
        Some(_) => are_colours(colours, points) && 2 <= colours.len(),
    }
}

/// Whether these are the raises and the syncs of a stamped read of such colours.
pub fn has_reads(colours: &[u8], raises: &[RaisePiece], syncs: &[SyncPiece]) -> bool
    ensures { Tells result (HasReads colours.now raises.now syncs.now) }
{
    are_colours(colours, raises) && are_colours(colours, syncs)
}

/// Whether this is one of the colours.
pub fn has_colour(colours: &[u8], colour: u8) -> bool
    ensures { Tells result (Contains colours.now colour) }
{
    colours.contains(&colour)
}

/// Whether the append of a decision's node to such colours can have ended so.
pub fn can_end(colours: &[u8], ended: &Ended) -> bool
    ensures { Tells result (CanEnd colours.now ended.now) }
{
    match ended {
        Ended::Stood { point, .. } => has_points(colours, None, std::slice::from_ref(point)),
        Ended::StampEnd { colour } => has_colour(colours, *colour),
        Ended::NoMemory => true,
    }
}
