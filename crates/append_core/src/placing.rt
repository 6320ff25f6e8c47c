// The points of an append to several colours.
ghost use Rattle.std.specs.Prelude.{◌≡◌, ◌<◌, ◌≤◌, ℕ, length, Some, slice_get, IfOk};
ghost use Rattle.col_core.specs.History.{line};
ghost use Rattle.col_core.specs.Ids.{IsFinal};
ghost use Rattle.stamp_board.specs.Seats.{IsLater};
ghost use Rattle.chain_store.specs.Going.{GoesOn};
ghost use Rattle.chain_store.specs.Holds.{IsHold, entries_seen};
ghost use Rattle.append_core.specs.declared.stood.Point.{Point};
ghost use Rattle.append_core.specs.Helping.{HelpsOpen};
ghost use Rattle.append_core.specs.Inside.{ArePointsOf, HasPosition, point_colours};

use crate::stands::line_position;
use crate::stood::{Point, Stood};
use chain_store::{Hold, Region};
use log_node::{At, Colours, Key};
use std::alloc::{AllocError, Global};
use std::sync::Wait;

// A point for each colour, the least first, of which nothing more is known yet.
pub(crate) fn points_of(alloc: Global, colours: Colours) -> Result<Vec<Point>, AllocError>
    ensures { IfOk result (λ points. ArePointsOf points.items colours) }
{
    let mut points = Vec::new(alloc);
    for colour in colours.members() {
        points.push(Point {
            colour,
            at: At::Look(0),
            position: 0,
        })?;
    }
    Ok(points)
}

// Where a final key stands in the lines of the points' colours: where that is not known, what is open below it is helped.
pub(crate) fn stood<R: Wait>(
    rt: &R,
    region: &Region,
    hold: &mut Hold,
    key: Key,
    points: Vec<Point>,
    places: &[Option<u64>],
) -> Stood
    requires hold { IsHold region.now hold.old }
    requires few { length points.items ≤ length places.now }
    requires colours { (n : ℕ) (p : Point) → slice_get points.items n ≡ Some p → p.colour < region.now.board.size.colours }
    requires stamped { (n : ℕ) (p : Point) → slice_get points.items n ≡ Some p
        → IsFinal (entries_seen hold.old p.colour) key.id key.stamp }
    requires known { (n : ℕ) (p : Point) (q : ℕ) → slice_get points.items n ≡ Some p → slice_get places.now n ≡ Some (Some q)
        → slice_get (line (entries_seen hold.old p.colour)) q ≡ Some key }
    ensures hold { IsHold region.now hold.new }
    ensures seat { IsLater hold.old.seat hold.new.seat }
    ensures next { hold.new.next ≡ hold.old.next }
    ensures goes { GoesOn (λ c e. HelpsOpen hold.old hold.new e) hold.old hold.new }
    ensures key { result.key ≡ key }
    ensures colours { point_colours result.points ≡ point_colours points.items }
    ensures placed { (n : ℕ) (p : Point) → slice_get result.points n ≡ Some p → HasPosition hold.new key points.items n p }
{
    let mut points = points;
    for n in 0..points.len() {
        let colour = points[n].colour;
        points[n].position = line_position(rt, region, hold, colour, key, places[n]);
    }
    Stood {
        key,
        points: points.into(),
    }
}
