// Where the nodes of appends stand.
ghost use Rattle.std.specs.Prelude.{◌≡◌, ◌<◌, ◌∷◌, [], IfOk, length, map};
ghost use Rattle.std.specs.List.{All};
ghost use Rattle.log_node.specs.Sets.{members};
ghost use Rattle.world_laws.specs.Laws.{IsFinal};
ghost use Rattle.world_laws.specs.Worlds.{home_history};
ghost use Rattle.col_core.specs.History.{line};
ghost use Rattle.world_code.specs.WorldView.{world_of};
ghost use Rattle.script_meaning.specs.States.{position_of};
ghost use Rattle.script_text.specs.Fitting.{AreBelow};
ghost use Rattle.report_text.specs.declared.report.PointPiece.{PointPiece};
ghost use Rattle.script_in_order.specs.Points.{places_in, standing_in};

use crate::clears::home;
use log_node::{At, Colours, Key, ListOf};
use report_text::{PointPiece, Points};
use std::alloc::{AllocError, Global};
use world_code::World;
use world_laws::one_outcome;

/// The colour of a set that has one.
pub fn only_member(colours: Colours) -> u8
    requires { length (members colours) ≡ 1 }
    ensures { members colours ≡ result ∷ [] }
{
    match colours.first() {
        Some(colour) => colour,
        None => unreachable!(),
    }
}

/// At which position the node that is final under a key stands in the line of a colour of the client's region, or how
/// long the line is where it does not stand there.
pub fn position(world: &World, client: u8, key: Key, colour: u8) -> u64
    requires client { client < length world.now.shape.homes }
    requires colour { colour < world.now.shape.colours }
    requires stamped { IsFinal (home_history (world_of world.now) client colour) key.id key.stamp }
    ensures { result ≡ position_of key.id (line (home_history (world_of world.now) client colour)) }
{
    one_outcome();
    world.agrees();
    let column = world.column(home(world, client), colour);
    match column.place(key) {
        Some(position) => position,
        None => column.line().len() as u64,
    }
}

/// Where the next events of these colours will stand in the client's region, with positions that are not known yet.
pub fn places(
    alloc: Global,
    world: &World,
    client: u8,
    colours: Colours,
) -> Result<Vec<PointPiece>, AllocError>
    requires client { client < length world.now.shape.homes }
    requires within { AreBelow world.now.shape.colours colours }
    ensures { IfOk result (λ places. places.items ≡ places_in (world_of world.now) client (members colours)) }
{
    let mut places = Vec::new(alloc);
    for colour in colours.members() {
        let column = world.column(home(world, client), colour);
        places.push(PointPiece {
            colour,
            at: At::Event(column.journal().len() as u64),
            position: 0,
        })?;
    }
    Ok(places)
}

/// The same points, each with the position of the node that is final under the key.
pub fn with_positions(world: &World, client: u8, key: Key, mut points: Vec<PointPiece>) -> Points
    requires client { client < length world.now.shape.homes }
    requires within { All (λ (p : PointPiece). p.colour < world.now.shape.colours) points.items }
    requires stamped { All (λ (p : PointPiece).
        IsFinal (home_history (world_of world.now) client p.colour) key.id key.stamp) points.items }
    ensures { result ≡ map (standing_in (world_of world.now) client key.id) points.items }
{
    for point in points.iter_mut() {
        point.position = position(world, client, key, point.colour);
    }
    Points::many(ListOf::from(points))
}
