// Pulls and trims.
ghost use Rattle.std.specs.Prelude.{◌≡◌, ◌≢◌, ◌<◌, ◌-◌, [], IfOk, OnErr, length};
ghost use Rattle.col_core.specs.History.{line};
ghost use Rattle.world_laws.specs.Worlds.{held_of, base_after, home_of};
ghost use Rattle.world_code.specs.WorldView.{world_of};
ghost use Rattle.script_meaning.specs.Moves.{pulled, pulled_from, trimmed};
ghost use Rattle.script_in_order.specs.Doing.{DoneBy, DoesAtHome};
ghost use Rattle.script_in_order.specs.Points.{event_or_look};

use crate::clears::home;
use log_node::{At, Counts};
use report_text::Answer;
use script_text::{Command, Object, What};
use std::alloc::{AllocError, Global};
use world_code::World;
use world_laws::copies_are_true;

/// Gives the client's region the nodes of another region's line that it lacks, and carries them; refused from the
/// client's own region. Where there is no memory for what is carried, the other region has given alone.
pub fn pull(
    alloc: Global,
    objects: &[Object],
    command: &Command,
    region: u8,
    colour: u8,
    world: &mut World,
) -> Result<Answer, AllocError>
    requires asks { command.now.what ≡ What.Pull region colour }
    requires caller { command.now.client < length world.old.shape.homes }
    requires region { region < world.old.shape.regions }
    requires within { colour < world.old.shape.colours }
    ensures ok { IfOk result (λ answer. DoesAtHome objects.now command.now (world_of world.old) (world_of world.new) answer []) }
    ensures err { OnErr result (world_of world.new ≡ world_of world.old) }
{
    let own = home(world, command.client);
    if region == own {
        return Ok(Answer::SameRegion);
    }
    pull_from(alloc, command, region, own, colour, world)
}

// A pull from another region.
fn pull_from(
    alloc: Global,
    command: &Command,
    region: u8,
    own: u8,
    colour: u8,
    world: &mut World,
) -> Result<Answer, AllocError>
    requires caller { command.now.client < length world.old.shape.homes }
    requires region { region < world.old.shape.regions }
    requires own { own < world.old.shape.regions }
    requires home { own ≡ home_of (world_of world.old) command.now.client }
    requires other { region ≢ own }
    requires within { colour < world.old.shape.colours }
    ensures ok { IfOk result (λ answer. DoneBy (λ grants state. pulled_from grants state command.now region colour)
        command.now (world_of world.old) (world_of world.new) answer []) }
    ensures err { OnErr result (world_of world.new ≡ world_of world.old) }
{
    copies_are_true();
    world.is_whole();
    let client = command.client;
    let held = held(world, region, own, colour);
    let count = lacking(world, region, held, colour);
    let theirs = events(world, region, colour);
    let ours = events(world, own, colour);
    let given = world.give(client, region, own, colour, held)?;
    match world.carry(alloc, client, region, own, colour, held, count) {
        Ok(carried) => Ok(Answer::Pulled {
            nodes: count,
            give: event_or_look(given, theirs),
            carry: event_or_look(carried, ours),
        }),
        Err(_) => Ok(Answer::NoMemory),
    }
}

// How many nodes of a region's chain the own region's column holds.
fn held(world: &World, region: u8, own: u8, colour: u8) -> u64
    requires region { region < world.now.shape.regions }
    requires own { own < world.now.shape.regions }
    requires colour { colour < world.now.shape.colours }
    ensures { result ≡ held_of (world_of world.now) region own colour }
{
    world.is_whole();
    world.column(own, colour).held().0[region as usize]
}

// How many nodes of a region's line come after so many.
fn lacking(world: &World, region: u8, held: u64, colour: u8) -> u64
    requires region { region < world.now.shape.regions }
    requires colour { colour < world.now.shape.colours }
    ensures { result ≡ length (line ((world_of world.now).histories region colour)) - held }
{
    let end = world.column(region, colour).line().len() as u64;
    end.saturating_sub(held)
}

// How many events a column has.
fn events(world: &World, region: u8, colour: u8) -> u64
    requires region { region < world.now.shape.regions }
    requires colour { colour < world.now.shape.colours }
    ensures { result ≡ length ((world_of world.now).histories region colour) }
{
    world.column(region, colour).journal().len() as u64
}

// The event at this place, if a step has added one, and else the look after so many events.
fn event_or_look(place: Option<u64>, events: u64) -> At
    ensures { result ≡ event_or_look place events }
{
    match place {
        Some(place) => At::Event(place),
        None => At::Look(events),
    }
}

/// Trims a colour's column of the client's region up to what the client has played.
pub fn trim(
    objects: &[Object],
    command: &Command,
    colour: u8,
    world: &mut World,
) -> Result<Answer, AllocError>
    requires asks { command.now.what ≡ What.Trim colour }
    requires caller { command.now.client < length world.old.shape.homes }
    requires within { colour < world.old.shape.colours }
    ensures ok { IfOk result (λ answer. DoesAtHome objects.now command.now (world_of world.old) (world_of world.new) answer []) }
    ensures err { OnErr result (world_of world.new ≡ world_of world.old) }
{
    let client = command.client;
    let own = home(world, client);
    let ours = events(world, own, colour);
    let played = played(world, client, colour);
    let trimmed = world.trim(client, own, colour, played)?;
    Ok(Answer::Based {
        at: event_or_look(trimmed, ours),
        base: base(world, own, colour),
    })
}

/// What the client has played of a colour.
pub(crate) fn played(world: &World, client: u8, colour: u8) -> Counts
    requires client { client < length world.now.shape.homes }
    requires colour { colour < world.now.shape.colours }
    ensures { result ≡ ((world_of world.now).clients client).played colour }
{
    world.is_whole();
    world.client(client).played(colour)
}

/// Below which counts a column is trimmed.
pub(crate) fn base(world: &World, region: u8, colour: u8) -> Counts
    requires region { region < world.now.shape.regions }
    requires colour { colour < world.now.shape.colours }
    ensures { result ≡ base_after world.now.shape.regions region ((world_of world.now).histories region colour) }
{
    world.is_whole();
    world.column(region, colour).base()
}
