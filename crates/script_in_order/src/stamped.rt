// Stamped reads.
ghost use Rattle.std.specs.Prelude.{◌≡◌, ◌<◌, ◌≤◌, true, false, IfOk, IfSome, OnErr, length, map};
ghost use Rattle.std.specs.List.{All};
ghost use Rattle.col_core.specs.History.{clock};
ghost use Rattle.log_node.specs.Sets.{members};
ghost use Rattle.world_code.specs.WorldView.{world_of};
ghost use Rattle.world_laws.specs.declared.steps.Step.TheVariants as steps;
ghost use Rattle.world_laws.specs.Worlds.{home_of, home_history, after};
ghost use Rattle.script_text.specs.Fitting.{AreBelow};
ghost use Rattle.report_text.specs.declared.report.SyncPiece.{SyncPiece};
ghost use Rattle.script_meaning.specs.Stamped.{read_stamp, raise_in, sync_in, key_above, played, keys_read};
ghost use Rattle.script_in_order.specs.Stamped.{no_look, looked_in, RaisesColumns, ReadsRaised, ReadsStamped, end_in};

use crate::clears::{clear_all, home};
use crate::moves::base;
use log_node::{At, Colours, Counts, Id, Key, ListOf, MAX_STAMP};
use playback::with_line;
use report_text::{RaisePiece, SyncPiece};
use std::alloc::{AllocError, Global};
use world_code::World;

/// What a stamped read came to.
#[derive(Drop)]
pub enum Stamped {
    /// All columns were raised to the stamp, cleared up to it and played.
    Whole {
        stamp: u64,
        raises: ListOf<RaisePiece>,
        syncs: ListOf<SyncPiece>,
    },
    /// A node that had to be played is trimmed: the first such colour, and the base of its column.
    Refused {
        colour: u8,
        base: Counts,
    },
    /// There was no memory for a raise. The raises before it stand.
    Unraised,
}

// The clock of a colour's column of the client's region.
fn clock(world: &World, client: u8, colour: u8) -> u64
    requires client { client < length world.now.shape.homes }
    requires colour { colour < world.now.shape.colours }
    ensures { result ≡ clock (home_history (world_of world.now) client colour) }
{
    world.column(home(world, client), colour).clock()
}

// The greatest of the client's floor and the clocks of its region's columns of these colours.
fn read_stamp(world: &World, client: u8, colours: Colours) -> u64
    requires client { client < length world.now.shape.homes }
    requires within { AreBelow world.now.shape.colours colours }
    ensures value { result ≡ read_stamp (world_of world.now) client (members colours) }
    ensures stamp { result ≤ MAX_STAMP }
{
    world.agrees();
    let mut stamp = world.client(client).floor();
    for colour in colours.members() {
        stamp = stamp.max(clock(world, client, colour));
    }
    stamp
}

// A raise of a colour's column to a stamp: an event where its clock is smaller, and else a look.
fn raise_piece(world: &World, client: u8, stamp: u64, colour: u8) -> RaisePiece
    requires client { client < length world.now.shape.homes }
    requires colour { colour < world.now.shape.colours }
    ensures { result ≡ raise_in (world_of world.now) client stamp colour }
{
    let column = world.column(home(world, client), colour);
    let events = column.journal().len() as u64;
    let at = if column.clock() < stamp {
        At::Event(events)
    } else {
        At::Look(events)
    };
    RaisePiece { colour, at }
}

// The raises of these colours' columns to a stamp.
fn raise_pieces(
    alloc: Global,
    world: &World,
    client: u8,
    stamp: u64,
    colours: Colours,
) -> Result<ListOf<RaisePiece>, AllocError>
    requires client { client < length world.now.shape.homes }
    requires within { AreBelow world.now.shape.colours colours }
    ensures { IfOk result (λ raises.
        raises ≡ map (raise_in (world_of world.now) client stamp) (members colours)) }
{
    let mut raises = Vec::new(alloc);
    for colour in colours.members() {
        raises.push(raise_piece(world, client, stamp, colour))?;
    }
    Ok(ListOf::from(raises))
}

// Syncs of these colours, of which it is not known yet what they look at.
fn no_looks(alloc: Global, colours: Colours) -> Result<Vec<SyncPiece>, AllocError>
    ensures { IfOk result (λ syncs. syncs.items ≡ map no_look (members colours)) }
{
    let mut syncs = Vec::new(alloc);
    for colour in colours.members() {
        syncs.push(SyncPiece {
            colour,
            events: 0,
            counts: Counts::zeros(),
        })?;
    }
    Ok(syncs)
}

// What the sync of a colour looks at.
fn looked(world: &World, client: u8, colour: u8) -> SyncPiece
    requires client { client < length world.now.shape.homes }
    requires colour { colour < world.now.shape.colours }
    ensures { result ≡ sync_in (world_of world.now) client colour }
{
    world.is_whole();
    let column = world.column(home(world, client), colour);
    SyncPiece {
        colour,
        events: column.journal().len() as u64,
        counts: column.cut(),
    }
}

// The same syncs, with what they look at.
fn with_looks(world: &World, client: u8, mut syncs: Vec<SyncPiece>) -> ListOf<SyncPiece>
    requires client { client < length world.now.shape.homes }
    requires within { All (λ (s : SyncPiece). s.colour < world.now.shape.colours) syncs.items }
    ensures { result ≡ map (looked_in (world_of world.now) client) syncs.items }
{
    for sync in syncs.iter_mut() {
        *sync = looked(world, client, sync.colour);
    }
    ListOf::from(syncs)
}

// Raises a colour's column of the client's region; answers whether there was memory.
fn raise(world: &mut World, client: u8, stamp: u64, colour: u8) -> bool
    requires client { client < length world.old.shape.homes }
    ensures ok { result ≡ true → let w = world_of world.old in
        world_of world.new ≡ after w (steps.Raise client (home_of w client) colour stamp) }
    ensures err { result ≡ false → world.new ≡ world.old }
    ensures shape { world.new.shape ≡ world.old.shape }
{
    let home = home(world, client);
    match world.raise(client, home, colour, stamp) {
        Ok(_) => true,
        Err(_) => false,
    }
}

// Raises the columns of these colours, up to the first for which there is no memory, which it answers.
fn raise_all(world: &mut World, client: u8, stamp: u64, colours: Colours) -> Option<u8>
    requires client { client < length world.old.shape.homes }
    ensures raises { RaisesColumns (world_of world.old) client stamp (members colours) (world_of world.new) result }
    ensures shape { world.new.shape ≡ world.old.shape }
{
    for colour in colours.members() {
        if !raise(world, client, stamp, colour) {
            return Some(colour);
        }
    }
    None
}

// Plays these colours, up to the first of which a node that the client has not played is trimmed, which it answers.
fn play_all(world: &mut World, client: u8, colours: Colours) -> Option<u8>
    requires within { AreBelow world.old.shape.colours colours }
    ensures plays { played client (world_of world.old) (members colours)
        ≡ record { world = world_of world.new; stopped = result } }
    ensures within { IfSome result (λ colour. colour < world.old.shape.colours) }
    ensures shape { world.new.shape ≡ world.old.shape }
{
    for colour in colours.members() {
        if world.play(client, colour).is_none() {
            return Some(colour);
        }
    }
    None
}

// The least key above a stamp.
fn key_above(stamp: u64) -> Key
    requires { stamp ≤ MAX_STAMP }
    ensures { result ≡ key_above stamp }
{
    Key {
        stamp: stamp + 1,
        id: Id {
            client: 0,
            count: 0,
        },
    }
}

// What a read comes to whose columns are raised: each is cleared of what is open up to the stamp, and then played.
fn read_raised(
    world: &mut World,
    client: u8,
    colours: Colours,
    stamp: u64,
    raises: ListOf<RaisePiece>,
    syncs: Vec<SyncPiece>,
) -> Stamped
    requires client { client < length world.old.shape.homes }
    requires within { AreBelow world.old.shape.colours colours }
    requires stamp { stamp ≤ MAX_STAMP }
    requires looks { syncs.items ≡ map no_look (members colours) }
    ensures reads { ReadsRaised (world_of world.old) (world_of world.new) client stamp (members colours) raises
        (end_in (world_of world.new) client (members colours) result) }
    ensures shape { world.new.shape ≡ world.old.shape }
{
    clear_all(world, client, key_above(stamp), colours);
    let syncs = with_looks(world, client, syncs);
    if let Some(colour) = play_all(world, client, colours) {
        let base = base(world, home(world, client), colour);
        return Stamped::Refused { colour, base };
    }
    world.see(client, stamp);
    Stamped::Whole {
        stamp,
        raises,
        syncs,
    }
}

/// Raises the columns of these colours to the client's stamp, clears each of what is open up to it, and plays each. The
/// memory for the answer is taken before the first raise.
pub fn stamped_read(
    alloc: Global,
    world: &mut World,
    client: u8,
    colours: Colours,
) -> Result<Stamped, AllocError>
    requires client { client < length world.old.shape.homes }
    requires within { AreBelow world.old.shape.colours colours }
    ensures ok { IfOk result (λ read. ReadsStamped (world_of world.old) (world_of world.new) client (members colours)
        (end_in (world_of world.new) client (members colours) read)) }
    ensures shape { world.new.shape ≡ world.old.shape }
    ensures err { OnErr result (world.new ≡ world.old) }
{
    let stamp = read_stamp(world, client, colours);
    let raises = raise_pieces(alloc, world, client, stamp, colours)?;
    let syncs = no_looks(alloc, colours)?;
    if raise_all(world, client, stamp, colours).is_some() {
        return Ok(Stamped::Unraised);
    }
    Ok(read_raised(world, client, colours, stamp, raises, syncs))
}

/// The keys of the own lines of these colours up to a stamp, in rising key, each once.
pub fn keys_read(
    alloc: Global,
    world: &World,
    client: u8,
    stamp: u64,
    colours: Colours,
) -> Result<Vec<Key>, AllocError>
    requires client { client < length world.now.shape.homes }
    requires within { AreBelow world.now.shape.colours colours }
    ensures { IfOk result (λ keys.
        keys.items ≡ keys_read (world_of world.now) client stamp (members colours)) }
{
    world.agrees();
    let mut keys = Vec::new(alloc);
    for colour in colours.members() {
        let line = world.column(home(world, client), colour).line();
        keys = with_line(alloc, keys.as_slice(), line, stamp)?;
    }
    Ok(keys)
}
