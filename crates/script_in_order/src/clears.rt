// Begun appends that stand in the way of a key are helped.
ghost use Rattle.std.specs.Prelude.{◌≡◌, ◌<◌, length};
ghost use Rattle.std.specs.List.{All, fold};
ghost use Rattle.log_node.specs.Sets.{members};
ghost use Rattle.world_code.specs.WorldView.{world_of};
ghost use Rattle.world_code.specs.Looks.{open_below};
ghost use Rattle.world_laws.specs.Worlds.{home_of, home_history};
ghost use Rattle.script_meaning.specs.Helping.{helped_first, cleared};
ghost use Rattle.script_in_order.specs.Helps.{HelpsLead};

use log_node::{Colours, Key};
use world_code::World;

/// The region of a client.
pub fn home(world: &World, client: u8) -> u8
    requires { client < length world.now.shape.homes }
    ensures home { result ≡ home_of (world_of world.now) client }
    ensures within { result < world.now.shape.regions }
{
    world.is_whole();
    world.shape().homes.as_slice()[client as usize]
}

// Helps the append of the least open entry of the colour's column below the key, where there is one.
fn help_first(world: &mut World, by: u8, key: Key, colour: u8)
    requires by { by < length world.old.shape.homes }
    requires colour { colour < world.old.shape.colours }
    ensures helps { HelpsLead (λ grants h. helped_first grants by h
        (open_below key (h.world.histories (home_of h.world by) colour))) (world_of world.old) (world_of world.new) }
    ensures shape { world.new.shape ≡ world.old.shape }
{
    let home = home(world, by);
    if let Some(row) = world.open_row_below(home, colour, key) {
        world.complete(by, row);
    }
}

// How many open entries of the colour's column are below the key.
fn open_count(world: &World, by: u8, key: Key, colour: u8) -> u64
    requires by { by < length world.now.shape.homes }
    requires colour { colour < world.now.shape.colours }
    ensures { result ≡ length (open_below key (home_history (world_of world.now) by colour)) }
{
    world.column(home(world, by), colour).below(key).count
}

/// Helps the open entries of the colour's column below the key, the least first, as many as there are at first.
pub fn clear(world: &mut World, by: u8, key: Key, colour: u8)
    requires by { by < length world.old.shape.homes }
    requires colour { colour < world.old.shape.colours }
    ensures helps { HelpsLead (λ grants h. cleared grants by key h colour) (world_of world.old) (world_of world.new) }
    ensures shape { world.new.shape ≡ world.old.shape }
{
    let count = open_count(world, by, key, colour);
    for help in 0..count {
        let _help = help;
        help_first(world, by, key, colour);
    }
}

/// Clears one colour after another.
pub fn clear_all(world: &mut World, by: u8, key: Key, colours: Colours)
    requires by { by < length world.old.shape.homes }
    requires colours { All (λ colour. colour < world.old.shape.colours) (members colours) }
    ensures helps { HelpsLead (λ grants h. fold (cleared grants by key) h (members colours))
        (world_of world.old) (world_of world.new) }
    ensures shape { world.new.shape ≡ world.old.shape }
{
    for colour in colours.members() {
        clear(world, by, key, colour);
    }
}
