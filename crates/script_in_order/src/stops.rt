// Stops of appends to several colours.
ghost use Rattle.std.specs.Prelude.{◌≡◌, [], IfOk, OnErr};
ghost use Rattle.world_code.specs.WorldView.{world_of};
ghost use Rattle.script_in_order.specs.Doing.{IsFit, DoesAtHome};

use log_node::{Colours, Text};
use report_text::Answer;
use script_text::{Command, Object, What};
use std::alloc::{AllocError, Global};
use world_code::World;
use world_laws::is_lawful;

/// Takes this many first steps of an append to several colours.
pub fn stop(
    alloc: Global,
    objects: &[Object],
    command: &Command,
    steps: u8,
    colours: Colours,
    text: &Text,
    world: &mut World,
) -> Result<Answer, AllocError>
    requires asks { command.now.what ≡ What.Stop steps colours text.now }
    requires fits { IsFit (world_of world.old) objects.now command.now.client command.now.what }
    ensures ok { IfOk result (λ answer. DoesAtHome objects.now command.now (world_of world.old) (world_of world.new) answer []) }
    ensures err { OnErr result (world_of world.new ≡ world_of world.old) }
{
    if steps == 0 {
        return Ok(Answer::Stopped { steps });
    }
    is_lawful();
    world.is_whole();
    let text = Text::copied(alloc, text.as_bytes())?;
    let new = world.begin(alloc, command.client, colours, text)?;
    match new {
        Some(begun) => {
            world.complete_first(command.client, begun.row, steps - 1);
            Ok(Answer::Stopped { steps })
        }
        None => Ok(Answer::Full {
            used: world.shape().rows,
        }),
    }
}
