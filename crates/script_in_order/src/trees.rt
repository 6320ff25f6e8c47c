// Trees: changes, and lists of the names in a path.
ghost use Rattle.std.specs.Prelude.{◌≡◌, ◌<◌, [], IfOk, IfSome, OnErr, Some, length};
ghost use Rattle.script_text.specs.Fitting.{HasObject, UsesObject, is_tree};
ghost use Rattle.tree_fold.specs.Changes.{IsChange};
ghost use Rattle.world_code.specs.WorldView.{world_of};
ghost use Rattle.script_meaning.specs.Trees.{changed, changed_so};
ghost use Rattle.script_in_order.specs.Doing.{DoneBy, DoesAtHome, AreKindsWithin};
ghost use Rattle.script_in_order.specs.Folds.{AreFolded};

use crate::folds::{Fold, Folds};
use crate::lines_fold::LinesRead;
use crate::object_appends::{all_colours, key_shards};
use crate::stamped::{Stamped, stamped_read};
use crate::told::append_and_tell;
use log_node::Text;
use report_text::Answer;
use script_text::{Command, Object, What};
use std::alloc::{AllocError, Global};
use tree_fold::{Change, Path, change_keys, make_change, move_change, remove_change, write_change};
use world_code::World;

// A change: its node is appended to the shards of the first names of its paths, and it is told what becomes of it.
fn change_so(
    alloc: Global,
    objects: &[Object],
    command: &Command,
    object: u8,
    change: &Change,
    world: &mut World,
    folds: &mut Folds,
) -> Result<Answer, AllocError>
    requires caller { command.now.client < length world.old.shape.homes }
    requires kinds { AreKindsWithin world.old.shape objects.now }
    requires tree { HasObject objects.now object is_tree }
    requires may { IsChange change.now }
    requires folded { AreFolded (world_of world.old) objects.now folds.old }
    ensures ok { IfOk result (λ answer. DoneBy
        (λ grants state. changed_so objects.now grants state command.now object change.now) command.now
        (world_of world.old) (world_of world.new) answer []) }
    ensures err { OnErr result (world_of world.new ≡ world_of world.old) }
    ensures folded { AreFolded (world_of world.new) objects.now folds.new }
{
    world.is_whole();
    let kind = &objects[object as usize].kind;
    let colours = all_colours(kind);
    let keys = change_keys(alloc, change)?;
    let set = key_shards(kind, keys.as_slice());
    let text = write_change(alloc, change)?;
    match &mut folds.of[object as usize] {
        Fold::Tree(fold) => append_and_tell(alloc, command, colours, set, &text, world, fold),
        _ => unreachable!(),
    }
}

// The change that the fields of a command say; where they say none, none is made.
fn change(
    alloc: Global,
    objects: &[Object],
    command: &Command,
    object: u8,
    said: Option<Change>,
    world: &mut World,
    folds: &mut Folds,
) -> Result<Answer, AllocError>
    requires caller { command.now.client < length world.old.shape.homes }
    requires kinds { AreKindsWithin world.old.shape objects.now }
    requires tree { HasObject objects.now object is_tree }
    requires may { IfSome said IsChange }
    requires folded { AreFolded (world_of world.old) objects.now folds.old }
    ensures ok { IfOk result (λ answer. DoneBy
        (λ grants state. changed objects.now grants state command.now object said) command.now
        (world_of world.old) (world_of world.new) answer []) }
    ensures err { OnErr result (world_of world.new ≡ world_of world.old) }
    ensures folded { AreFolded (world_of world.new) objects.now folds.new }
{
    match said {
        None => Ok(Answer::NoMemory),
        Some(said) => change_so(alloc, objects, command, object, &said, world, folds),
    }
}

/// A make: the path is there then, with the value.
pub fn make(
    alloc: Global,
    objects: &[Object],
    command: &Command,
    object: u8,
    path: &Text,
    value: &Text,
    world: &mut World,
    folds: &mut Folds,
) -> Result<Answer, AllocError>
    requires asks { command.now.what ≡ What.Mk object path.now value.now }
    requires caller { command.now.client < length world.old.shape.homes }
    requires kinds { AreKindsWithin world.old.shape objects.now }
    requires uses { UsesObject objects.now (What.Mk object path.now value.now) }
    requires folded { AreFolded (world_of world.old) objects.now folds.old }
    ensures ok { IfOk result (λ answer. DoesAtHome objects.now command.now (world_of world.old) (world_of world.new) answer []) }
    ensures err { OnErr result (world_of world.new ≡ world_of world.old) }
    ensures folded { AreFolded (world_of world.new) objects.now folds.new }
{
    let said = make_change(alloc, path.as_bytes(), value.as_bytes())?;
    change(alloc, objects, command, object, said, world, folds)
}

/// A removal of a path.
pub fn remove(
    alloc: Global,
    objects: &[Object],
    command: &Command,
    object: u8,
    path: &Text,
    world: &mut World,
    folds: &mut Folds,
) -> Result<Answer, AllocError>
    requires asks { command.now.what ≡ What.Rm object path.now }
    requires caller { command.now.client < length world.old.shape.homes }
    requires kinds { AreKindsWithin world.old.shape objects.now }
    requires uses { UsesObject objects.now (What.Rm object path.now) }
    requires folded { AreFolded (world_of world.old) objects.now folds.old }
    ensures ok { IfOk result (λ answer. DoesAtHome objects.now command.now (world_of world.old) (world_of world.new) answer []) }
    ensures err { OnErr result (world_of world.new ≡ world_of world.old) }
    ensures folded { AreFolded (world_of world.new) objects.now folds.new }
{
    let said = remove_change(alloc, path.as_bytes())?;
    change(alloc, objects, command, object, said, world, folds)
}

/// A move of a path, with all that goes on from it.
pub fn relocate(
    alloc: Global,
    objects: &[Object],
    command: &Command,
    object: u8,
    source: &Text,
    target: &Text,
    world: &mut World,
    folds: &mut Folds,
) -> Result<Answer, AllocError>
    requires asks { command.now.what ≡ What.Mv object source.now target.now }
    requires caller { command.now.client < length world.old.shape.homes }
    requires kinds { AreKindsWithin world.old.shape objects.now }
    requires uses { UsesObject objects.now (What.Mv object source.now target.now) }
    requires folded { AreFolded (world_of world.old) objects.now folds.old }
    ensures ok { IfOk result (λ answer. DoesAtHome objects.now command.now (world_of world.old) (world_of world.new) answer []) }
    ensures err { OnErr result (world_of world.new ≡ world_of world.old) }
    ensures folded { AreFolded (world_of world.new) objects.now folds.new }
{
    let said = move_change(alloc, source.as_bytes(), target.as_bytes())?;
    change(alloc, objects, command, object, said, world, folds)
}

/// The names in a path: a stamped read of all colours of the tree, and the names after the nodes up to its stamp; refused where a
/// node that has to be played is trimmed. Where there is no memory for the names it is done all the same.
pub fn list_names(
    alloc: Global,
    objects: &[Object],
    command: &Command,
    object: u8,
    path: &Text,
    world: &mut World,
    folds: &mut Folds,
) -> Result<Answer, AllocError>
    requires asks { command.now.what ≡ What.Ls object path.now }
    requires caller { command.now.client < length world.old.shape.homes }
    requires kinds { AreKindsWithin world.old.shape objects.now }
    requires uses { UsesObject objects.now (What.Ls object path.now) }
    requires folded { AreFolded (world_of world.old) objects.now folds.old }
    ensures ok { IfOk result (λ answer. DoesAtHome objects.now command.now (world_of world.old) (world_of world.new) answer []) }
    ensures err { OnErr result (world_of world.new ≡ world_of world.old) }
    ensures folded { AreFolded (world_of world.new) objects.now folds.new }
{
    world.is_whole();
    let path = Path::of(alloc, path.as_bytes())?;
    let colours = all_colours(&objects[object as usize].kind);
    match stamped_read(alloc, world, command.client, colours)? {
        Stamped::Unraised => Ok(Answer::NoMemory),
        Stamped::Refused { colour, base } => Ok(Answer::Trimmed { colour, base }),
        Stamped::Whole {
            stamp,
            raises,
            syncs,
        } => {
            let lines = LinesRead {
                client: command.client,
                colours,
                stamp,
            };
            match folds.names(alloc, world, object, lines, &path) {
                Ok(names) => Ok(Answer::Listed {
                    names,
                    stamp,
                    raises,
                    syncs,
                }),
                Err(_) => Ok(Answer::NoMemory),
            }
        }
    }
}
