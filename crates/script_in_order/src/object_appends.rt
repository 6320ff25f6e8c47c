// What commands of objects append: the text of a form, on the colours of the shards.
ghost use Rattle.std.specs.Prelude.{◌≡◌, ◌<◌, ◌||◌, ◌∷◌, [], IsTrue, IfOk, OnErr, Some, length, slice_get};
ghost use Rattle.log_node.specs.Sets.{members, set_of};
ghost use Rattle.object_form.specs.Forms.{IsForm, form_text};
ghost use Rattle.object_fold.specs.Nodes.{shard_of};
ghost use Rattle.script_text.specs.Fitting.{AreBelow, AreObjectColours, HasColours, UsesObject, is_tx, is_tree, is_queue};
ghost use Rattle.lawful_run.specs.Asks.{object_colours, keys_of_pairs, put_form};
ghost use Rattle.world_code.specs.WorldView.{world_of};
ghost use Rattle.script_meaning.specs.Appends.{appended};
ghost use Rattle.script_meaning.specs.Objects.{shard_set};
ghost use Rattle.script_in_order.specs.Doing.{DoneBy, DoesAtHome, AreKindsWithin};

use crate::appends::append;
use log_node::{Colours, Form, ListOf, MAX_COLOURS, Pair, Pairs, Text};
use object_fold::shard_of;
use object_form::write_form;
use report_text::Answer;
use script_text::{Command, Kind, Object, What};
use std::alloc::{AllocError, Global};
use world_code::World;

/// The colour of a key's shard, of an object of this kind.
pub fn shard(kind: &Kind, key: &[u8]) -> u8
    ensures { result ≡ shard_of (object_colours (Some kind.now)) key.now }
{
    match kind {
        Kind::Map { colours, .. }
        | Kind::Tx { colours, .. }
        | Kind::Tree { colours, .. }
        | Kind::Parts { colours, .. } => shard_of(colours.as_slice(), key),
        Kind::Causal { colour } | Kind::Queue { colour, .. } => *colour,
    }
}

// The set of the shard of one key.
fn key_shard(kind: &Kind, key: &[u8]) -> Colours
    requires { AreObjectColours MAX_COLOURS (object_colours (Some kind.now)) }
    ensures { result ≡ shard_set (object_colours (Some kind.now)) (key.now ∷ []) }
{
    Colours::of(&[shard(kind, key)])
}

/// The set of the shards of keys.
pub fn key_shards(kind: &Kind, keys: &[Text]) -> Colours
    requires { AreObjectColours MAX_COLOURS (object_colours (Some kind.now)) }
    ensures { result ≡ shard_set (object_colours (Some kind.now)) keys.now }
{
    let mut set = Colours::NONE;
    for key in keys {
        set = set.with(shard(kind, key.as_bytes()));
    }
    set
}

// The set of the shards of the keys of some pairs.
fn pair_shards(kind: &Kind, pairs: &[Pair]) -> Colours
    requires { AreObjectColours MAX_COLOURS (object_colours (Some kind.now)) }
    ensures { result ≡ shard_set (object_colours (Some kind.now)) (keys_of_pairs pairs.now) }
{
    let mut set = Colours::NONE;
    for pair in pairs {
        set = set.with(shard(kind, pair.key.as_bytes()));
    }
    set
}

/// The set of all colours of an object that is told what becomes of nodes.
pub fn all_colours(kind: &Kind) -> Colours
    requires telling { IsTrue (is_tx kind.now || is_tree kind.now) }
    requires colours { AreObjectColours MAX_COLOURS (object_colours (Some kind.now)) }
    ensures { result ≡ set_of (object_colours (Some kind.now)) }
{
    match kind {
        Kind::Tx { colours, .. } | Kind::Parts { colours, .. } | Kind::Tree { colours, .. } => {
            Colours::of(colours.as_slice())
        }
        _ => unreachable!(),
    }
}

// The set of a queue's colour.
fn queue_colours(kind: &Kind) -> Colours
    requires queue { IsTrue (is_queue kind.now) }
    requires colours { AreObjectColours MAX_COLOURS (object_colours (Some kind.now)) }
    ensures { result ≡ set_of (object_colours (Some kind.now)) }
{
    Colours::of(&[shard(kind, &[])])
}

// The form of a put on an object of this kind.
fn put_form(alloc: Global, kind: &Kind, key: &Text, value: &Text) -> Result<Form, AllocError>
    ensures { IfOk result (λ form. form ≡ put_form (Some kind.now) key.now value.now) }
{
    let key = Text::copied(alloc, key.as_bytes())?;
    let value = Text::copied(alloc, value.as_bytes())?;
    match kind {
        Kind::Causal { colour: _colour } => Ok(Form::Causal { key, value }),
        _ => Ok(Form::Put { key, value }),
    }
}

/// The same pairs once more.
pub fn copied_pairs(alloc: Global, pairs: &[Pair]) -> Result<Pairs, AllocError>
    ensures { IfOk result (λ copy. copy ≡ pairs.now) }
{
    let mut copy = ListOf::new(alloc);
    for pair in pairs {
        let key = Text::copied(alloc, pair.key.as_bytes())?;
        let value = Text::copied(alloc, pair.value.as_bytes())?;
        copy.push(Pair { key, value })?;
    }
    Ok(copy)
}

/// An append of a form's text to the members of a set.
pub fn append_form(
    alloc: Global,
    command: &Command,
    colours: Colours,
    form: Form,
    world: &mut World,
) -> Result<Answer, AllocError>
    requires form { IsForm form }
    requires many { HasColours 1 colours }
    requires caller { command.now.client < length world.old.shape.homes }
    requires within { AreBelow world.old.shape.colours colours }
    ensures ok { IfOk result (λ answer. DoneBy
        (λ grants state. appended grants state command.now colours (form_text form) (members colours)) command.now
        (world_of world.old) (world_of world.new) answer []) }
    ensures err { OnErr result (world_of world.new ≡ world_of world.old) }
{
    let text = write_form(alloc, &form)?;
    append(alloc, command, colours, &text, world)
}

/// A put: an append of its text to the shard of the key.
pub fn put(
    alloc: Global,
    objects: &[Object],
    command: &Command,
    object: u8,
    key: &Text,
    value: &Text,
    world: &mut World,
) -> Result<Answer, AllocError>
    requires asks { command.now.what ≡ What.Put object key.now value.now }
    requires caller { command.now.client < length world.old.shape.homes }
    requires kinds { AreKindsWithin world.old.shape objects.now }
    requires uses { UsesObject objects.now (What.Put object key.now value.now) }
    ensures ok { IfOk result (λ answer. DoesAtHome objects.now command.now (world_of world.old) (world_of world.new) answer []) }
    ensures err { OnErr result (world_of world.new ≡ world_of world.old) }
{
    world.is_whole();
    let kind = &objects[object as usize].kind;
    let form = put_form(alloc, kind, key, value)?;
    append_form(alloc, command, key_shard(kind, key.as_bytes()), form, world)
}

/// A deletion: an append of its text to the shard of the key.
pub fn delete(
    alloc: Global,
    objects: &[Object],
    command: &Command,
    object: u8,
    key: &Text,
    world: &mut World,
) -> Result<Answer, AllocError>
    requires asks { command.now.what ≡ What.Del object key.now }
    requires caller { command.now.client < length world.old.shape.homes }
    requires kinds { AreKindsWithin world.old.shape objects.now }
    requires uses { UsesObject objects.now (What.Del object key.now) }
    ensures ok { IfOk result (λ answer. DoesAtHome objects.now command.now (world_of world.old) (world_of world.new) answer []) }
    ensures err { OnErr result (world_of world.new ≡ world_of world.old) }
{
    world.is_whole();
    let kind = &objects[object as usize].kind;
    let form = Form::Delete {
        key: Text::copied(alloc, key.as_bytes())?,
    };
    append_form(alloc, command, key_shard(kind, key.as_bytes()), form, world)
}

/// Several puts at once: an append of their text to the shards of all keys.
pub fn put_all(
    alloc: Global,
    objects: &[Object],
    command: &Command,
    object: u8,
    pairs: &Pairs,
    world: &mut World,
) -> Result<Answer, AllocError>
    requires asks { command.now.what ≡ What.PutAll object pairs.now }
    requires caller { command.now.client < length world.old.shape.homes }
    requires kinds { AreKindsWithin world.old.shape objects.now }
    requires uses { UsesObject objects.now (What.PutAll object pairs.now) }
    ensures ok { IfOk result (λ answer. DoesAtHome objects.now command.now (world_of world.old) (world_of world.new) answer []) }
    ensures err { OnErr result (world_of world.new ≡ world_of world.old) }
{
    world.is_whole();
    let kind = &objects[object as usize].kind;
    let set = pair_shards(kind, pairs.as_slice());
    let form = Form::PutAll {
        pairs: copied_pairs(alloc, pairs.as_slice())?,
    };
    append_form(alloc, command, set, form, world)
}

/// An enqueue: an append of its text to the colour of the queue.
pub fn enqueue(
    alloc: Global,
    objects: &[Object],
    command: &Command,
    object: u8,
    value: &Text,
    world: &mut World,
) -> Result<Answer, AllocError>
    requires asks { command.now.what ≡ What.Enq object value.now }
    requires caller { command.now.client < length world.old.shape.homes }
    requires kinds { AreKindsWithin world.old.shape objects.now }
    requires uses { UsesObject objects.now (What.Enq object value.now) }
    ensures ok { IfOk result (λ answer. DoesAtHome objects.now command.now (world_of world.old) (world_of world.new) answer []) }
    ensures err { OnErr result (world_of world.new ≡ world_of world.old) }
{
    world.is_whole();
    let set = queue_colours(&objects[object as usize].kind);
    let form = Form::Enqueue {
        value: Text::copied(alloc, value.as_bytes())?,
    };
    append_form(alloc, command, set, form, world)
}
