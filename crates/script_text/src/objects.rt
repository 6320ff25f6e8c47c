// The objects that a script declares, and those that commands name.
ghost use Rattle.std.specs.Prelude.{◌≡◌, ◌≤◌, [], ◌∷◌, ◌++◌, length, map, slice_get, OnOk, OnErr};
ghost use Rattle.std.specs.Option.{option_copied};
ghost use Rattle.script_text.specs.Pieces.{is_among, number_of};
ghost use Rattle.script_text.specs.Table.{is_of};
ghost use Rattle.script_text.specs.Apart.{is_parts, has_colour, has_parts, is_taken};
ghost use Rattle.script_text.specs.Readings.{Gives, object_at};

use crate::fault::Fault;
use crate::name_set::NameSet;
use crate::script::{Kind, Object, Reason};
use crate::table::{Kinds, PARTS};
use log_node::Text;
use std::alloc::{AllocError, Global};
use std::marker::Model;

/// Objects by number, each of which is found by its name at a cost that does not grow with their number.
pub struct Objects {
    alloc: Global,
    objects: Vec<Object>,
    // Their names once more.
    names: NameSet,
}

impl Model for Objects {
    ghost use Rattle.std.specs.Prelude.{List, ◌≡◌, map};
    ghost use Rattle.script_text.specs.declared.script.Object.{Object};

    ghost Value = { List Object };

    ghost view = { λ a. a.objects.items };

    ghost invariant = { λ a. a.names ≡ map (λ (o : Object). o.name) a.objects.items };
}

// Written out, so that an exit that drops a script has one call for it.
impl Drop for Objects {
    fn drop(self) {
        let Objects {
            alloc: _alloc,
            objects: _objects,
            names: _names,
        } = self;
    }
}

impl Objects {
    /// No objects; takes no memory.
    pub fn new(alloc: Global) -> Self
        ensures { result ≡ [] }
    {
        Objects {
            alloc,
            objects: Vec::new(alloc),
            names: NameSet::new(alloc),
        }
    }

    /// How many objects there are.
    pub fn len(&self) -> usize
        ensures { result ≡ length self.now }
    {
        self.objects.len()
    }

    /// The objects, by number.
    pub fn as_slice(&self) -> &[Object]
        ensures { result.now ≡ self.now }
    {
        self.objects.as_slice()
    }

    /// The object with a number, where there is one.
    pub fn get(&self, number: usize) -> Option<&Object>
        ensures { option_copied result ≡ slice_get self.now number }
    {
        self.objects.get(number)
    }

    /// The number of the first object with a name.
    pub(crate) fn number_of(&self, name: &[u8]) -> Option<u8>
        requires { length self.now ≤ 256 }
        ensures { result ≡ number_of (map (λ o. o.name) self.now) name.now }
    {
        self.names.number_of(name)
    }

    /// Whether an object has this name.
    pub(crate) fn has(&self, name: &[u8]) -> bool
        ensures { result ≡ is_among (map (λ o. o.name) self.now) name.now }
    {
        self.names.has(name)
    }

    /// Whether an object keeps its colours to itself.
    pub(crate) fn has_parts(&self) -> bool
        ensures { result ≡ has_parts self.now }
    {
        self.objects.iter().any(|object| is_parts(&object.kind))
    }

    /// Whether one of the objects and a new one may not both have this colour; `alone` where the new one keeps its colours to itself.
    pub(crate) fn have_taken(&self, alone: bool, colour: u8) -> bool
        ensures { result ≡ is_taken self.now alone colour }
    {
        self.objects.iter().any(|object| (alone || is_parts(&object.kind))
            && has_colour(&object.kind, colour))
    }

    /// One object more, behind the others. Without memory they stay as they were.
    pub fn push(&mut self, object: Object) -> Result<(), AllocError>
        ensures ok { OnOk result (self.new ≡ self.old ++ object ∷ []) }
        ensures err { OnErr result (self.new ≡ self.old) }
    {
        let name = Text::copied(self.alloc, object.name.as_bytes())?;
        self.objects.reserve(1)?;
        self.names.push(name)?;
        self.objects.push_reserved(object);
        Ok(())
    }
}

/// Whether an object is of one of these kinds.
fn is_of(kinds: Kinds, kind: &Kind) -> bool
    ensures { result ≡ is_of kinds kind.now }
{
    match kind {
        Kind::Map { .. } => kinds.map,
        Kind::Tx { .. } => kinds.tx,
        Kind::Causal { .. } => kinds.causal,
        Kind::Queue { .. } => kinds.queue,
        Kind::Tree { .. } => kinds.tree,
        Kind::Parts { .. } => kinds.parts,
    }
}

/// Whether an object keeps its colours to itself.
fn is_parts(kind: &Kind) -> bool
    ensures { result ≡ is_parts kind.now }
{
    is_of(PARTS, kind)
}

/// Whether an object has this colour.
fn has_colour(kind: &Kind, colour: u8) -> bool
    ensures { result ≡ has_colour kind.now colour }
{
    match kind {
        Kind::Map { colours, .. }
        | Kind::Tx { colours, .. }
        | Kind::Tree { colours, .. }
        | Kind::Parts { colours, .. } => colours.as_slice().contains(&colour),
        Kind::Causal { colour: own } | Kind::Queue { colour: own, .. } => *own == colour,
    }
}

/// The number of the object with this name, which is of one of these kinds.
pub fn object_at(kinds: Kinds, objects: &Objects, field: &[u8]) -> Result<u8, Fault>
    requires { length objects.now ≤ 256 }
    ensures { Gives result (object_at kinds objects.now field.now) }
{
    let Some(number) = objects.number_of(field) else {
        return Err(Fault::Refused(Reason::UnknownObject));
    };
    if !is_of(kinds, &objects.as_slice()[number as usize].kind) {
        return Err(Fault::Refused(Reason::WrongObject));
    }
    Ok(number)
}
