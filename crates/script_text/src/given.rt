// What the fields after a command's word give.
ghost use Rattle.std.specs.Prelude.{◌≡◌, ◌≤◌, IfOk};
ghost use Rattle.log_node.specs.declared.limits.TheConstants.{MAX_COLOURS};
ghost use Rattle.script_text.specs.Known.{IsSmall};
ghost use Rattle.script_text.specs.Table.{nothing, kind_of};
ghost use Rattle.script_text.specs.Readings.{Gives, Takes, fields_in};
ghost use Rattle.script_text.specs.Pieces.{first_in};
ghost use Rattle.script_text.specs.CommandReadings.{taken_at, given_at};

use crate::fault::Fault;
use crate::keys::{key_at, keys_at, pairs_at, steps_at, value_at};
use crate::known::Known;
use crate::names::{colour_set, text_at};
use crate::object_colours::{object_colour, object_colours};
use crate::objects::object_at;
use crate::paths::path_at;
use crate::script::Kind;
use crate::table::{Field, Sort};
use log_node::{ColourList, Colours, Keys, ListOf, Pairs, Text};
use std::alloc::Global;

/// What each kind of field gives; a command has at most one field of a kind.
#[derive(Drop)]
pub struct Given {
    pub number: u64,
    pub colours: Colours,
    /// How many colours were named.
    pub count: usize,
    pub colour: u8,
    pub region: u8,
    pub object: u8,
    pub text: Text,
    pub key: Text,
    pub value: Text,
    pub path: Text,
    pub target: Text,
    pub keys: Keys,
    pub pairs: Pairs,
    pub order: ColourList,
}

fn first<'a>(own: &[&'a [u8]]) -> &'a [u8]
    ensures { result.now ≡ first_in (fields_in own.now) }
{
    match own {
        [field, ..] => field,
        [] => &[],
    }
}

impl Given {
    /// What is given before the first field; takes no memory.
    fn new(alloc: Global) -> Given
        ensures { result ≡ nothing }
    {
        Given {
            number: 0,
            colours: Colours::NONE,
            count: 0,
            colour: 0,
            region: 0,
            object: 0,
            text: Text::empty(alloc),
            key: Text::empty(alloc),
            value: Text::empty(alloc),
            path: Text::empty(alloc),
            target: Text::empty(alloc),
            keys: ListOf::new(alloc),
            pairs: ListOf::new(alloc),
            order: ListOf::new(alloc),
        }
    }

    /// Takes what the fields of one kind give.
    #[tactic(auto, unfolding(crate::specs::CommandReadings::taken_at))]
    fn take(
        &mut self,
        alloc: Global,
        known: &Known,
        field: Field,
        own: &[&[u8]],
    ) -> Result<(), Fault>
        requires small { IsSmall known.now }
        requires few { self.old.count ≤ MAX_COLOURS }
        ensures given { Takes result self.new (taken_at known.now field (fields_in own.now) self.old) }
        ensures few { self.new.count ≤ MAX_COLOURS }
    {
        match field {
            Field::Steps => self.number = steps_at(first(own))?,
            Field::Cols => {
                let (colours, count) = colour_set(&known.script.colours, first(own))?;
                self.colours = colours;
                self.count = count;
            }
            Field::Colour => self.colour = known.colour_at(first(own))?,
            Field::Region => self.region = known.region_at(first(own))?,
            Field::Text => self.text = text_at(alloc, &known.script.objects, first(own))?,
            Field::Object { kinds } => {
                self.object = object_at(kinds, &known.script.objects, first(own))?;
            }
            Field::Key => self.key = key_at(alloc, first(own))?,
            Field::Value => self.value = value_at(alloc, first(own))?,
            Field::Path { root } => self.path = path_at(alloc, root, first(own))?,
            Field::Target => self.target = path_at(alloc, false, first(own))?,
            Field::Keys { .. } => self.keys = keys_at(alloc, own)?,
            Field::Pairs { .. } => self.pairs = pairs_at(alloc, own)?,
            Field::ObjectColour => self.colour = object_colour(known, first(own))?,
            Field::ObjectColours { alone, .. } => {
                self.order = object_colours(alloc, known, alone, own)?;
            }
        }
        Ok(())
    }

    /// Takes what fields of these kinds give, from left to right.
    #[tactic(auto, unfolding(crate::specs::CommandReadings::given_at))]
    fn take_all(
        &mut self,
        alloc: Global,
        known: &Known,
        fields: &[Field],
        args: &[&[u8]],
    ) -> Result<(), Fault>
        requires small { IsSmall known.now }
        requires few { self.old.count ≤ MAX_COLOURS }
        ensures given { Takes result self.new (given_at known.now fields.now (fields_in args.now) self.old) }
        ensures few { self.new.count ≤ MAX_COLOURS }
    {
        match fields {
            [] => Ok(()),
            [field, fields @ ..] => {
                let (own, later) = field.split(args);
                self.take(alloc, known, *field, own)?;
                self.take_all(alloc, known, fields, later)
            }
        }
    }

    /// What fields of these kinds give.
    pub fn of(
        alloc: Global,
        known: &Known,
        fields: &[Field],
        args: &[&[u8]],
    ) -> Result<Given, Fault>
        requires { IsSmall known.now }
        ensures given { Gives result (given_at known.now fields.now (fields_in args.now) nothing) }
        ensures few { IfOk result (λ given. given.count ≤ MAX_COLOURS) }
    {
        let mut given = Given::new(alloc);
        given.take_all(alloc, known, fields, args)?;
        Ok(given)
    }

    /// What an object is, by what the fields after its name gave.
    pub fn into_kind(self, sort: Sort) -> Kind
        ensures { result ≡ kind_of sort self }
    {
        let home = self.region;
        let colour = self.colour;
        let colours = self.order;
        match sort {
            Sort::Map => Kind::Map { home, colours },
            Sort::Tx => Kind::Tx { home, colours },
            Sort::Causal => Kind::Causal { colour },
            Sort::Queue => Kind::Queue { home, colour },
            Sort::Tree => Kind::Tree { home, colours },
            Sort::Parts => Kind::Parts { home, colours },
        }
    }
}
