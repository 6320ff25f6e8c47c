// The header's lines of objects.
ghost use Rattle.std.specs.Prelude.{◌≡◌};
ghost use Rattle.script_text.specs.Known.{IsSmall};
ghost use Rattle.script_text.specs.Table.{sort_at};
ghost use Rattle.script_text.specs.Readings.{Gives, fields_in};
ghost use Rattle.script_text.specs.HeaderReadings.{object_name_at, sorted_at, declared_at};

use crate::fault::Fault;
use crate::given::Given;
use crate::item::Item;
use crate::known::Known;
use crate::limits::limits_in;
use crate::pieces::is_name;
use crate::script::{Object, Reason};
use crate::table::{Sort, fits};
use log_node::Text;
use std::alloc::Global;

/// A new object's name, where there is room for one.
#[tactic(auto, unfolding(crate::specs::HeaderReadings::object_name_at, crate::specs::Readings::new_name_at))]
fn object_name(alloc: Global, known: &Known, field: &[u8]) -> Result<Text, Fault>
    ensures { Gives result (object_name_at known.now field.now) }
{
    if known.script.objects.len() >= limits_in(known.script.version).objects {
        return Err(Fault::Refused(Reason::BadForm));
    }
    if !is_name(field) {
        return Err(Fault::Refused(Reason::BadName));
    }
    if known.script.objects.has(field) {
        return Err(Fault::Refused(Reason::NameRepeated));
    }
    Ok(Text::copied(alloc, field)?)
}

/// What the line of an object of this sort says.
#[tactic(auto, unfolding(crate::specs::HeaderReadings::sorted_at))]
fn sorted(alloc: Global, known: &Known, sort: Sort, args: &[&[u8]]) -> Result<Item, Fault>
    requires { IsSmall known.now }
    ensures { Gives result (sorted_at known.now sort (fields_in args.now)) }
{
    let [field, args @ ..] = args else {
        return Err(Fault::Refused(Reason::BadForm));
    };
    let (_, fields, _) = sort.row();
    if !fits(fields, args) {
        return Err(Fault::Refused(Reason::BadForm));
    }
    // One field more than there may be colours: the home's.
    if args.len() > limits_in(known.script.version).colours + 1 {
        return Err(Fault::Refused(Reason::BadForm));
    }
    let name = object_name(alloc, known, field)?;
    let given = Given::of(alloc, known, fields, args)?;
    let kind = given.into_kind(sort);
    Ok(Item::Declared {
        object: Object { name, kind },
    })
}

/// What an object's line says.
#[tactic(auto, unfolding(crate::specs::HeaderReadings::declared_at))]
pub fn declared_line(
    alloc: Global,
    known: &Known,
    word: &[u8],
    args: &[&[u8]],
) -> Result<Item, Fault>
    requires { IsSmall known.now }
    ensures { Gives result (declared_at known.now (sort_at known.now.script.version word.now) (fields_in args.now)) }
{
    match Sort::of_bytes(known.script.version, word) {
        Some(sort) => sorted(alloc, known, sort, args),
        None => Err(Fault::Refused(Reason::BadHeader)),
    }
}
