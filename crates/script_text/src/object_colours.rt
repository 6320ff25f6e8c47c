// The colours of a new object: distinct ones, of which none is taken.
ghost use Rattle.std.specs.Prelude.{false, []};
ghost use Rattle.script_text.specs.Known.{IsSmall};
ghost use Rattle.script_text.specs.Readings.{Gives, fields_in, object_colour_at, object_colours_at};

use crate::fault::Fault;
use crate::known::Known;
use crate::names::colour_at;
use crate::script::Reason;
use log_node::{ColourList, ListOf};
use std::alloc::Global;

/// The number of a colour of a new object: none that the earlier fields name, and none that is taken.
#[tactic(auto, unfolding(crate::specs::Readings::object_colour_at))]
fn free_colour(known: &Known, alone: bool, earlier: &[&[u8]], field: &[u8]) -> Result<u8, Fault>
    requires { IsSmall known.now }
    ensures { Gives result (object_colour_at known.now.script.objects known.now.script.colours alone (fields_in earlier.now) field.now) }
{
    let colour = colour_at(&known.script.colours, earlier, field)?;
    if known.script.objects.have_taken(alone, colour) {
        return Err(Fault::Refused(Reason::ColourTaken));
    }
    Ok(colour)
}

/// The number of the only colour of a new object.
pub fn object_colour(known: &Known, field: &[u8]) -> Result<u8, Fault>
    requires { IsSmall known.now }
    ensures { Gives result (object_colour_at known.now.script.objects known.now.script.colours false [] field.now) }
{
    free_colour(known, false, &[], field)
}

/// The numbers of a new object's distinct colours; whether it keeps them to itself.
pub fn object_colours(
    alloc: Global,
    known: &Known,
    alone: bool,
    fields: &[&[u8]],
) -> Result<ColourList, Fault>
    requires { IsSmall known.now }
    ensures { Gives result (object_colours_at known.now.script.objects known.now.script.colours alone (fields_in fields.now)) }
{
    let mut colours = ListOf::new(alloc);
    for (place, field) in fields.iter().enumerate() {
        let colour = free_colour(known, alone, &fields[..place], field)?;
        colours.push(colour)?;
    }
    Ok(colours)
}
