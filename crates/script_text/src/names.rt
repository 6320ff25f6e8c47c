// Names in a line: new ones, and those that the header has named.
ghost use Rattle.std.specs.Prelude.{◌≡◌, ◌≤◌, ◌<◌, [], length, IfOk};
ghost use Rattle.log_node.specs.declared.limits.TheConstants.{MAX_COLOURS};
ghost use Rattle.script_text.specs.Pieces.{is_among, names_in};
ghost use Rattle.script_text.specs.Readings.{Gives, fields_in, number_at, new_name_at, new_names_at, colour_at, fresh_colour_at, colours_set_at, text_at};

use crate::fault::Fault;
use crate::name_set::NameSet;
use crate::objects::Objects;
use crate::pieces::{behind, comma_front, is_name, is_text, is_transactional};
use crate::script::Reason;
use log_node::{Colours, Text};
use std::alloc::Global;

/// A name that is new among these.
#[tactic(auto, unfolding(crate::specs::Readings::new_name_at))]
pub fn new_name(alloc: Global, names: &NameSet, field: &[u8]) -> Result<Text, Fault>
    ensures { Gives result (new_name_at names.now field.now) }
{
    if !is_name(field) {
        return Err(Fault::Refused(Reason::BadName));
    }
    if names.has(field) {
        return Err(Fault::Refused(Reason::NameRepeated));
    }
    Ok(Text::copied(alloc, field)?)
}

/// New names, each apart from those before it.
pub fn new_names(alloc: Global, fields: &[&[u8]]) -> Result<NameSet, Fault>
    ensures { Gives result (new_names_at (fields_in fields.now)) }
{
    let mut names = NameSet::new(alloc);
    for field in fields {
        let name = new_name(alloc, &names, field)?;
        names.push(name)?;
    }
    Ok(names)
}

/// The number of a name among these, or else the reason.
#[tactic(auto, unfolding(crate::specs::Readings::number_at))]
#[inline(always)]
pub fn number_at(names: &NameSet, field: &[u8], why: Reason) -> Result<u8, Fault>
    requires { length names.now ≤ 256 }
    ensures { Gives result (number_at why names.now field.now) }
{
    match names.number_of(field) {
        Some(number) => Ok(number),
        None => Err(Fault::Refused(why)),
    }
}

fn is_repeated(earlier: &[&[u8]], field: &[u8]) -> bool
    ensures { result ≡ is_among (fields_in earlier.now) field.now }
{
    earlier.iter().any(|other| field == *other)
}

/// The number of a colour that none of the earlier fields names.
#[tactic(auto, unfolding(crate::specs::Readings::colour_at))]
pub fn colour_at(names: &NameSet, earlier: &[&[u8]], field: &[u8]) -> Result<u8, Fault>
    requires { length names.now ≤ 256 }
    ensures value { Gives result (colour_at names.now (fields_in earlier.now) field.now) }
    ensures below { IfOk result (λ c. c < length names.now) }
{
    let colour = number_at(names, field, Reason::UnknownColour)?;
    if is_repeated(earlier, field) {
        return Err(Fault::Refused(Reason::ColourRepeated));
    }
    Ok(colour)
}

/// The number of a colour that is not in the set.
#[tactic(auto, unfolding(crate::specs::Readings::fresh_colour_at))]
fn new_colour(names: &NameSet, set: Colours, field: &[u8]) -> Result<u8, Fault>
    requires { length names.now ≤ MAX_COLOURS }
    ensures value { Gives result (fresh_colour_at names.now set field.now) }
    ensures below { IfOk result (λ c. c < length names.now) }
{
    let colour = number_at(names, field, Reason::UnknownColour)?;
    if set.has(colour) {
        return Err(Fault::Refused(Reason::ColourRepeated));
    }
    Ok(colour)
}

/// The set of the colours whose names stand between commas, and their number.
#[tactic(auto, unfolding(crate::specs::Readings::colours_set_at))]
#[inline]
pub fn colour_set(names: &NameSet, cols: &[u8]) -> Result<(Colours, usize), Fault>
    requires { length names.now ≤ MAX_COLOURS }
    ensures value { Gives result (colours_set_at names.now (names_in cols.now)) }
    ensures few { IfOk result (λ s. s.1 ≤ MAX_COLOURS) }
{
    let mut set = Colours::NONE;
    let mut count = 0;
    let mut rest = cols;
    loop {
        let end = comma_front(rest);
        let colour = new_colour(names, set, &rest[..end])?;
        set = set.with(colour);
        count += 1;
        if end >= rest.len() {
            return Ok((set, count));
        }
        rest = behind(rest, end);
    }
}

/// A node's text, which none of the objects reserves.
#[tactic(auto, unfolding(crate::specs::Readings::text_at))]
pub fn text_at(alloc: Global, objects: &Objects, field: &[u8]) -> Result<Text, Fault>
    ensures { Gives result (text_at objects.now field.now) }
{
    if !is_text(field) {
        return Err(Fault::Refused(Reason::TextLength));
    }
    if is_transactional(field) && objects.has_parts() {
        return Err(Fault::Refused(Reason::ReservedText));
    }
    Ok(Text::copied(alloc, field)?)
}
