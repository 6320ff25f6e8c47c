// The header's lines, but for those of objects.
ghost use Rattle.std.specs.Prelude.{◌≡◌, Ok};
ghost use Rattle.script_text.specs.declared.item.Item.TheVariants.{Begin};
ghost use Rattle.script_text.specs.Pieces.{is_among};
ghost use Rattle.script_text.specs.Items.{header_words, may_declare, may_begin};
ghost use Rattle.script_text.specs.Known.{IsSmall};
ghost use Rattle.script_text.specs.Readings.{Gives, fields_in, with_none, with_one, with_two};
ghost use Rattle.script_text.specs.HeaderReadings.{version_at, regions_at, colour_line_at, rows_at, client_named_at, client_at, headed_at, header_at};

use crate::declared::declared_line;
use crate::fault::Fault;
use crate::item::{Item, Stage};
use crate::known::Known;
use crate::limits::{Limits, ROWS_DIGITS, limits_in};
use crate::names::{new_name, new_names, number_at};
use crate::pieces::{is_number, number_value};
use crate::script::Reason;
use crate::table::Sort;
use std::alloc::Global;

#[tactic(auto, unfolding(crate::specs::HeaderReadings::version_at))]
fn version_line(args: &[&[u8]]) -> Result<Item, Fault>
    ensures { Gives result (version_at (fields_in args.now)) }
{
    match args {
        [version] if *version == b"1".as_slice() => Ok(Item::Version { version: 1 }),
        [version] if *version == b"2".as_slice() => Ok(Item::Version { version: 2 }),
        _ => Err(Fault::Refused(Reason::BadVersion)),
    }
}

#[tactic(auto, unfolding(crate::specs::HeaderReadings::regions_at))]
fn regions_line(alloc: Global, limits: Limits, args: &[&[u8]]) -> Result<Item, Fault>
    ensures { Gives result (regions_at limits (fields_in args.now)) }
{
    if args.is_empty() || args.len() > limits.regions {
        return Err(Fault::Refused(Reason::BadForm));
    }
    let names = new_names(alloc, args)?;
    Ok(Item::Regions { names })
}

#[tactic(auto, unfolding(crate::specs::HeaderReadings::colour_line_at))]
fn colours_line(alloc: Global, limits: Limits, args: &[&[u8]]) -> Result<Item, Fault>
    ensures { Gives result (colour_line_at limits (fields_in args.now)) }
{
    if args.is_empty() || args.len() > limits.colours {
        return Err(Fault::Refused(Reason::BadForm));
    }
    let names = new_names(alloc, args)?;
    Ok(Item::Colours { names })
}

#[tactic(auto, unfolding(crate::specs::HeaderReadings::rows_at))]
fn rows(limits: Limits, field: &[u8]) -> Result<Item, Fault>
    ensures { Gives result (rows_at limits field.now) }
{
    if !is_number(ROWS_DIGITS, field) {
        return Err(Fault::Refused(Reason::BadNumber));
    }
    let number = number_value(field);
    if number < 1 || number > u64::from(limits.rows) {
        return Err(Fault::Refused(Reason::BadNumber));
    }
    Ok(Item::Rows {
        number: number as u32,
    })
}

fn rows_line(limits: Limits, args: &[&[u8]]) -> Result<Item, Fault>
    ensures { Gives result (with_one (rows_at limits) (fields_in args.now)) }
{
    match args {
        [field] => rows(limits, field),
        _ => Err(Fault::Refused(Reason::BadForm)),
    }
}

#[tactic(auto, unfolding(crate::specs::HeaderReadings::client_named_at))]
fn client_named(alloc: Global, known: &Known, field: &[u8], region: &[u8]) -> Result<Item, Fault>
    requires { IsSmall known.now }
    ensures { Gives result (client_named_at known.now field.now region.now) }
{
    let name = new_name(alloc, &known.script.clients, field)?;
    let home = number_at(&known.script.regions, region, Reason::UnknownRegion)?;
    Ok(Item::Client { name, home })
}

#[tactic(auto, unfolding(crate::specs::HeaderReadings::client_at))]
fn client(alloc: Global, known: &Known, field: &[u8], region: &[u8]) -> Result<Item, Fault>
    requires { IsSmall known.now }
    ensures { Gives result (client_at known.now field.now region.now) }
{
    if known.script.clients.len() >= limits_in(known.script.version).clients {
        return Err(Fault::Refused(Reason::BadForm));
    }
    client_named(alloc, known, field, region)
}

fn client_line(alloc: Global, known: &Known, args: &[&[u8]]) -> Result<Item, Fault>
    requires { IsSmall known.now }
    ensures { Gives result (with_two (client_at known.now) (fields_in args.now)) }
{
    match args {
        [field, region] => client(alloc, known, field, region),
        _ => Err(Fault::Refused(Reason::BadForm)),
    }
}

fn begin_line(args: &[&[u8]]) -> Result<Item, Fault>
    ensures { Gives result (with_none (Ok Begin) (fields_in args.now)) }
{
    match args {
        [] => Ok(Item::Begin),
        [_, ..] => Err(Fault::Refused(Reason::BadForm)),
    }
}

fn is_header_word(stage: Stage, word: &[u8]) -> bool
    ensures { result ≡ is_among (header_words stage) word.now }
{
    match stage {
        Stage::Nothing => word == b"fuzzylog".as_slice(),
        Stage::Version => word == b"regions".as_slice(),
        Stage::Regions => word == b"colours".as_slice(),
        Stage::Colours => word == b"rows".as_slice() || word == b"client".as_slice(),
        Stage::Rows => word == b"client".as_slice(),
        Stage::Clients => word == b"client".as_slice() || word == b"begin".as_slice(),
        Stage::Objects => word == b"begin".as_slice(),
        Stage::Commands => false,
    }
}

fn may_declare(stage: Stage) -> bool
    ensures { result ≡ may_declare stage }
{
    matches!(stage, Stage::Clients | Stage::Objects)
}

fn may_begin(version: u8, stage: Stage, word: &[u8]) -> bool
    ensures { result ≡ may_begin version stage word.now }
{
    if is_header_word(stage, word) {
        return true;
    }
    may_declare(stage) && Sort::of_bytes(version, word).is_some()
}

#[tactic(auto, unfolding(crate::specs::HeaderReadings::headed_at))]
fn headed(alloc: Global, known: &Known, word: &[u8], args: &[&[u8]]) -> Result<Item, Fault>
    requires { IsSmall known.now }
    ensures { Gives result (headed_at known.now word.now (fields_in args.now)) }
{
    let limits = limits_in(known.script.version);
    if word == b"fuzzylog".as_slice() {
        version_line(args)
    } else if word == b"regions".as_slice() {
        regions_line(alloc, limits, args)
    } else if word == b"colours".as_slice() {
        colours_line(alloc, limits, args)
    } else if word == b"rows".as_slice() {
        rows_line(limits, args)
    } else if word == b"client".as_slice() {
        client_line(alloc, known, args)
    } else if word == b"begin".as_slice() {
        begin_line(args)
    } else {
        declared_line(alloc, known, word, args)
    }
}

/// What a header line says.
#[tactic(auto, unfolding(crate::specs::HeaderReadings::header_at))]
pub fn header_line(alloc: Global, known: &Known, word: &[u8], args: &[&[u8]]) -> Result<Item, Fault>
    requires { IsSmall known.now }
    ensures { Gives result (header_at known.now word.now (fields_in args.now)) }
{
    if !may_begin(known.script.version, known.stage, word) {
        return Err(Fault::Refused(Reason::BadHeader));
    }
    headed(alloc, known, word, args)
}
