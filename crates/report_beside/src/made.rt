// Texts of a report's parts, made apart.
ghost use Rattle.std.specs.Prelude.{OnOk};
ghost use Rattle.std.specs.Io.KnownBytes.{Appends};
ghost use Rattle.std.specs.List.{flat_map};
ghost use Rattle.report_text.specs.Output.{Adds};
ghost use Rattle.report_beside.specs.Made.{IsMade, AreMade};

use fuzzy_io::{Failed, MemorySink, Sink};
use report_text::{NameIndex, Output, Page, Printed};
use std::alloc::Global;

// Writes the text of an item to a sink.
fn print_into<T: Printed, K: Sink>(
    item: &T,
    names: &NameIndex<'_>,
    sink: &mut K,
) -> Result<(), Failed>
    ensures { OnOk result (Appends (K.holds sink.old) (K.holds sink.new) (T.text names.now item.now)) }
{
    let mut page = Page::over(sink);
    item.print(names, &mut page);
    page.finish()
}

/// The text of an item; nothing where there is no memory for it.
pub fn made_text<T: Printed>(alloc: Global, item: &T, names: &NameIndex<'_>) -> Option<MemorySink>
    ensures { IsMade (T.text names.now item.now) result }
{
    let Ok(mut text) = MemorySink::open(alloc, u32::MAX, &[]) else {
        return None;
    };
    match print_into(item, names, &mut text) {
        Ok(()) => Some(text),
        Err(Failed) => None,
    }
}

// An item by the text that was made for it, or printed here where there is none.
fn put_made<T: Printed, O: Output>(
    item: &T,
    text: &Option<MemorySink>,
    names: &NameIndex<'_>,
    out: &mut O,
)
    requires { IsMade (T.text names.now item.now) text.now }
    ensures { Adds (O.state out.old) (O.state out.new) (T.text names.now item.now) }
{
    match text {
        Some(made) => out.put(made.bytes()),
        None => item.print(names, out),
    }
}

/// The items one after another, by the texts that were made for them.
pub fn put_each<T: Printed, O: Output>(
    items: &[T],
    texts: &[Option<MemorySink>],
    names: &NameIndex<'_>,
    out: &mut O,
)
    requires { AreMade (T.text names.now) items.now texts.now }
    ensures { Adds (O.state out.old) (O.state out.new) (flat_map (T.text names.now) items.now) }
{
    for (place, item) in items.iter().enumerate() {
        match texts.get(place) {
            Some(text) => put_made(item, text, names, out),
            None => item.print(names, out),
        }
    }
}
