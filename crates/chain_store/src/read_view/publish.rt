// Publishing what the copies lack.
ghost use Rattle.std.specs.Prelude.{◌≡◌, ◌<◌, [], drop, Some, IfSome};
ghost use mathlib.Core.List.{IsPrefix};
ghost use Rattle.left_right.specs.Sides.{view};
ghost use Rattle.turn_cell.specs.Cells.{seen, HasTurn, IsReady};
ghost use Rattle.log_node.specs.Vectors.{zeros};
ghost use Rattle.chain_store.specs.Histories.{HasIds};
ghost use Rattle.chain_store.specs.Columns.{Stands, tag_of};
ghost use Rattle.chain_store.specs.Passes.{IsLawfulTold, ShowsHistory, tag_in};
ghost use Rattle.chain_store.specs.Shown.{shown_view};
ghost use Rattle.chain_store.specs.Copies.{column_in, column_of, column_of_rest, shape_of, IsGood, IsKept, IsNews};
ghost use Rattle.chain_store.specs.Desks.{column_copied, AreKept};

use crate::read_view::copied::{Copied, News};
use crate::read_view::copies::Copies;
use crate::read_view::rule::{Finding, Naming, ViewReader, ViewWriter};
use crate::read_view::shelf::Shelf;
use crate::read_view::shown::{Shown, shared};
use crate::seated::Seated;
use col_core::View;
use left_right::writer::Writer;
use log_node::Counts;
use std::alloc::Global;
use std::sync::Wait;
use turn_cell::{Cell, Pass, Turn};

// Waits for the turn, with a pass that makes nothing.
fn watch<'a, R: Wait>(rt: &R, cell: &'a Cell<Seated>, pass: &mut Pass<Seated>) -> Turn<'a, Seated>
    requires { IsReady tag_of cell.now pass.old }
    ensures turn { HasTurn tag_of cell.now pass.new × (result.cell.now ≡ cell.now) }
    ensures seen { IsPrefix (seen pass.old) (seen pass.new) }
    ensures value { Stands result.value.value (seen pass.new) }
    ensures tag { tag_of result.value.value ≡ tag_in cell.now }
    ensures lawful { IsLawfulTold (tag_in cell.now) (seen pass.new) }
    ensures ids { HasIds (seen pass.new) }
{
    let turn = cell.take(rt, pass);
    turn.value.column.agrees();
    turn
}

// What there is from a cut on.
fn seen_from<R: Wait>(
    rt: &R,
    alloc: Global,
    cell: &Cell<Seated>,
    pass: &mut Pass<Seated>,
    cut: Counts,
) -> Option<View>
    requires { IsReady tag_of cell.now pass.old }
    ensures ready { IsReady tag_of cell.now pass.new }
    ensures seen { IsPrefix (seen pass.old) (seen pass.new) }
    ensures lawful { IsLawfulTold (tag_in cell.now) (seen pass.new) }
    ensures ids { HasIds (seen pass.new) }
    ensures view { IfSome result (λ v. ShowsHistory (tag_in cell.now) (seen pass.new) cut v) }
{
    let turn = watch(rt, cell, pass);
    let view = turn.value.column.look(alloc, cut).ok();
    turn.put(pass);
    view
}

// News of what a pass has seen.
fn news_of(cell: &Cell<Seated>, pass: &mut Pass<Seated>, cut: Counts, view: View) -> News
    requires ready { IsReady tag_of cell.now pass.old }
    requires lawful { IsLawfulTold (tag_in cell.now) (seen pass.old) }
    requires ids { HasIds (seen pass.old) }
    requires view { ShowsHistory (tag_in cell.now) (seen pass.old) cut view }
    ensures ready { IsReady tag_of cell.now pass.new }
    ensures seen { seen pass.new ≡ seen pass.old }
    ensures news { IsNews result pass.new cut }
{
    let _ = cut;
    News {
        view,
        first: cell.lay(cell.split(pass)),
        second: cell.lay(cell.split(pass)),
    }
}

// News wait to be published, or are let go where there is no memory. The answer is the cut with all that waits.
fn log_news(writer: &mut ViewWriter, pass: &Pass<Seated>, cut: Counts, news: News) -> Counts
    requires kept { IsKept writer.old.desk.shown.value (drop writer.old.behind writer.old.log.items) pass.now cut }
    requires news { IsNews news pass.now cut }
    ensures desk { writer.new.desk ≡ writer.old.desk }
    ensures kept { IsKept writer.new.desk.shown.value (drop writer.new.behind writer.new.log.items) pass.now result }
{
    let _ = pass;
    let next = news.view.cut;
    if writer.append(news).is_err() {
        return cut;
    }
    next
}

// Publishes what waits, or leaves it for the next time where there is no memory. Waits for readers of the other copy.
fn publish_logged<R: Wait>(
    rt: &R,
    writer: ViewWriter,
    pass: &Pass<Seated>,
    cut: Counts,
) -> ViewWriter
    requires kept { IsKept writer.desk.shown.value (drop writer.behind writer.log.items) pass.now cut }
    requires knows { view writer.desk.place ≡ Some (column_of pass.now) }
    ensures kept { IsKept result.desk.shown.value (drop result.behind result.log.items) pass.now cut }
    ensures knows { view result.desk.place ≡ Some (column_of pass.now) }
{
    let _ = pass;
    let _ = cut;
    let (writer, _done) = writer.publish_as::<Finding, R>(rt);
    writer
}

// Publishes what a pass has seen from the cut on, where there was memory to look at it. The answer has the cut of the copy with
// all that waits.
fn shows_more<R: Wait>(
    rt: &R,
    cell: &Cell<Seated>,
    pass: &mut Pass<Seated>,
    mut writer: ViewWriter,
    cut: Counts,
    found: Option<View>,
) -> (ViewWriter, Counts)
    requires ready { IsReady tag_of cell.now pass.old }
    requires lawful { IsLawfulTold (tag_in cell.now) (seen pass.old) }
    requires ids { HasIds (seen pass.old) }
    requires found { IfSome found (λ v. ShowsHistory (tag_in cell.now) (seen pass.old) cut v) }
    requires kept { IsKept writer.desk.shown.value (drop writer.behind writer.log.items) pass.old cut }
    requires knows { view writer.desk.place ≡ Some (column_in cell.now) }
    ensures ready { IsReady tag_of cell.now pass.new }
    ensures kept { IsKept result.0.desk.shown.value (drop result.0.behind result.0.log.items) pass.new result.1 }
    ensures knows { view result.0.desk.place ≡ Some (column_in cell.now) }
{
    let Some(view) = found else {
        return (writer, cut);
    };
    let news = news_of(cell, pass, cut, view);
    let cut = log_news(&mut writer, pass, cut, news);
    (publish_logged(rt, writer, pass, cut), cut)
}

// Publishes what the copies lack.
fn go_on<R: Wait>(
    rt: &R,
    alloc: Global,
    cell: &Cell<Seated>,
    copies: &mut Copies,
    writer: ViewWriter,
)
    requires of { column_copied copies.old ≡ column_in cell.now }
    requires kept { IsKept writer.desk.shown.value (drop writer.behind writer.log.items) copies.old.pass copies.old.cut }
    requires knows { view writer.desk.place ≡ Some (column_of copies.old.pass) }
    ensures column { column_copied copies.new ≡ column_copied copies.old }
    ensures kept { AreKept copies.new }
{
    let view = seen_from(rt, alloc, cell, &mut copies.pass, copies.cut);
    let (writer, cut) = shows_more(rt, cell, &mut copies.pass, writer, copies.cut, view);
    copies.cut = cut;
    copies.shelf = Some(Shelf::of(writer));
}

// A copy of what a pass has seen.
fn copied(cell: &Cell<Seated>, pass: &mut Pass<Seated>, view: View) -> Copied
    requires ready { IsReady tag_of cell.now pass.old }
    requires lawful { IsLawfulTold (tag_in cell.now) (seen pass.old) }
    requires ids { HasIds (seen pass.old) }
    requires view { ShowsHistory (tag_in cell.now) (seen pass.old) zeros view }
    ensures ready { IsReady tag_of cell.now pass.new }
    ensures seen { seen pass.new ≡ seen pass.old }
    ensures good { IsGood (shape_of result) }
    ensures shown { shown_view result.shown ≡ view }
    ensures rest { ((shape_of result).seen ≡ seen pass.new) × (column_of_rest result.rest ≡ column_of pass.new) }
{
    Copied {
        shown: Shown::of(view),
        rest: cell.lay(cell.split(pass)),
    }
}

// Shows the first copy, so that the writer knows the column.
fn shown_first<R: Wait>(
    rt: &R,
    writer: ViewWriter,
    pass: &Pass<Seated>,
    cut: Counts,
) -> Option<ViewWriter>
    requires none { drop writer.behind writer.log.items ≡ [] }
    requires good { IsGood (shape_of writer.desk.shown.value) }
    requires of { column_of_rest writer.desk.shown.value.rest ≡ column_of pass.now }
    requires seen { (shape_of writer.desk.shown.value).seen ≡ seen pass.now }
    requires cut { (shape_of writer.desk.shown.value).view.cut ≡ cut }
    ensures kept { IfSome result (λ w. IsKept w.desk.shown.value (drop w.behind w.log.items) pass.now cut) }
    ensures knows { IfSome result (λ w. view w.desk.place ≡ Some (column_of pass.now)) }
{
    let _ = pass;
    let _ = cut;
    let (writer, done) = writer.publish_as::<Finding, R>(rt);
    match done {
        Ok(()) => Some(writer),
        Err(_) => {
            drop(writer.take(rt));
            None
        }
    }
}

// Two copies of all that there is, with places for so many readers, if there is memory.
fn begin<R: Wait>(
    rt: &R,
    alloc: Global,
    cell: &Cell<Seated>,
    copies: &mut Copies,
    readers: u8,
) -> Option<ViewWriter>
    requires of { column_copied copies.old ≡ column_in cell.now }
    requires some { 0 < readers }
    ensures column { column_copied copies.new ≡ column_copied copies.old }
    ensures shelf { copies.new.shelf ≡ copies.old.shelf }
    ensures kept { IfSome result (λ w. IsKept w.desk.shown.value (drop w.behind w.log.items) copies.new.pass copies.new.cut) }
    ensures knows { IfSome result (λ w. view w.desk.place ≡ Some (column_of copies.new.pass)) }
{
    let pass = &mut copies.pass;
    let view = seen_from(rt, alloc, cell, pass, Counts::zeros())?;
    let cut = view.cut;
    let other = shared(alloc, &view).ok()?;
    let first = copied(cell, pass, view);
    let second = copied(cell, pass, other);
    let writer = Writer::new(alloc, first, second, readers as usize).ok()?;
    copies.cut = cut;
    shown_first(rt, writer, &copies.pass, cut)
}

/// Publishes what the copies lack of all that there is at a turn of the column; the first time there are copies from then
/// on, with places for so many readers. Without memory the next time tries again.
pub(crate) fn publish<R: Wait>(
    rt: &R,
    alloc: Global,
    cell: &Cell<Seated>,
    copies: &mut Copies,
    readers: u8,
)
    requires of { column_copied copies.old ≡ column_in cell.now }
    requires kept { AreKept copies.old }
    requires some { 0 < readers }
    ensures column { column_copied copies.new ≡ column_copied copies.old }
    ensures kept { AreKept copies.new }
{
    match copies.shelf.take() {
        Some(shelf) => go_on(rt, alloc, cell, copies, shelf.into_writer()),
        None => {
            if let Some(writer) = begin(rt, alloc, cell, copies, readers) {
                copies.shelf = Some(Shelf::of(writer));
            }
        }
    }
}

// A reader that knows what the writer knows, if there is a place and memory for it.
fn reader_of(writer: &mut ViewWriter) -> Option<ViewReader>
    ensures same { (writer.new.desk.shown ≡ writer.old.desk.shown) × (writer.new.log ≡ writer.old.log)
        × (writer.new.behind ≡ writer.old.behind) × (view writer.new.desk.place ≡ view writer.old.desk.place) }
    ensures knows { IfSome result (λ r. view r.place ≡ view writer.old.desk.place) }
{
    let mut reader = writer.factory().reader().ok()?;
    reader.learn::<Naming>(writer.tell::<Naming>());
    Some(reader)
}

impl Copies {
    /// A reader of the copies; `None` where there are none, or no memory or place for it.
    pub(crate) fn reader(&mut self) -> Option<ViewReader>
        requires kept { AreKept self.old }
        ensures kept { AreKept self.new }
        ensures column { column_copied self.new ≡ column_copied self.old }
        ensures knows { IfSome result (λ r. view r.place ≡ Some (column_copied self.old)) }
    {
        let mut writer = self.shelf.take()?.into_writer();
        let reader = reader_of(&mut writer);
        self.shelf = Some(Shelf::of(writer));
        reader
    }

    /// The end of the copies: their memory is freed. Waits for readers.
    pub(crate) fn end<R: Wait>(self, rt: &R) {
        let Copies {
            pass: _,
            cut: _,
            shelf,
        } = self;
        if let Some(shelf) = shelf {
            drop(shelf.into_writer().take(rt));
        }
    }
}
