// Looks at the copies, which wait for nobody.
ghost use Rattle.std.specs.Prelude.{◌≡◌, [], IfSome, IsTrue, None, Some};
ghost use Rattle.left_right.specs.Sides.{view};
ghost use Rattle.turn_cell.specs.Cells.{seen, own, met, IsReady};
ghost use Rattle.turn_cell.specs.Rests.{rest_seen, IsRestOf};
ghost use Rattle.chain_store.specs.Columns.{tag_of};
ghost use Rattle.chain_store.specs.Looking.{ShowsOn};
ghost use Rattle.chain_store.specs.Passes.{IsHolder, SeesMore, ShowsHistory, tag_in};
ghost use Rattle.chain_store.specs.Copies.{column_in, column_of_rest, shape_of, IsGood};

use crate::looks::Looked;
use crate::read_view::copied::Copied;
use crate::read_view::rule::{Finding, ViewReader};
use crate::seated::Seated;
use crate::told::{Tag, Told};
use col_core::View;
use core::hint::spin_loop;
use log_node::Counts;
use std::alloc::Global;
use turn_cell::{Cell, Pass, Rest};

// How often a pass is tried of which another is making its own.
const TRIES: usize = 16;

// A pass that has seen as much as the one that rests; `None` where others make their own of it all the time.
fn pass_of(cell: &Cell<Seated>, rest: &Rest<Told, Tag>) -> Option<Pass<Seated>>
    requires { IsRestOf tag_of cell.now rest.now }
    ensures { IfSome result (λ p. IsReady tag_of cell.now p × (seen p ≡ rest_seen rest.now) × (own p ≡ None) × (met p ≡ [])) }
{
    for _ in 0..TRIES {
        if let Some(pass) = cell.copy(rest) {
            return Some(pass);
        }
        spin_loop();
    }
    None
}

// Whether the copy shows no less than the pass has seen, which has then seen just what it shows.
fn meets(cell: &Cell<Seated>, pass: &mut Pass<Seated>, by: u8, copy: &Copied) -> bool
    requires pass { IsHolder cell.now by pass.old }
    requires copy { IsGood (shape_of copy.now) × (column_of_rest copy.now.rest ≡ column_in cell.now) }
    ensures pass { IsHolder cell.now by pass.new × SeesMore by (seen pass.old) (seen pass.new) }
    ensures seen { IsTrue result → seen pass.new ≡ rest_seen copy.now.rest }
{
    let _ = by;
    if copy.rest.count() < pass.count() {
        return false;
    }
    match pass_of(cell, &copy.rest) {
        Some(told) => {
            cell.meet(pass, told);
            true
        }
        None => false,
    }
}

// What the copy shows from these counts on.
fn shown_from(
    alloc: Global,
    cell: &Cell<Seated>,
    pass: &mut Pass<Seated>,
    by: u8,
    copy: &Copied,
    from: Counts,
) -> Option<View>
    requires pass { IsHolder cell.now by pass.old }
    requires copy { IsGood (shape_of copy.now) × (column_of_rest copy.now.rest ≡ column_in cell.now) }
    ensures pass { IsHolder cell.now by pass.new × SeesMore by (seen pass.old) (seen pass.new) }
    ensures view { IfSome result (λ v. ShowsHistory (tag_in cell.now) (seen pass.new) from v) }
{
    if !meets(cell, pass, by, copy) {
        return None;
    }
    copy.shown.look(alloc, from).ok()
}

// What it shows to one who goes on from these counts.
fn shown_on_from(
    alloc: Global,
    cell: &Cell<Seated>,
    pass: &mut Pass<Seated>,
    by: u8,
    copy: &Copied,
    from: Counts,
) -> Option<Looked>
    requires pass { IsHolder cell.now by pass.old }
    requires copy { IsGood (shape_of copy.now) × (column_of_rest copy.now.rest ≡ column_in cell.now) }
    ensures pass { IsHolder cell.now by pass.new × SeesMore by (seen pass.old) (seen pass.new) }
    ensures looked { IfSome result (ShowsOn (tag_in cell.now) (seen pass.new) from) }
{
    if !meets(cell, pass, by, copy) {
        return None;
    }
    copy.shown.look_on(alloc, from).ok()
}

/// A look that does not wait: what the copy shows, which is then all that the pass has seen. `None` where the copy has fewer
/// events than the pass has seen, where others keep making their own of the pass in it, or where there is no memory.
pub(crate) fn look_beside(
    alloc: Global,
    cell: &Cell<Seated>,
    pass: &mut Pass<Seated>,
    by: u8,
    reader: ViewReader,
    from: Counts,
) -> (ViewReader, Option<View>)
    requires pass { IsHolder cell.now by pass.old }
    requires reader { view reader.place ≡ Some (column_in cell.now) }
    ensures pass { IsHolder cell.now by pass.new × SeesMore by (seen pass.old) (seen pass.new) }
    ensures view { IfSome result.1 (λ v. ShowsHistory (tag_in cell.now) (seen pass.new) from v) }
    ensures reader { view result.0.place ≡ Some (column_in cell.now) }
{
    match reader.enter_as::<Finding>() {
        Ok(reading) => {
            let view = shown_from(alloc, cell, pass, by, reading.get(), from);
            (reading.leave(), view)
        }
        Err(reader) => (reader, None),
    }
}

/// The same for one who goes on from these counts.
pub(crate) fn look_on_beside(
    alloc: Global,
    cell: &Cell<Seated>,
    pass: &mut Pass<Seated>,
    by: u8,
    reader: ViewReader,
    from: Counts,
) -> (ViewReader, Option<Looked>)
    requires pass { IsHolder cell.now by pass.old }
    requires reader { view reader.place ≡ Some (column_in cell.now) }
    ensures pass { IsHolder cell.now by pass.new × SeesMore by (seen pass.old) (seen pass.new) }
    ensures looked { IfSome result.1 (ShowsOn (tag_in cell.now) (seen pass.new) from) }
    ensures reader { view result.0.place ≡ Some (column_in cell.now) }
{
    match reader.enter_as::<Finding>() {
        Ok(reading) => {
            let looked = shown_on_from(alloc, cell, pass, by, reading.get(), from);
            (reading.leave(), looked)
        }
        Err(reader) => (reader, None),
    }
}
