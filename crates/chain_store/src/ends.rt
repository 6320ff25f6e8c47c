// A column's beginning and end.
ghost use Rattle.std.specs.Prelude.{◌≡◌, ◌<◌, ◌≤◌, length, IfOk};
ghost use Rattle.stamp_board.specs.Seats.{IsFreshColumn};
ghost use Rattle.ring_ends.specs.Rings.{names_of, IsForRegions};
ghost use Rattle.ring_ends.specs.NewRings.{AreUnused};
ghost use Rattle.chain_store.specs.Passes.{IsCellOf, tag_in};
ghost use Rattle.chain_store.specs.Ends.{AreNewHolders, AreHolders, EndsAs};

use crate::seated::{CLIENTS, Seated};
use column::Column;
use log_node::{MAX_COLOURS, MAX_REGIONS, Shape};
use ring_ends::Rings;
use stamp_board::{Board, ColumnSeat};
use std::alloc::{AllocError, Global};
use std::sync::Wait;
use turn_cell::{Cell, Passes};

/// A column with nothing in it, with rings through which nothing has gone, and a pass for each client.
pub fn open_column(
    alloc: Global,
    board: &Board,
    seat: ColumnSeat,
    region: u8,
    colour: u8,
    shape: &Shape,
    rings: Rings,
    clients: u8,
) -> Result<(Cell<Seated>, Passes<Seated>), AllocError>
    requires seat { IsFreshColumn board.now seat colour }
    requires region { region < shape.now.regions }
    requires colour { colour < MAX_COLOURS }
    requires regions { shape.now.regions ≤ MAX_REGIONS }
    requires clients { 0 < clients }
    requires rings { IsForRegions shape.now.regions rings }
    requires unused { AreUnused rings }
    ensures cell { IfOk result (λ r. IsCellOf board.now region colour shape.now.regions r.0) }
    ensures rings { IfOk result (λ r. (tag_in r.0).rings ≡ names_of rings) }
    ensures passes { IfOk result (λ r. AreNewHolders r.0 clients r.1) }
{
    let column = Column::open(alloc, region, colour, shape)?;
    let seated = Seated {
        column,
        rings,
        seat,
        entered: [0; CLIENTS],
    };
    Cell::open(alloc, seated, clients)
}

/// All passes of a column meet. It stands for one history, which begins with what each client has seen, and has of each
/// client just what it made.
pub fn close_column<R: Wait>(rt: &R, cell: Cell<Seated>, passes: Passes<Seated>) -> Seated
    requires some { 0 < length passes }
    requires holders { AreHolders cell passes }
    ensures { EndsAs (tag_in cell) passes result }
{
    let seated = cell.close_all(rt, passes);
    seated.column.agrees();
    seated
}
