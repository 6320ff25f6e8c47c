// A column at the end of the stamps, and a part of another region's line that leaves a gap.
ghost use Rattle.std.specs.Prelude.{◌≡◌, ◌<◌, IfOk};
ghost use Rattle.column.specs.Columns.{new_column};

use crate::tests::made::{key_of, pair};
use column::{Column, ColumnFault, Given, OnlyFault};
use log_node::{At, Counts, Head, Item, ListOf, MAX_STAMP, Shape};
use std::alloc::{AllocError, Global};
use std::test::Fail;

// The column of a region, of two, and the colour 0.
fn open(alloc: Global, region: u8) -> Result<Column, AllocError>
    requires { region < 2 }
    ensures { IfOk result (λ column. column ≡ new_column region 0 2) }
{
    let shape = Shape {
        regions: 2,
        colours: 1,
        homes: ListOf::new(alloc),
        rows: 1,
    };
    Column::open(alloc, region, 0, &shape)
}

// The clock is raised to the last stamp; the answer is what a node is told that comes then.
fn raised(alloc: Global, column: &mut Column) -> Result<Result<(At, u64), ColumnFault>, AllocError>
    requires { column.old ≡ new_column 0 0 2 }
{
    column.raise(0, MAX_STAMP)?;
    let node = pair(alloc, 0, 0)?;
    Ok(column.single(0, node))
}

#[test]
fn none_enters_after_the_last_stamp(rt: HostRuntime) -> Result<(), Fail> {
    let mut column = open(rt.alloc(), 0)?;
    let answer = raised(rt.alloc(), &mut column)?;
    let end = ColumnFault::StampEnd { clock: MAX_STAMP };
    assert_eq!(rt; answer, Err(end));
    assert_eq!(rt; column.room(0), Err(end));
    assert_eq!(rt; (column.clock(), column.journal().len()), (MAX_STAMP, 1));
    assert!(rt; column.line().is_empty());
    Ok(())
}

// The same of a node that comes then and may only stand next.
fn raised_then_next(
    alloc: Global,
    column: &mut Column,
) -> Result<Result<(At, u64), OnlyFault>, AllocError>
    requires { column.old ≡ new_column 0 0 2 }
{
    column.raise(0, MAX_STAMP)?;
    let node = pair(alloc, 0, 0)?;
    Ok(column.only(0, node))
}

#[test]
fn none_stands_next_after_the_last_stamp(rt: HostRuntime) -> Result<(), Fail> {
    let mut column = open(rt.alloc(), 0)?;
    let answer = raised_then_next(rt.alloc(), &mut column)?;
    let end = OnlyFault::StampEnd {
        colour: 0,
        clock: MAX_STAMP,
    };
    assert_eq!(rt; answer, Err(end));
    assert_eq!(rt; (column.clock(), column.journal().len()), (MAX_STAMP, 1));
    Ok(())
}

// One node of the region 0's line, from the position 1 on.
fn second(alloc: Global) -> Result<Given, AllocError> {
    let node = pair(alloc, 1, 0)?;
    let head = Head {
        key: key_of(2, 1, 0),
        needs: Counts([0; 4]),
    };
    let mut items = ListOf::new(alloc);
    items.push(Item { head, node })?;
    Ok(Given { start: 1, items })
}

#[test]
fn a_part_that_leaves_a_gap_is_not_carried(rt: HostRuntime) -> Result<(), Fail> {
    let given = second(rt.alloc())?;
    let mut column = open(rt.alloc(), 1)?;
    assert_eq!(rt; column.carry(rt.alloc(), 2, 0, &given)?, (At::Look(0), 0));
    assert_eq!(rt; column.held(), Counts([0; 4]));
    Ok(())
}
