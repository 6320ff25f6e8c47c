// The order of delivery, and rows that end without a stamp.
ghost use Rattle.std.specs.Prelude.{◌≡◌, ◌∷◌, [], IfOk};
ghost use Rattle.skeen_core.specs.Boards.{fresh_row};

use crate::tests::made::{key_of, pair};
use log_node::{Id, Mark, Marked, Outcome, Row, Why};
use skeen_core::{Queue, Rows, outcome};
use std::alloc::{AllocError, Global};
use std::test::Fail;

const ROW: Row = Row {
    client: 0,
    number: 0,
};

// The id of a client's first node.
fn first_id(client: u8) -> Id
    ensures { result ≡ record { client = client; count = 0 } }
{
    Id { client, count: 0 }
}

#[test]
fn a_tie_is_broken_by_ids(rt: HostRuntime) -> Result<(), Fail> {
    let mut queue = Queue::open(rt.alloc());
    queue.room()?;
    assert_eq!(rt; queue.propose(first_id(0), 0, 'a'), 1);
    queue.room()?;
    assert_eq!(rt; queue.enter(first_id(1), 0, 'b'), 2);
    assert!(rt; queue.settle(first_id(0), Outcome::Final(2)));
    assert_eq!(rt; queue.line(), [key_of(2, 0, 0), key_of(2, 1, 0)].as_slice());
    assert_eq!(rt; queue.kept().1, ['a', 'b'].as_slice());
    Ok(())
}

#[test]
fn a_final_entry_waits_behind_a_smaller_open_one(rt: HostRuntime) -> Result<(), Fail> {
    let mut queue = Queue::open(rt.alloc());
    queue.room()?;
    assert_eq!(rt; queue.propose(first_id(1), 0, 'a'), 1);
    queue.room()?;
    assert_eq!(rt; queue.propose(first_id(0), 0, 'b'), 2);
    assert!(rt; queue.settle(first_id(0), Outcome::Final(3)));
    assert!(rt; queue.line().is_empty());
    assert_eq!(rt; queue.waiting().len(), 2);
    assert_eq!(rt; queue.waiting()[0].key, key_of(1, 1, 0));
    assert!(rt; queue.waiting()[1].settled);
    assert!(rt; queue.settle(first_id(1), Outcome::Gone(Why::Memory)));
    assert_eq!(rt; queue.line(), [key_of(3, 0, 0)].as_slice());
    assert!(rt; queue.waiting().is_empty());
    Ok(())
}

#[test]
fn the_end_of_the_stamps_is_told_before_want_of_memory(rt: HostRuntime) -> Result<(), Fail> {
    let memory = Mark::Fenced(Why::Memory);
    let end = Mark::Fenced(Why::StampEnd);
    assert_eq!(rt;
        outcome(&[memory, Mark::Number(1), end]),
        Outcome::Gone(Why::StampEnd)
    );
    assert_eq!(rt;
        outcome(&[memory, Mark::Number(1)]),
        Outcome::Gone(Why::Memory)
    );
    assert_eq!(rt; outcome(&[end, Mark::None]), Outcome::Open);
    assert_eq!(rt;
        outcome(&[Mark::Number(1), Mark::Number(2)]),
        Outcome::Final(2)
    );
    Ok(())
}

// A board with one row, which is begun.
fn begun_board(alloc: Global) -> Result<Rows, AllocError>
    ensures { let row = fresh_row (record { client = 0; count = 0 }) (record { 0 = 3 }) in
        IfOk result (λ board. board ≡ record { colours = 2; rows = 1; begun = (row ∷ []) ∷ [] }) }
{
    let mut board = Rows::open(alloc, 1, 2, 1)?;
    let node = pair(alloc, 0, 0)?;
    match board.begin(0, &node) {
        Ok(_) => Ok(board),
        Err(_) => unreachable!(),
    }
}

#[test]
fn the_first_mark_stands_and_a_fence_ends_a_row(rt: HostRuntime) -> Result<(), Fail> {
    let memory = Why::Memory;
    let mut board = begun_board(rt.alloc())?;
    assert_eq!(rt; board.mark(0, ROW, 7), Marked::Set);
    assert_eq!(rt; board.mark(0, ROW, 9), Marked::Already(Mark::Number(7)));
    assert_eq!(rt; board.read(0, ROW, 0), Mark::Number(7));
    assert_eq!(rt; board.decide(0, ROW), Outcome::Open);
    assert_eq!(rt; board.fence(1, ROW, memory), Mark::Fenced(memory));
    assert_eq!(rt; board.decide(0, ROW), Outcome::Gone(memory));
    assert_eq!(rt; board.last(0, ROW), Outcome::Gone(memory));
    Ok(())
}
