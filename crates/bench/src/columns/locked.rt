// Threads that append at columns behind locks.
ghost use Rattle.std.specs.Prelude.{◌≡◌, ◌<◌, ◌^◌, length};
ghost use Rattle.chain_store.specs.Entered.{AreBelow};
ghost use Rattle.bench.specs.Nodes.{IsAppended};

use crate::columns::nodes::node;
use column::{Column, ColumnFault};
use log_node::{At, ListOf, Node, Shape};
use std::alloc::{AllocError, Global};
use std::sync::{Arc, Mutex, Wait};
use std::thread;
use std::thread::Threads;

/// The column of the region 0 and the colour 0, which takes ids in rising count as one under turns does.
#[derive(Drop)]
pub struct Locked {
    pub column: Column,
    pub entered: [u64; 4],
    ghost region: { column.region ≡ 0 },
    ghost colour: { column.colour ≡ 0 },
    ghost all: { length entered ≡ 4 },
    ghost above: { AreBelow column.journal entered },
}

impl Locked {
    fn open(alloc: Global) -> Result<Locked, AllocError> {
        let shape = Shape {
            regions: 1,
            colours: 1,
            homes: ListOf::new(alloc),
            rows: 1,
        };
        let column = Column::open(alloc, 0, 0, &shape)?;
        Ok(Locked {
            column,
            entered: [0; 4],
        })
    }

    fn single(&mut self, by: u8, count: u64, node: &Arc<Node>) -> Result<(At, u64), ColumnFault>
        requires by { by < 4 }
        requires count { count < 2 ^ 63 }
        requires node { IsAppended by count node.now.value }
    {
        if count < self.entered[by as usize] {
            return Err(ColumnFault::NoMemory);
        }
        let Ok(shared) = node.clone() else {
            return Err(ColumnFault::NoMemory);
        };
        match self.column.single(by, shared) {
            Ok(answer) => {
                self.entered[by as usize] = count + 1;
                Ok(answer)
            }
            Err(fault) => Err(fault),
        }
    }
}

// Appends so many nodes, and says how many entered.
fn append_all<R: Wait>(rt: &R, alloc: Global, lock: &Mutex<Locked>, by: u8, appends: u64) -> u64
    requires by { by < 4 }
    requires appends { appends < 2 ^ 63 }
{
    let mut entered = 0u64;
    for count in 0..appends {
        if let Ok(node) = node(alloc, by, count) {
            let mut locked = lock.lock(rt);
            if locked.single(by, count, &node).is_ok() {
                entered = entered.wrapping_add(1);
            }
        }
    }
    entered
}

/// The same as under turns.
pub fn over_locks<R: Threads + Wait + Sync>(
    rt: &R,
    alloc: Global,
    threads: u8,
    shared: bool,
    appends: u64,
) -> Result<u64, AllocError>
    requires { appends < 2 ^ 63 }
{
    let mut locks = Vec::new(alloc);
    for _ in 0..4u8 {
        locks.push(Mutex::new(Locked::open(alloc)?))?;
    }
    let mut numbers = Vec::new(alloc);
    for by in 0..threads {
        numbers.push(by)?;
    }
    let locks = &locks;
    let entered = thread::map_vec(
        rt,
        numbers,
        &|by: u8| -> u64
            requires { appends < 2 ^ 63 }
        {
            let place = if shared { 0 } else { by as usize };
            match locks.get(place) {
                Some(lock) if by < 4 => append_all(rt, alloc, lock, by, appends),
                _ => 0,
            }
        },
    )?;
    let mut all = 0u64;
    for count in &entered {
        all = all.wrapping_add(*count);
    }
    Ok(all)
}
