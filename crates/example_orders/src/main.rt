//! A simulation: a writer appends one node to two colours, step by step, and between its steps a reader plays first the one
//! colour and then the other. Every order of their steps is tried, and what the reader saw in each is counted.
//!
//! It stands on the world of one thread alone, whose steps are the definitions' own: so what is printed is what the definitions
//! say, and no thread or chance has a part in it.
#![tactic(auto)]

mod orders;

use orders::{STEPS, try_order};
use std::io;

/// In how many orders the reader saw the node in these columns.
#[derive(Clone, Copy)]
struct Sights {
    neither: u32,
    left_alone: u32,
    right_alone: u32,
    both: u32,
}

fn main(rt: HostRuntime) -> io::Result<()> {
    let alloc = rt.alloc();
    let mut sights = Sights {
        neither: 0,
        left_alone: 0,
        right_alone: 0,
        both: 0,
    };
    for second in 0..STEPS + 1 {
        for first in 0..second + 1 {
            let seen = try_order(alloc, first, second)?;
            let count = match (seen.left > 0, seen.right > 0) {
                (false, false) => &mut sights.neither,
                (true, false) => &mut sights.left_alone,
                (false, true) => &mut sights.right_alone,
                (true, true) => &mut sights.both,
            };
            *count = count.saturating_add(1);
        }
    }
    println!(&rt; "left  right  orders")?;
    println!(&rt; "-     -      {}", sights.neither)?;
    println!(&rt; "node  -      {}", sights.left_alone)?;
    println!(&rt; "-     node   {}", sights.right_alone)?;
    println!(&rt; "node  node   {}", sights.both)?;
    println!(&rt; "two plays are no read of one moment: a stamped read is")
}
