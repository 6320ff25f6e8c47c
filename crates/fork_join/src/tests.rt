//! Calls at each item and at each number, whatever the number of threads.
use crate::{for_each_mut, map_indices};
use std::alloc::{AllocError, Global};
use std::test::*;
use std::thread::Threads;

// So many items, each ten times its place, to each of which its place was added.
fn with_their_places<R: Threads + Sync>(
    rt: &R,
    alloc: Global,
    count: usize,
    threads: usize,
) -> Result<Vec<usize>, AllocError> {
    let mut items = Vec::new(alloc);
    for place in 0..count {
        items.push(place.wrapping_mul(10))?;
    }
    for_each_mut(
        rt,
        items.as_mut_slice(),
        threads.max(1),
        &|place: usize, item: &mut usize| {
            *item = item.wrapping_add(place);
        },
    );
    Ok(items)
}

// How many items there are, and on how many threads they are called.
const SIZES: [(usize, usize); 10] = [
    (0, 1),
    (1, 1),
    (1, 4),
    (3, 1),
    (3, 2),
    (4, 4),
    (5, 2),
    (5, 4),
    (7, 16),
    (100, 3),
];

#[test]
fn each_item_is_called_once_with_its_place(rt: HostRuntime) -> Result<(), Fail> {
    for (count, threads) in SIZES {
        let items = with_their_places(&rt, rt.alloc(), count, threads)?;
        assert_eq!(rt; items.len(), count);
        for (place, item) in items.iter().enumerate() {
            assert_eq!(rt; *item, place.wrapping_mul(11));
        }
    }
    Ok(())
}

#[test]
fn what_each_number_gives_stands_in_its_place(rt: HostRuntime) -> Result<(), Fail> {
    for (count, threads) in SIZES {
        let values = map_indices(
            &rt,
            rt.alloc(),
            count,
            threads.max(1),
            &|number: usize| { number.wrapping_mul(11) },
        )?;
        assert_eq!(rt; values.len(), count);
        for (number, value) in values.iter().enumerate() {
            assert_eq!(rt; *value, number.wrapping_mul(11));
        }
    }
    Ok(())
}
