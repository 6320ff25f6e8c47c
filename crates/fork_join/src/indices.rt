// Calls at the numbers below a count, which threads take one after another.
ghost use Rattle.std.specs.Prelude.{◌≡◌, ℕ, ◌<◌, [], None, length, IfOk};
ghost use Rattle.std.specs.List.{All};
ghost use Rattle.std.specs.Fork.{GivesEach};
ghost use Rattle.fork_join.specs.Given.{IsGiven, AreGiven};

use crate::items::for_each_mut;
use std::alloc::{AllocError, Global};
use std::sync::atomic::AtomicUsize;
use std::sync::atomic::Ordering::Relaxed;
use std::thread::Threads;

/// What a call gave at a number.
#[derive(Drop)]
pub struct Given<X> {
    pub number: usize,
    pub value: X,
}

// Takes numbers that nobody took before, the last first, until there is none, and calls f at each. It ends, too, where there
// is no memory to keep what a call gave.
fn take_numbers<X: Drop, F: Fn(usize) -> X>(
    taken: &AtomicUsize,
    count: usize,
    f: &F,
    mine: &mut Vec<Given<X>>,
)
    requires accepts { (i : ℕ) → i < count → F.pre f.now i }
    requires given { All (IsGiven F.Fn f.now count) mine.old.items }
    ensures { All (IsGiven F.Fn f.now count) mine.new.items }
{
    for _ in 0..count {
        let before = taken.fetch_add(1, Relaxed);
        if before >= count {
            return;
        }
        let number = count - 1 - before;
        let value = f(number);
        if mine.push(Given { number, value }).is_err() {
            return;
        }
    }
}

// So many lists with nothing in them.
fn empty_lists<X: Drop>(alloc: Global, count: usize) -> Result<Vec<Vec<Given<X>>>, AllocError>
    ensures { IfOk result (λ lists. All (λ list. list.items ≡ []) lists.items) }
{
    let mut lists = Vec::new(alloc);
    for _ in 0..count {
        lists.push(Vec::new(alloc))?;
    }
    Ok(lists)
}

// So many places with nothing in them.
fn empty_places<X: Drop>(alloc: Global, count: usize) -> Result<Vec<Option<X>>, AllocError>
    ensures len { IfOk result (λ places. length places.items ≡ count) }
    ensures empty { IfOk result (λ places. All (λ place. place ≡ None) places.items) }
{
    let mut places = Vec::new(alloc);
    for _ in 0..count {
        places.push(None)?;
    }
    Ok(places)
}

// What stands in the places; where nothing does, f is called here.
fn filled<X: Drop, F: Fn(usize) -> X>(
    alloc: Global,
    places: Vec<Option<X>>,
    f: &F,
) -> Result<Vec<X>, AllocError>
    requires accepts { (i : ℕ) → i < length places.items → F.pre f.now i }
    requires given { AreGiven F.Fn f.now places.items }
    ensures len { IfOk result (λ values. length values.items ≡ length places.items) }
    ensures each { IfOk result (λ values. GivesEach F.Fn f.now (length places.items) values.items) }
{
    let mut values = Vec::new(alloc);
    let mut number = 0;
    for place in places {
        let value = match place {
            Some(value) => value,
            None => f(number),
        };
        values.push(value)?;
        number += 1;
    }
    Ok(values)
}

// What was given at each number; where nothing was, f is called here.
fn gathered<X: Drop, F: Fn(usize) -> X>(
    alloc: Global,
    count: usize,
    lists: Vec<Vec<Given<X>>>,
    f: &F,
) -> Result<Vec<X>, AllocError>
    requires accepts { (i : ℕ) → i < count → F.pre f.now i }
    requires given { All (λ list. All (IsGiven F.Fn f.now count) list.items) lists.items }
    ensures len { IfOk result (λ values. length values.items ≡ count) }
    ensures each { IfOk result (λ values. GivesEach F.Fn f.now count values.items) }
{
    let mut places = empty_places(alloc, count)?;
    for list in lists {
        for given in list {
            places[given.number] = Some(given.value);
        }
    }
    filled(alloc, places, f)
}

/// Calls f(0) to f(count - 1) on at most that many threads, and no more than there are numbers, and gives the results in order.
/// A thread that is done with one number takes the next that nobody took, the last first, so a call that takes long, or a
/// thread that begins late, keeps the others from none. Where no thread can be made, or one is enough, all calls are made here.
/// On `Err`, which means that memory ran out, the results are dropped.
pub fn map_indices<R: Threads + Sync, X: Send + Drop, F: Fn(usize) -> X + Sync>(
    rt: &R,
    alloc: Global,
    count: usize,
    threads: usize,
    f: &F,
) -> Result<Vec<X>, AllocError>
    requires { (i : ℕ) → i < count → F.pre f.now i }
    ensures len { IfOk result (λ values. length values.items ≡ count) }
    ensures each { IfOk result (λ values. GivesEach F.Fn f.now count values.items) }
{
    let taken = AtomicUsize::new(0);
    let many = threads.min(count).max(1);
    let mut lists = empty_lists(alloc, many)?;
    for_each_mut(
        rt,
        lists.as_mut_slice(),
        many,
        &|_thread: usize, mine: &mut Vec<Given<X>>|
            requires { ((i : ℕ) → i < count → F.pre f.now i) × All (IsGiven F.Fn f.now count) mine.now.items }
            ensures { All (IsGiven F.Fn f.entry.now count) mine.exit.now.items }
        { take_numbers(&taken, count, f, mine) },
    );
    gathered(alloc, count, lists, f)
}
