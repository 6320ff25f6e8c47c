// Clients beside one another.
ghost use Rattle.std.specs.Prelude.{◌≡◌, ◌<◌, ℕ, Some, length, slice_get};
ghost use Rattle.run_script.specs.declared.serving.served.Served.{Served};
ghost use Rattle.run_script.specs.Served.{CanServe, IsServedIfDone};

use crate::serving::served::{Served, serve_all};
use fork_join::for_each_mut;
use fuzzy_io::Gate;
use log_client::Store;
use script_text::Object;
use std::alloc::Global;
use std::sync::Wait;
use std::thread::Threads;

/// Serves all clients of a script with these objects, each on a thread of its own; where no thread can be made, one after
/// another. A client for whose replies there is no memory is not done.
pub fn serve_beside<R: Threads + Wait + Sync, G: Gate>(
    rt: &R,
    alloc: Global,
    store: &Store,
    objects: &[Object],
    gate: &G,
    served: &mut [Served],
)
    requires { (n : ℕ) (x : Served) → slice_get served.old n ≡ Some x → CanServe store.now objects.now x }
    ensures served { (n : ℕ) (x y : Served) → slice_get served.old n ≡ Some x → slice_get served.new n ≡ Some y
        → IsServedIfDone store.now objects.now x y }
    ensures len { length served.new ≡ length served.old }
{
    let threads = served.len();
    if threads == 0 {
        return;
    }
    for_each_mut(
        rt,
        served,
        threads,
        &|_place: usize, one: &mut Served|
            requires { CanServe store.now objects.now one.now }
            ensures { IsServedIfDone store.entry.now objects.entry.now one.entry.now one.exit.now }
        { serve_all(rt, alloc, store, objects, gate, one) },
    );
}
