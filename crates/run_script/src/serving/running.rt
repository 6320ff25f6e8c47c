// The run of a script on threads.
ghost use Rattle.std.specs.Prelude.{◌≡◌, map, IfOk, IsTrue};
ghost use Rattle.std.specs.List.{list_all};
ghost use Rattle.script_text.specs.declared.script.Script.{Script};
ghost use Rattle.lawful_run.specs.Lawful.{LawfulRun};
ghost use Rattle.run_script.specs.declared.serving.served.Served.{Served};
ghost use Rattle.run_script.specs.Running.{CanRun};

use crate::serving::beside::serve_beside;
use crate::serving::dealing::make_ready;
use crate::serving::ending::end_report;
use crate::serving::served::Served;
use few_rows::rows_for;
use fuzzy_io::Gate;
use log_client::{Client, Store};
use log_node::ListOf;
use report_text::{ReplyLine, Report};
use script_beside::DealtScript;
use std::alloc::{AllocError, Global};
use std::num::NonZeroUsize;
use std::sync::Wait;
use std::thread::Threads;

// Whether each client was served its commands.
fn are_done(served: &[Served]) -> bool
    ensures { result ≡ list_all (λ (x : Served). x.done) served.now }
{
    served.iter().all(|one| one.done)
}

// The clients once more, and the replies to each; `Err` too where one of them was not served its commands.
fn parted(
    alloc: Global,
    served: Vec<Served>,
) -> Result<(Vec<Client>, Vec<ListOf<ReplyLine>>), AllocError>
    ensures clients { IfOk result (λ r. r.0.items ≡ map (λ (x : Served). x.client) served.items) }
    ensures replies { IfOk result (λ r. r.1.items ≡ map (λ (x : Served). x.replies.items) served.items) }
    ensures done { IfOk result (λ _. IsTrue (list_all (λ (x : Served). x.done) served.items)) }
{
    if !are_done(served.as_slice()) {
        return Err(AllocError);
    }
    let mut clients = Vec::new(alloc);
    let mut replies = Vec::new(alloc);
    for one in served {
        clients.push(one.client)?;
        replies.push(ListOf::from(one.replies))?;
    }
    Ok((clients, replies))
}

// The run over a store of as many rows as the script has.
fn run_in_store<R: Threads + Wait + Sync, G: Gate>(
    rt: &R,
    alloc: Global,
    gate: &G,
    dealt: DealtScript,
    threads: NonZeroUsize,
) -> Result<Report, AllocError>
    requires { (script : Script) × CanRun script dealt }
    ensures { IfOk result (λ report. (script : Script) → CanRun script dealt → LawfulRun script report) }
{
    let DealtScript {
        header,
        shares,
        begins: _,
    } = dealt;
    let (store, clients) = Store::open(alloc, &header.shape)?;
    let objects = header.objects.as_slice();
    let mut served = make_ready(alloc, clients, objects, shares)?;
    serve_beside(rt, alloc, &store, objects, gate, served.as_mut_slice());
    let (clients, replies) = parted(alloc, served)?;
    let closed = store.close(rt, alloc, clients.into())?;
    end_report(rt, alloc, &header, closed, replies, threads)
}

/// Serves the clients of a script beside one another, each on a thread of its own where one can be made. A command that
/// finds no memory is answered so, and the run goes on; a client for whose replies there is no memory is served nothing.
/// `Err` means that there was such a client, or no memory before the first starts, or none after the last command. The
/// report is that of a lawful run; what is shown of columns in it is made on that many threads at most. The store has no
/// more rows than the client may begin that may begin most, however many the script allows.
pub fn run_beside<R: Threads + Wait + Sync, G: Gate>(
    rt: &R,
    alloc: Global,
    gate: &G,
    mut dealt: DealtScript,
    threads: NonZeroUsize,
) -> Result<Report, AllocError>
    requires { (script : Script) × CanRun script dealt }
    ensures { IfOk result (λ report. (script : Script) → CanRun script dealt → LawfulRun script report) }
{
    dealt.header.shape.rows = rows_for(dealt.header.shape.rows, dealt.begins);
    run_in_store(rt, alloc, gate, dealt, threads)
}
