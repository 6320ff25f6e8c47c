// The answer to one command, and the reply line that shows it.
ghost use Rattle.std.specs.Prelude.{◌≡◌, [], IfOk, OnErr, MatchResult, None};
ghost use Rattle.report_text.specs.declared.report.Answer.TheVariants.{NoMemory};
ghost use Rattle.world_code.specs.WorldView.{world_of};
ghost use Rattle.script_meaning.specs.Objects.{caller_in, refusing_home};
ghost use Rattle.script_in_order.specs.Doing.{IsFit, DoesAtHome, transaction_of};
ghost use Rattle.script_in_order.specs.Folds.{AreFolded, FoldsStay};
ghost use Rattle.script_in_order.specs.Runs.{reply_of};

use crate::appends::append_asked;
use crate::folds::Folds;
use crate::gets::{get, get_keys};
use crate::guarded::append_next;
use crate::moves::{pull, trim};
use crate::object_appends::{delete, enqueue, put, put_all};
use crate::parts::{decide, peek};
use crate::queues::dequeue;
use crate::scans::scan;
use crate::stops::stop;
use crate::syncs::sync;
use crate::trees::{list_names, make, relocate, remove};
use log_node::{Items, ListOf};
use report_text::{Answer, ReplyLine};
use script_text::{Command, Object, What};
use std::alloc::{AllocError, Global};
use world_code::World;

/// What a command is answered that is no read and no commit and that no home refuses; the nodes that it shows stand in `nodes`
/// then. `Err` means that it found no memory before it did anything. What it folds is kept.
#[tactic(auto, using(crate::proofs::CommandKinds::shows_none))]
pub fn answer(
    alloc: Global,
    objects: &[Object],
    command: &Command,
    world: &mut World,
    folds: &mut Folds,
    nodes: &mut Items,
) -> Result<Answer, AllocError>
    requires kind { transaction_of command.now.what ≡ None }
    requires fits { IsFit (world_of world.old) objects.now command.now.client command.now.what }
    requires near { refusing_home (caller_in (world_of world.old) objects.now command.now.client) command.now.what ≡ None }
    requires folded { AreFolded (world_of world.old) objects.now folds.old }
    requires none { nodes.old ≡ [] }
    ensures ok { IfOk result (λ answer. DoesAtHome objects.now command.now (world_of world.old) (world_of world.new) answer nodes.new) }
    ensures err { OnErr result (world_of world.new ≡ world_of world.old) }
    ensures folded { FoldsStay (world_of world.old) (world_of world.new) objects.now
        → AreFolded (world_of world.new) objects.now folds.new }
{
    match &command.what {
        What::Append { colours, text } => append_asked(
            alloc, objects, command, *colours, text, world,
        ),
        What::Stop {
            steps,
            colours,
            text,
        } => stop(alloc, objects, command, *steps, *colours, text, world),
        What::Sync { colour } => sync(alloc, objects, command, *colour, world, nodes),
        What::Scan { colours } => scan(alloc, objects, command, *colours, world, nodes),
        What::Pull { region, colour } => pull(alloc, objects, command, *region, *colour, world),
        What::Trim { colour } => trim(objects, command, *colour, world),
        What::Put { object, key, value } => put(
            alloc, objects, command, *object, key, value, world,
        ),
        What::Get { object, key } => get(alloc, objects, command, *object, key, world, folds),
        What::Del { object, key } => delete(alloc, objects, command, *object, key, world),
        What::PutAll { object, pairs } => put_all(alloc, objects, command, *object, pairs, world),
        What::GetAll { object, keys } => get_keys(
            alloc, objects, command, *object, keys, world, folds,
        ),
        What::Enq { object, value } => enqueue(alloc, objects, command, *object, value, world),
        What::Deq { object } => dequeue(alloc, objects, command, *object, world, folds),
        What::Only { colour, text } => append_next(alloc, objects, command, *colour, text, world),
        What::Mk {
            object,
            path,
            value,
        } => make(alloc, objects, command, *object, path, value, world, folds),
        What::Rm { object, path } => remove(alloc, objects, command, *object, path, world, folds),
        What::Mv {
            object,
            source,
            target,
        } => relocate(
            alloc, objects, command, *object, source, target, world, folds,
        ),
        What::Ls { object, path } => list_names(
            alloc, objects, command, *object, path, world, folds,
        ),
        What::Peek { object, key } => peek(alloc, objects, command, *object, key, world, folds),
        What::Decide { object, key } => decide(alloc, objects, command, *object, key, world, folds),
        What::Read { .. } | What::Commit { .. } => unreachable!(),
    }
}

/// The reply line of a command, which found no memory if there is no answer.
pub fn reply_of(
    alloc: Global,
    command: &Command,
    given: Result<(Answer, Items), AllocError>,
) -> ReplyLine
    ensures { MatchResult given (λ g. result ≡ reply_of command.now g.0 g.1)
        (λ _. result ≡ reply_of command.now NoMemory []) }
{
    let (answer, nodes) = match given {
        Ok(given) => given,
        Err(_) => (Answer::NoMemory, ListOf::new(alloc)),
    };
    ReplyLine {
        line: command.line,
        word: command.what.word(),
        answer,
        nodes,
    }
}
