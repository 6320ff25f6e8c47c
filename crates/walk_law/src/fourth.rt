// The fourth rule: what replies name, what clients made, and who helps.
ghost use Rattle.std.specs.Prelude.{◌≡◌, ◌<◌, ◌∷◌, [], ℕ, IfOk, IsTrue, None, length};
ghost use Rattle.log_node.specs.declared.ids.Counts.{Counts as NodeCounts};
ghost use Rattle.log_node.specs.declared.limits.TheConstants.{MAX_COLOURS};
ghost use Rattle.col_core.specs.Keeping.{Kept};
ghost use Rattle.script_text.specs.Fitting.{IsWithin};
ghost use Rattle.report_text.specs.declared.report.Answer.TheVariants as answers;
ghost use Rattle.lawful_run.specs.Callers.{Caller, caller_of};
ghost use Rattle.lawful_run.specs.Reads.{kept_after_piece};
ghost use Rattle.column_track.specs.Tracks.{Tells};
ghost use Rattle.run_rules.specs.Told.{Untold, is_several, kept_after_append, kept_deciding};
ghost use Rattle.run_rules.specs.Telling.{account_of, low_told, no_nodes, replies_to};
ghost use Rattle.run_rules.specs.Naming.{Names, NamesAppend, NamesEnd, NamesRead, NamesSteps, NamesSync};
ghost use Rattle.run_rules.specs.Rules.{Rule4};
ghost use Rattle.walk_law.specs.Behind.{LeavesOutSteps};
ghost use Rattle.walk_law.specs.Fourth.{AreNamed, ArePointsLow, AreRaisesLow, AreSyncsLow, HasMade, HasMadeIn, IsAsked, IsClientNamed, IsEndLow, NamesAll as AllNamed, Sees};
ghost use Rattle.walk_law.specs.Keepings.{IsCounted};
ghost use Rattle.walk_law.specs.Walking.{log_walked};

use crate::going_on::events_until;
use crate::helpers::are_helpers;
use crate::keeping::Keeping;
use crate::naming::{Kind, have_all, is_named};
use crate::own_seen::OwnSeen;
use crate::subject::Subject;
use crate::walking::{Check, walk};
use log_node::At;
use report_text::{Answer, Ended, PointPiece, RaisePiece, SyncPiece};
use script_text::What;
use std::alloc::{AllocError, Global};

// ANSWERS

// Whether none of the own steps of the id of this count that no reply prints was seen before.
fn names_begun(
    alloc: Global,
    subject: &Subject<'_>,
    seen: &OwnSeen,
    count: u64,
) -> Result<bool, AllocError>
    requires { seen.now.client < length subject.now.report.clients }
    ensures { (kept : Kept) (untold : Untold) → Sees (caller_of subject.now.script seen.now.client) kept seen.now
        → count ≡ kept.ids → LeavesOutSteps subject.now seen.now.client count untold → IfOk result (λ b. Tells b
        (NamesSteps (log_walked subject.now) (caller_of subject.now.script seen.now.client) kept untold.places)) }
{
    let mut behind = seen.copied();
    seen.names_steps(alloc, subject, count, &mut behind)
}

// Whether a decision's node names what is there where it stands.
fn names_end(subject: &Subject<'_>, seen: &OwnSeen, ended: Ended) -> bool
    ensures { (caller : Caller) (kept : Kept) (untold : Untold) → Sees caller kept seen.now → IsEndLow ended
        → Tells result (NamesEnd (log_walked subject.now) untold caller kept ended) }
{
    match ended {
        Ended::Stood { point, .. } => seen.names_point(subject, &point),
        Ended::StampEnd { .. } => true,
        Ended::NoMemory => true,
    }
}

// Whether a decide names what is there.
fn names_decided(
    subject: &Subject<'_>,
    seen: &mut OwnSeen,
    sync: SyncPiece,
    raises: &[RaisePiece],
    syncs: &[SyncPiece],
    ended: Ended,
) -> bool
    ensures { (caller : Caller) (kept : Kept) (untold : Untold) (stamp : ℕ) → Sees caller kept seen.old → sync.colour < MAX_COLOURS
        → AreRaisesLow raises.now → AreSyncsLow syncs.now → IsEndLow ended → Tells result
        (NamesSync (log_walked subject.now) caller kept sync
        × NamesRead (log_walked subject.now) caller (kept_after_piece (log_walked subject.now) caller kept sync) raises.now syncs.now
        × NamesEnd (log_walked subject.now) untold caller
        (kept_deciding (log_walked subject.now) caller kept sync stamp raises.now syncs.now) ended) }
{
    if !seen.names_sync(subject, sync) {
        return false;
    }
    if !seen.names_read(subject, raises, syncs) {
        return false;
    }
    names_end(subject, seen, ended)
}

// Whether a dequeue names what is there.
fn names_took(subject: &Subject<'_>, seen: &mut OwnSeen, point: PointPiece, sync: SyncPiece) -> bool
    ensures { (caller : Caller) (kept : Kept) (untold : Untold) (stamp : ℕ) → Sees caller kept seen.old
        → point.colour < MAX_COLOURS → sync.colour < MAX_COLOURS → Tells result
        (NamesAppend (log_walked subject.now) untold caller kept None (point ∷ [])
        × NamesSync (log_walked subject.now) caller (kept_after_append untold caller kept stamp None (point ∷ [])) sync) }
{
    if !seen.names_point(subject, &point) {
        return false;
    }
    seen.single(point);
    seen.names_sync(subject, sync)
}

// Whether a commit names what is there. The count is that of its id.
fn names_commit(
    alloc: Global,
    subject: &Subject<'_>,
    seen: &mut OwnSeen,
    count: u64,
    row: Option<u32>,
    points: &[PointPiece],
    raises: &[RaisePiece],
    syncs: &[SyncPiece],
) -> Result<bool, AllocError>
    requires { seen.old.client < length subject.now.report.clients }
    ensures { (kept : Kept) (untold : Untold) (stamp : ℕ) → Sees (caller_of subject.now.script seen.old.client) kept seen.old
        → count ≡ kept.ids → LeavesOutSteps subject.now seen.old.client count untold → ArePointsLow points.now
        → AreRaisesLow raises.now → AreSyncsLow syncs.now → IfOk result (λ b. Tells b
        (NamesAppend (log_walked subject.now) untold (caller_of subject.now.script seen.old.client) kept row points.now
        × NamesRead (log_walked subject.now) (caller_of subject.now.script seen.old.client)
        (kept_after_append untold (caller_of subject.now.script seen.old.client) kept stamp row points.now) raises.now syncs.now)) }
{
    if !seen.names_append(alloc, subject, count, row, points)? {
        return Ok(false);
    }
    Ok(seen.names_read(subject, raises, syncs))
}

// Whether an append that found no stamp names what is there. The count is that of its id.
fn names_stamp_end(
    alloc: Global,
    subject: &Subject<'_>,
    client: u8,
    keeping: &Keeping,
    seen: &OwnSeen,
    what: &What,
) -> Result<bool, AllocError>
    requires walker { client < length subject.now.report.clients }
    requires client { seen.now.client ≡ client }
    ensures { (kept : Kept) (untold : Untold) → IsCounted (replies_to subject.now.report client) kept keeping.now
        → Sees (caller_of subject.now.script client) kept seen.now → LeavesOutSteps subject.now client kept.ids untold
        → IfOk result (λ b. Tells b (IsTrue (is_several (caller_of subject.now.script client) kept what.now)
        → NamesSteps (log_walked subject.now) (caller_of subject.now.script client) kept untold.places)) }
{
    if !keeping.is_several(alloc, subject, client, what)? {
        return Ok(true);
    }
    names_begun(alloc, subject, seen, keeping.ids())
}

// Whether a pull names what is there.
fn names_pull(
    subject: &Subject<'_>,
    client: u8,
    keeping: &Keeping,
    what: &What,
    give: At,
    carry: At,
) -> bool
    requires walker { client < length subject.now.report.clients }
    requires within { IsWithin subject.now.script.shape.regions subject.now.script.shape.colours what.now }
    ensures { (kept : Kept) (untold : Untold) (count : ℕ) → IsCounted (replies_to subject.now.report client) kept keeping.now
        → untold.too_low ≡ low_told (log_walked subject.now) (caller_of subject.now.script client) kept what.now
        (answers.Pulled count give carry)
        → Tells result (Names (log_walked subject.now) untold (caller_of subject.now.script client) kept what.now
        (answers.Pulled count give carry)) }
{
    let What::Pull { region, colour } = what else {
        return false;
    };
    subject.agrees();
    let own = subject.own(client);
    let kind = Kind::Give(own);
    let journal = subject.journal(*region, *colour);
    let too_low = keeping.made_between(subject, client, *region, *colour, events_until(give));
    if !have_all(journal, client, kind, too_low) {
        return false;
    }
    if !is_named(journal, client, keeping.seen(*region, *colour), kind, give) {
        return false;
    }
    let carried = Kind::Carry(*region);
    is_named(
        subject.journal(own, *colour),
        client,
        keeping.seen(own, *colour),
        carried,
        carry,
    )
}

// Whether a trim names what is there.
fn names_trim(subject: &Subject<'_>, client: u8, keeping: &Keeping, what: &What, at: At) -> bool
    requires walker { client < length subject.now.report.clients }
    requires within { IsWithin subject.now.script.shape.regions subject.now.script.shape.colours what.now }
    ensures { (kept : Kept) (untold : Untold) (base : NodeCounts) → IsCounted (replies_to subject.now.report client) kept keeping.now
        → Tells result (Names (log_walked subject.now) untold (caller_of subject.now.script client) kept what.now
        (answers.Based at base)) }
{
    let What::Trim { colour } = what else {
        return false;
    };
    subject.agrees();
    let own = subject.own(client);
    is_named(
        subject.journal(own, *colour),
        client,
        keeping.seen(own, *colour),
        Kind::Trim,
        at,
    )
}

// Whether an answer to a client that keeps this names what is there.
fn names(
    alloc: Global,
    subject: &Subject<'_>,
    client: u8,
    keeping: &Keeping,
    what: &What,
    answer: &Answer,
) -> Result<bool, AllocError>
    requires walker { client < length subject.now.report.clients }
    requires within { IsWithin subject.now.script.shape.regions subject.now.script.shape.colours what.now }
    ensures { (kept : Kept) (untold : Untold) → IsAsked subject.now client what.now answer.now kept untold keeping.now
        → IfOk result (λ b. Tells b
        (Names (log_walked subject.now) untold (caller_of subject.now.script client) kept what.now answer.now)) }
{
    subject.agrees();
    let mut seen = OwnSeen::of(keeping, client, subject.own(client));
    let count = keeping.ids();
    match answer {
        Answer::Stood { row, points, .. } => {
            seen.names_append(alloc, subject, count, *row, points.as_slice())
        }
        Answer::StampEnd { .. } => names_stamp_end(alloc, subject, client, keeping, &seen, what),
        Answer::Stopped { steps } => {
            if *steps == 0 {
                return Ok(true);
            }
            names_begun(alloc, subject, &seen, count)
        }
        Answer::Synced { sync, .. }
        | Answer::Got { sync, .. }
        | Answer::GotMany { sync, .. }
        | Answer::Undecided { sync, .. } => Ok(seen.names_sync(subject, *sync)),
        Answer::Scanned { raises, syncs, .. }
        | Answer::GotKeys { raises, syncs, .. }
        | Answer::Listed { raises, syncs, .. } => {
            Ok(seen.names_read(subject, raises.as_slice(), syncs.as_slice()))
        }
        Answer::Pulled { give, carry, .. } => {
            Ok(names_pull(subject, client, keeping, what, *give, *carry))
        }
        Answer::Based { at, .. } => Ok(names_trim(subject, client, keeping, what, *at)),
        Answer::Ruled {
            row,
            points,
            raises,
            syncs,
            ..
        }
        | Answer::Changed {
            row,
            points,
            raises,
            syncs,
            ..
        } => names_commit(
            alloc,
            subject,
            &mut seen,
            count,
            *row,
            points.as_slice(),
            raises.as_slice(),
            syncs.as_slice(),
        ),
        Answer::Decided {
            sync,
            raises,
            syncs,
            ended,
            ..
        } => Ok(names_decided(
            subject,
            &mut seen,
            *sync,
            raises.as_slice(),
            syncs.as_slice(),
            *ended,
        )),
        Answer::Moved { colour, events, .. } => Ok(seen.names_look(subject, *colour, *events)),
        Answer::Took { point, sync, .. } => Ok(names_took(subject, &mut seen, *point, *sync)),
        Answer::Full { .. }
        | Answer::SameRegion
        | Answer::NoTx
        | Answer::UnreadTrimmed { .. }
        | Answer::UnreadNoMemory { .. }
        | Answer::Trimmed { .. }
        | Answer::NotHome { .. }
        | Answer::NoMemory => Ok(true),
    }
}

// STEPS

// Whether the reply to each step names what is there.
struct NamesAll;

impl Check for NamesAll {
    ghost Asks = { λ check. AllNamed };

    fn go_on(
        &self,
        alloc: Global,
        subject: &Subject<'_>,
        client: u8,
        place: usize,
        keeping: &mut Keeping,
    ) -> Result<bool, AllocError> {
        subject.agrees();
        let what = &subject.command(client, place).what;
        let answer = &subject.reply(client, place).answer;
        if !names(alloc, subject, client, keeping, what, answer)? {
            return Ok(false);
        }
        keeping.go_on(alloc, subject, client, place)?;
        Ok(true)
    }
}

// CLIENTS

// Whether two lists of places are one.
fn same_places(one: &[u64], other: &[u64]) -> bool
    ensures { Tells result (one.now ≡ other.now) }
{
    one == other
}

// Whether a client that keeps this made its own events of a region's columns, and no others.
fn has_made_in(subject: &Subject<'_>, client: u8, keeping: &Keeping, region: u8) -> bool
    requires walker { client < length subject.now.report.clients }
    requires region { region < subject.now.script.shape.regions }
    ensures { Tells result (HasMadeIn subject.now client keeping.now region) }
{
    subject.agrees();
    for colour in 0..subject.script().shape.colours {
        let own = subject.own_places(client, region, colour);
        if !same_places(own, keeping.made(region, colour)) {
            return false;
        }
    }
    true
}

// Whether it did so in all columns.
fn has_made(subject: &Subject<'_>, client: u8, keeping: &Keeping) -> bool
    requires walker { client < length subject.now.report.clients }
    ensures { Tells result (HasMade subject.now client keeping.now) }
{
    for region in 0..subject.script().shape.regions {
        if !has_made_in(subject, client, keeping, region) {
            return false;
        }
    }
    true
}

// Whether a client's replies name what is there, and its own events are those of its commands.
fn is_client_named(alloc: Global, subject: &Subject<'_>, client: u8) -> Result<bool, AllocError>
    requires walker { client < length subject.now.report.clients }
    ensures { IfOk result (λ b. Tells b (IsClientNamed subject.now client)) }
{
    subject.agrees();
    match walk(alloc, subject, client, &NamesAll)? {
        Some(keeping) => Ok(has_made(subject, client, &keeping)),
        None => Ok(false),
    }
}

// Whether so it is of each client.
fn are_named(alloc: Global, subject: &Subject<'_>) -> Result<bool, AllocError>
    ensures { IfOk result (λ b. Tells b (AreNamed subject.now)) }
{
    for client in 0..subject.clients() {
        if !is_client_named(alloc, subject, client)? {
            return Ok(false);
        }
    }
    Ok(true)
}

/// Whether the fourth rule holds, at the account that is computed with no nodes: what replies name is there and behind what was
/// seen, each client's own events are those of its commands, and who helps may.
pub fn keeps_fourth(alloc: Global, subject: &Subject<'_>) -> Result<bool, AllocError>
    ensures { IfOk result (λ b. Tells b (Rule4 subject.now.script subject.now.report
        (account_of subject.now.script subject.now.report no_nodes))) }
{
    subject.agrees();
    if !are_named(alloc, subject)? {
        return Ok(false);
    }
    are_helpers(alloc, subject)
}
