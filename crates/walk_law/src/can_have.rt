// Which answers a command can have.
ghost use Rattle.std.specs.Prelude.{◌≡◌, ◌⊎◌, ◌∷◌, ◌==◌, [], ℕ, List, IfOk, Some, None};
ghost use Rattle.std.specs.List.{Contains, list_any};
ghost use Rattle.std.specs.Option.{option_copied};
ghost use Rattle.log_node.specs.declared.ids.Colours.{Colours};
ghost use Rattle.object_fold.specs.Nodes.{shard_of};
ghost use Rattle.col_core.specs.Keeping.{Kept};
ghost use Rattle.script_text.specs.declared.commands.What.TheVariants as whats;
ghost use Rattle.column_track.specs.Tracks.{Tells};
ghost use Rattle.lawful_run.specs.Callers.{Caller};
ghost use Rattle.lawful_run.specs.Asks.{Appending, Guarding, Stopping, Committing, Dequeuing, object_colours, object_home};
ghost use Rattle.lawful_run.specs.Deeds.{AsksForKey, manner_of};
ghost use Rattle.run_rules.specs.Told.{colours_asked};
ghost use Rattle.run_rules.specs.Answering.{CanHave, HasPoints, HasReads};
ghost use Rattle.walk_law.specs.Asking.{AreLow, HaveLowColours, all_of, colours_in, keys_shown, shards_of};
ghost use Rattle.walk_law.specs.Answered.{GetsShard, DecidesShard, CanGetOf, CanGetMany, CanWait, CanDecide, ReadsKeys, SyncsIn, CanBeAnswered, MayShow};

use crate::object_colours::{all_colours, colours_of, key_shards, kind_asked, listed};
use crate::pieces::{can_end, has_colour, has_points, has_reads};
use crate::texts::same_text;
use log_node::{Colours, Items, MAX_COLOURS, Text};
use object_fold::shard_of;
use report_text::{Answer, Ended, KeyAnswer, PointPiece, RaisePiece, SyncPiece};
use script_text::{Kind, Object, What};
use std::alloc::{AllocError, Global};

// Whether it appends a node, and answers where that stands.
fn appends(what: &What) -> bool
    ensures { Tells result ((manner_of what.now ≡ Appending) ⊎ (manner_of what.now ≡ Guarding)) }
{
    match what {
        What::Append { .. } | What::Put { .. } | What::Del { .. } | What::PutAll { .. } => true,
        What::Enq { .. } | What::Only { .. } => true,
        What::Stop { .. } | What::Sync { .. } | What::Scan { .. } | What::Pull { .. } => false,
        What::Trim { .. } | What::Get { .. } | What::GetAll { .. } | What::Read { .. } => false,
        What::Commit { .. } | What::Deq { .. } | What::Mk { .. } | What::Rm { .. } => false,
        What::Mv { .. } | What::Ls { .. } | What::Peek { .. } | What::Decide { .. } => false,
    }
}

// Whether it appends a node, and then reads what becomes of it.
fn commits(what: &What) -> bool
    ensures { Tells result (manner_of what.now ≡ Committing) }
{
    match what {
        What::Commit { .. } | What::Mk { .. } | What::Rm { .. } | What::Mv { .. } => true,
        What::Append { .. } | What::Put { .. } | What::Del { .. } | What::PutAll { .. } => false,
        What::Enq { .. } | What::Only { .. } | What::Deq { .. } | What::Stop { .. } => false,
        What::Sync { .. } | What::Scan { .. } | What::Pull { .. } | What::Trim { .. } => false,
        What::Get { .. } | What::GetAll { .. } | What::Read { .. } => false,
        What::Ls { .. } | What::Peek { .. } | What::Decide { .. } => false,
    }
}

// Whether it stops within its append.
fn stops(what: &What) -> bool
    ensures { Tells result (manner_of what.now ≡ Stopping) }
{
    matches!(what, What::Stop { .. })
}

// Whether it appends a node, and then plays the colour.
fn dequeues(what: &What) -> bool
    ensures { Tells result (manner_of what.now ≡ Dequeuing) }
{
    matches!(what, What::Deq { .. })
}

// Whether it appends first and reads then.
fn reads_behind(what: &What) -> bool
    ensures { Tells result ((manner_of what.now ≡ Committing) ⊎ (manner_of what.now ≡ Dequeuing)) }
{
    commits(what) || dequeues(what)
}

// Whether it plays this colour.
fn plays(what: &What, colour: u8) -> bool
    ensures { Tells result (what.now ≡ whats.Sync colour) }
{
    match what {
        What::Sync { colour: own } => *own == colour,
        _ => false,
    }
}

// Whether it is a pull.
fn pulls(what: &What) -> bool
    ensures { Tells result ((region : ℕ) × (colour : ℕ) × (what.now ≡ whats.Pull region colour)) }
{
    matches!(what, What::Pull { .. })
}

// Whether it is a trim.
fn trims(what: &What) -> bool
    ensures { Tells result ((colour : ℕ) × (what.now ≡ whats.Trim colour)) }
{
    matches!(what, What::Trim { .. })
}

// Whether it appends to this colour, and only where it may stand next.
fn guards(what: &What, colour: u8) -> bool
    ensures { Tells result ((text : List ℕ) × (what.now ≡ whats.Only colour text)) }
{
    match what {
        What::Only { colour: own, .. } => *own == colour,
        _ => false,
    }
}

// Whether it is a commit.
fn is_commit(what: &What) -> bool
    ensures { Tells result ((object : ℕ) × (pairs : _) × (what.now ≡ whats.Commit object pairs)) }
{
    matches!(what, What::Commit { .. })
}

// Whether it lists the names in a path.
fn lists(what: &What) -> bool
    ensures { Tells result ((object : ℕ) × (path : List ℕ) × (what.now ≡ whats.Ls object path)) }
{
    matches!(what, What::Ls { .. })
}

// Whether these are the raises and the syncs of a stamped read of the members of a set.
fn reads_set(
    alloc: Global,
    set: Colours,
    raises: &[RaisePiece],
    syncs: &[SyncPiece],
) -> Result<bool, AllocError>
    ensures { IfOk result (λ ok. Tells ok (HasReads (colours_in set) raises.now syncs.now)) }
{
    let colours = listed(alloc, set)?;
    Ok(has_reads(colours.as_slice(), raises, syncs))
}

// Whether these are the raises and the syncs of a stamped read of all colours of an object.
fn reads_all(
    alloc: Global,
    own: &[u8],
    raises: &[RaisePiece],
    syncs: &[SyncPiece],
) -> Result<bool, AllocError>
    requires { AreLow own.now }
    ensures { IfOk result (λ ok. Tells ok (HasReads (all_of own.now) raises.now syncs.now)) }
{
    let colours = all_colours(alloc, own)?;
    Ok(has_reads(colours.as_slice(), raises, syncs))
}

// Whether these are the raises and the syncs of a stamped read of the shards of keys.
fn reads_shards(
    alloc: Global,
    own: &[u8],
    keys: &[Text],
    raises: &[RaisePiece],
    syncs: &[SyncPiece],
) -> Result<bool, AllocError>
    requires { AreLow own.now }
    ensures { IfOk result (λ ok. Tells ok (HasReads (shards_of own.now keys.now) raises.now syncs.now)) }
{
    let colours = key_shards(alloc, own, keys)?;
    Ok(has_reads(colours.as_slice(), raises, syncs))
}

// Whether it scans, and these are the raises and the syncs.
fn scans(
    alloc: Global,
    what: &What,
    raises: &[RaisePiece],
    syncs: &[SyncPiece],
) -> Result<bool, AllocError>
    ensures { IfOk result (λ ok. Tells ok ((colours : Colours) × (what.now ≡ whats.Scan colours)
        × HasReads (colours_in colours) raises.now syncs.now)) }
{
    match what {
        What::Scan { colours } => reads_set(alloc, *colours, raises, syncs),
        _ => Ok(false),
    }
}

// Whether these are the keys that an answer shows.
fn shows_keys(shown: &[KeyAnswer], keys: &[Text]) -> bool
    ensures { Tells result (keys_shown shown.now ≡ keys.now) }
{
    let [answer, shown @ ..] = shown else {
        return keys.is_empty();
    };
    let [key, keys @ ..] = keys else {
        return false;
    };
    same_text(&answer.key, key) && shows_keys(shown, keys)
}

// Whether it reads the keys that an answer shows, and these are the raises and the syncs.
fn reads_keys(
    alloc: Global,
    own: &[u8],
    what: &What,
    shown: &[KeyAnswer],
    raises: &[RaisePiece],
    syncs: &[SyncPiece],
) -> Result<bool, AllocError>
    requires { AreLow own.now }
    ensures { IfOk result (λ ok. Tells ok (ReadsKeys own.now what.now shown.now raises.now syncs.now)) }
{
    match what {
        What::GetAll { keys, .. } => {
            if !shows_keys(shown, keys.as_slice()) {
                return Ok(false);
            }
            reads_shards(alloc, own, keys.as_slice(), raises, syncs)
        }
        What::Read { keys, .. } => {
            if !shows_keys(shown, keys.as_slice()) {
                return Ok(false);
            }
            reads_all(alloc, own, raises, syncs)
        }
        _ => Ok(false),
    }
}

// Whether it gets by one key.
fn gets(what: &What) -> bool
    ensures { Tells result ((object : ℕ) × (key : List ℕ) × AsksForKey what.now object key) }
{
    matches!(what, What::Get { .. } | What::Peek { .. })
}

// Whether it gets by one key, of which the colour of the sync is the shard.
fn gets_shard(own: &[u8], what: &What, sync: &SyncPiece) -> bool
    ensures { Tells result (GetsShard own.now what.now sync.now) }
{
    match what {
        What::Get { key, .. } => shard_of(own, key.as_bytes()) == sync.colour,
        What::Peek { key, .. } => shard_of(own, key.as_bytes()) == sync.colour,
        _ => false,
    }
}

// Whether it asks for a decision, and the colour of the sync is the shard of its key.
fn decides_shard(own: &[u8], what: &What, sync: &SyncPiece) -> bool
    ensures { Tells result (DecidesShard own.now what.now sync.now) }
{
    match what {
        What::Decide { key, .. } => sync.colour == shard_of(own, key.as_bytes()),
        _ => false,
    }
}

// Whether a get of a map, a peek or a decide can be answered this value.
fn can_get(kind: Option<&Kind>, what: &What, value: &Option<Text>, sync: &SyncPiece) -> bool
    ensures { Tells result (CanGetOf (option_copied kind.entry) what.now value.now sync.now) }
{
    match kind {
        Some(Kind::Map { colours, .. }) => gets_shard(colours.as_slice(), what, sync),
        Some(Kind::Parts { colours, .. }) => {
            let own = colours.as_slice();
            gets_shard(own, what, sync) || decides_shard(own, what, sync) && value.is_none()
        }
        _ => false,
    }
}

// Whether a get of a causal map can be answered values.
fn can_get_many(kind: Option<&Kind>, what: &What, sync: &SyncPiece) -> bool
    ensures { Tells result (CanGetMany (option_copied kind.entry) what.now sync.now) }
{
    match kind {
        Some(Kind::Causal { colour }) => *colour == sync.colour && gets(what),
        _ => false,
    }
}

// Whether a peek can be told that its part waits.
fn can_wait(kind: Option<&Kind>, what: &What, sync: &SyncPiece) -> bool
    ensures { Tells result (CanWait (option_copied kind.entry) what.now sync.now) }
{
    match kind {
        Some(Kind::Parts { colours, .. }) => gets_shard(colours.as_slice(), what, sync),
        _ => false,
    }
}

// Whether a decide can be answered by these pieces.
fn can_decide(
    alloc: Global,
    kind: Option<&Kind>,
    what: &What,
    asked: &[u8],
    sync: &SyncPiece,
    raises: &[RaisePiece],
    syncs: &[SyncPiece],
    ended: &Ended,
) -> Result<bool, AllocError>
    requires { AreLow (object_colours (option_copied kind)) }
    ensures { IfOk result (λ ok. Tells ok (CanDecide (option_copied kind.entry) what.now asked.now sync.now raises.now
        syncs.now ended.now)) }
{
    match kind {
        Some(Kind::Parts { colours, .. }) => {
            let own = colours.as_slice();
            let reads = reads_all(alloc, own, raises, syncs)?;
            Ok(decides_shard(own, what, sync) && reads && can_end(asked, ended))
        }
        _ => Ok(false),
    }
}

// Whether an append can be answered by these points.
fn can_stand(what: &What, asked: &[u8], row: Option<u32>, points: &[PointPiece]) -> bool
    ensures { Tells result (((manner_of what.now ≡ Appending) ⊎ (manner_of what.now ≡ Guarding))
        × HasPoints asked.now row points.now) }
{
    appends(what) && has_points(asked, row, points)
}

// Whether what is appended first and read then can be answered by these points, raises and syncs.
fn can_rule(
    alloc: Global,
    own: &[u8],
    what: &What,
    asked: &[u8],
    row: Option<u32>,
    points: &[PointPiece],
    raises: &[RaisePiece],
    syncs: &[SyncPiece],
) -> Result<bool, AllocError>
    requires { AreLow own.now }
    ensures { IfOk result (λ ok. Tells ok ((manner_of what.now ≡ Committing) × HasPoints asked.now row points.now
        × HasReads (all_of own.now) raises.now syncs.now)) }
{
    let reads = reads_all(alloc, own, raises, syncs)?;
    Ok(commits(what) && has_points(asked, row, points) && reads)
}

// Whether a list of names can be answered by these raises and syncs.
fn can_list(
    alloc: Global,
    own: &[u8],
    what: &What,
    raises: &[RaisePiece],
    syncs: &[SyncPiece],
) -> Result<bool, AllocError>
    requires { AreLow own.now }
    ensures { IfOk result (λ ok. Tells ok (((object : ℕ) × (path : List ℕ) × (what.now ≡ whats.Ls object path))
        × HasReads (all_of own.now) raises.now syncs.now)) }
{
    let reads = reads_all(alloc, own, raises, syncs)?;
    Ok(lists(what) && reads)
}

// Whether a dequeue can be answered by this point and this sync.
fn can_take(what: &What, asked: &[u8], point: &PointPiece, sync: &SyncPiece) -> bool
    ensures { Tells result ((manner_of what.now ≡ Dequeuing) × HasPoints asked.now None (point.now ∷ [])
        × (sync.now.colour ≡ point.now.colour)) }
{
    dequeues(what)
        && has_points(asked, None, std::slice::from_ref(point))
        && sync.colour == point.colour
}

fn any_shard(own: &[u8], keys: &[Text], colour: u8) -> bool
    ensures { result ≡ list_any (λ key. shard_of own.now key == colour) keys.now }
{
    keys.iter()
        .any(|key| shard_of(own, key.as_bytes()) == colour)
}

// Whether the shard of one of the keys is this colour.
fn in_shards(own: &[u8], keys: &[Text], colour: u8) -> bool
    requires { AreLow own.now }
    ensures { Tells result (Contains (shards_of own.now keys.now) colour) }
{
    any_shard(own, keys, colour)
}

// Whether the shard of the key is this colour.
fn in_shard(own: &[u8], key: &[u8], colour: u8) -> bool
    requires { AreLow own.now }
    ensures { Tells result (Contains (shards_of own.now (key.now ∷ [])) colour) }
{
    shard_of(own, key) == colour
}

// Whether this is one of all colours of an object.
fn in_all(own: &[u8], colour: u8) -> bool
    requires { AreLow own.now }
    ensures { Tells result (Contains (all_of own.now) colour) }
{
    has_colour(own, colour)
}

// Whether a set has this colour.
fn in_set(set: Colours, colour: u8) -> bool
    ensures { Tells result (Contains (colours_in set) colour) }
{
    colour < MAX_COLOURS && set.has(colour)
}

// Whether it reads or plays, and syncs this colour.
fn syncs_in(own: &[u8], what: &What, colour: u8) -> bool
    requires { AreLow own.now }
    ensures { Tells result (SyncsIn own.now what.now colour) }
{
    match what {
        What::Sync { colour: synced } => *synced == colour,
        What::Scan { colours } => in_set(*colours, colour),
        What::Get { key, .. } => in_shard(own, key.as_bytes(), colour),
        What::Peek { key, .. } => in_shard(own, key.as_bytes(), colour),
        What::GetAll { keys, .. } => in_shards(own, keys.as_slice(), colour),
        What::Read { .. } => in_all(own, colour),
        What::Ls { .. } => in_all(own, colour),
        What::Decide { key, .. } => {
            shard_of(own, key.as_bytes()) == colour || in_all(own, colour)
        }
        _ => false,
    }
}

/// The home of an object of this kind, where it has one.
pub(crate) fn home_of(kind: Option<&Kind>) -> Option<u8>
    ensures { result ≡ object_home (option_copied kind.entry) }
{
    match kind {
        Some(Kind::Map { home, .. }) => Some(*home),
        Some(Kind::Tx { home, .. }) => Some(*home),
        Some(Kind::Queue { home, .. }) => Some(*home),
        Some(Kind::Tree { home, .. }) => Some(*home),
        Some(Kind::Parts { home, .. }) => Some(*home),
        Some(Kind::Causal { .. }) => None,
        None => None,
    }
}

// Whether an object of this kind has a home.
fn has_home(kind: Option<&Kind>) -> bool
    ensures { Tells result ((home : ℕ) × (object_home (option_copied kind.entry) ≡ Some home)) }
{
    match home_of(kind) {
        Some(_) => true,
        None => false,
    }
}

// Whether a command that appends to these colours can have this answer, where no nodes are shown.
fn can_be_answered(
    alloc: Global,
    kind: Option<&Kind>,
    what: &What,
    asked: &[u8],
    answer: &Answer,
) -> Result<bool, AllocError>
    requires { AreLow (object_colours (option_copied kind)) }
    ensures { IfOk result (λ ok. Tells ok (CanBeAnswered (option_copied kind.entry) what.now asked.now answer.now)) }
{
    let own = colours_of(kind);
    match answer {
        Answer::NoMemory => Ok(true),
        Answer::Stood { row, points, .. } => Ok(can_stand(what, asked, *row, points.as_slice())),
        Answer::StampEnd { colour } => Ok(has_colour(asked, *colour)),
        Answer::Full { .. } => Ok(1 < asked.len()),
        Answer::Stopped { .. } => Ok(stops(what)),
        Answer::Synced { sync, .. } => Ok(plays(what, sync.colour)),
        Answer::Scanned { raises, syncs, .. } => {
            scans(alloc, what, raises.as_slice(), syncs.as_slice())
        }
        Answer::Pulled { .. } => Ok(pulls(what)),
        Answer::SameRegion => Ok(pulls(what)),
        Answer::Based { .. } => Ok(trims(what)),
        Answer::Got { value, sync } => Ok(can_get(kind, what, value, sync)),
        Answer::GotMany { sync, .. } => Ok(can_get_many(kind, what, sync)),
        Answer::GotKeys {
            keys,
            raises,
            syncs,
            ..
        } => reads_keys(
            alloc,
            own,
            what,
            keys.as_slice(),
            raises.as_slice(),
            syncs.as_slice(),
        ),
        Answer::Ruled {
            row,
            points,
            raises,
            syncs,
            ..
        } => can_rule(
            alloc,
            own,
            what,
            asked,
            *row,
            points.as_slice(),
            raises.as_slice(),
            syncs.as_slice(),
        ),
        Answer::Changed {
            row,
            points,
            raises,
            syncs,
            ..
        } => can_rule(
            alloc,
            own,
            what,
            asked,
            *row,
            points.as_slice(),
            raises.as_slice(),
            syncs.as_slice(),
        ),
        Answer::Listed { raises, syncs, .. } => {
            can_list(alloc, own, what, raises.as_slice(), syncs.as_slice())
        }
        Answer::Undecided { sync, .. } => Ok(can_wait(kind, what, sync)),
        Answer::Decided {
            sync,
            raises,
            syncs,
            ended,
            ..
        } => can_decide(
            alloc,
            kind,
            what,
            asked,
            sync,
            raises.as_slice(),
            syncs.as_slice(),
            ended,
        ),
        Answer::Moved { colour, .. } => Ok(guards(what, *colour)),
        Answer::NoTx => Ok(is_commit(what)),
        Answer::Took { point, sync, .. } => Ok(can_take(what, asked, point, sync)),
        Answer::UnreadTrimmed { .. } => Ok(reads_behind(what)),
        Answer::UnreadNoMemory { .. } => Ok(reads_behind(what)),
        Answer::Trimmed { colour, .. } => Ok(syncs_in(own, what, *colour)),
        Answer::NotHome { .. } => Ok(has_home(kind)),
    }
}

// Whether an answer may be shown with these nodes.
fn may_show(nodes: &Items, answer: &Answer) -> bool
    ensures { Tells result (MayShow nodes.now answer.now) }
{
    match answer {
        Answer::Synced { .. } | Answer::Scanned { .. } => true,
        _ => nodes.is_empty(),
    }
}

/// Whether a command that appends to these colours can have this answer, shown with these nodes.
pub fn can_have(
    alloc: Global,
    objects: &[Object],
    what: &What,
    asked: &[u8],
    nodes: &Items,
    answer: &Answer,
) -> Result<bool, AllocError>
    requires { HaveLowColours objects.now }
    ensures { (caller : Caller) (kept : Kept) → caller.objects ≡ objects.now
        → asked.now ≡ colours_asked caller kept what.now
        → IfOk result (λ ok. Tells ok (CanHave caller kept what.now nodes.now answer.now)) }
{
    if !may_show(nodes, answer) {
        return Ok(false);
    }
    can_be_answered(alloc, kind_asked(objects, what), what, asked, answer)
}
