// The tenth rule: objects answer what an object of one thread answers over the nodes that were played or read.
ghost use Rattle.std.specs.Prelude.{◌≡◌, ◌<◌, List, ℕ, IfOk, OnOk, length};
ghost use Rattle.log_node.specs.declared.node.Node.{Node as Appended};
ghost use Rattle.log_node.specs.Seen.{PlacedNode};
ghost use Rattle.object_fold.specs.Maps.{shard_value};
ghost use Rattle.object_fold.specs.Queues.{front_after};
ghost use Rattle.col_core.specs.Keeping.{Kept};
ghost use Rattle.lawful_run.specs.Asks.{kind_asked, kind_of_object};
ghost use Rattle.lawful_run.specs.Callers.{caller_of};
ghost use Rattle.lawful_run.specs.Explains.{ShowsVerdict};
ghost use Rattle.lawful_run.specs.Objects.{GetsValues};
ghost use Rattle.column_track.specs.Tracks.{Tells};
ghost use Rattle.run_rules.specs.Answering.{CanGet, CanHave};
ghost use Rattle.run_rules.specs.Deciding.{account_showing, nodes_showing};
ghost use Rattle.run_rules.specs.Keeping.{RulesTo};
ghost use Rattle.run_rules.specs.Shown.{OfMap, Rule10};
ghost use Rattle.run_rules.specs.Telling.{replies_to};
ghost use Rattle.walk_law.specs.Keepings.{IsCounted};
ghost use Rattle.object_law.specs.AnswerPlays.{AreQueuePlays, AreSeveralPlays, AreTxPlays, AreTxRulings};
ghost use Rattle.object_law.specs.CausalPlays.{AreCausalPlays, ShowsCut};
ghost use Rattle.object_law.specs.Fourteenth.{synced_nodes};
ghost use Rattle.object_law.specs.NodeTables.{AreNodes};
ghost use Rattle.object_law.specs.ObjectAnswers.{AreShardPlays, colours_used};
ghost use Rattle.object_law.specs.Tenth.{AnswersSo, AreValuesAsked, IsMapValue, IsRightAnswer, OfKeyAsked, line_nodes, log_with, stamped_nodes};
ghost use Rattle.object_law.specs.TenthPlays.{AnswersStand, AreAnswerPlays, AreBelow, AreColoursRead, HasCut, IsMap, sync_colours};

use crate::causal_plays::CausalPlays;
use crate::node_table::NodeTable;
use crate::object_laws::tenth_is_right;
use crate::play_walk::{PlayCheck, each_step_played};
use crate::queue_plays::QueuePlays;
use crate::several_plays::SeveralPlays;
use crate::shard_plays::ShardPlays;
use crate::tx_plays::TxPlays;
use crate::tx_told::TxRulings;
use log_node::{ColourList, Key, ListOf, Text};
use report_text::{Answer, KeyAnswer, PointPiece, SyncPiece};
use run_rules::{computed_account_agrees, finds_tell};
use script_text::{Kind, Script, What};
use std::alloc::{AllocError, Global};
use walk_law::{Keeping, Subject};

/// All objects that answered so far, played from answer to answer.
#[derive(Drop)]
pub(crate) struct AnswerPlays {
    shards: ShardPlays,
    queues: QueuePlays,
    causal: CausalPlays,
    several: SeveralPlays,
    maps: TxPlays,
    rulings: TxRulings,
}

// A GET

// Whether the object with this number is a map with a home, without transactions.
fn is_map(script: &Script, object: u8) -> bool
    ensures { (client : ℕ) → Tells result (IsMap (kind_of_object (caller_of script.now client) object)) }
{
    match script.objects.get(object as usize) {
        Some(found) => matches!(&found.kind, Kind::Map { .. }),
        None => false,
    }
}

// Whether a key has this value, where the object is a map: that of its shard behind the nodes that a sync played.
fn has_value(
    shards: &mut ShardPlays,
    alloc: Global,
    subject: &Subject<'_>,
    nodes: &NodeTable,
    client: u8,
    object: u8,
    key: &Text,
    value: &Option<Text>,
    sync: &SyncPiece,
) -> Result<bool, AllocError>
    requires client { client < length subject.now.report.clients }
    requires plays { AreShardPlays subject.now nodes.now shards.old }
    ensures told { (IsMap (kind_of_object (caller_of subject.now.script client) object)
        → sync.now.colour < subject.now.script.shape.colours) → IfOk result (λ b. Tells b
        (OfMap (kind_of_object (caller_of subject.now.script client) object)
        (value.now ≡ shard_value (colours_used subject.now.script object) sync.now.colour
        (synced_nodes subject.now nodes.now (caller_of subject.now.script client) sync.now) key.now))) }
    ensures plays { OnOk result (AreShardPlays subject.now nodes.now shards.new) }
{
    subject.agrees();
    if !is_map(subject.script(), object) {
        return Ok(true);
    }
    let own = subject.own(client);
    if sync.colour >= subject.script().shape.colours {
        return Ok(false);
    }
    let count = sync.counts.of_region(own);
    shards.is_value(
        alloc,
        subject,
        nodes,
        object,
        own,
        sync.colour,
        count,
        key,
        value,
    )
}

// Whether a get is answered by what the map has for its key.
fn gets_right(
    shards: &mut ShardPlays,
    alloc: Global,
    subject: &Subject<'_>,
    nodes: &NodeTable,
    client: u8,
    what: &What,
    value: &Option<Text>,
    sync: &SyncPiece,
) -> Result<bool, AllocError>
    requires client { client < length subject.now.report.clients }
    requires plays { AreShardPlays subject.now nodes.now shards.old }
    ensures told { CanGet (caller_of subject.now.script client) what.now sync.now value.now
        (kind_asked (caller_of subject.now.script client) what.now) → IfOk result (λ b. Tells b
        (IsMapValue (kind_asked (caller_of subject.now.script client) what.now) sync.now.colour what.now value.now
        (synced_nodes subject.now nodes.now (caller_of subject.now.script client) sync.now))) }
    ensures plays { OnOk result (AreShardPlays subject.now nodes.now shards.new) }
{
    subject.agrees();
    match what {
        What::Get { object, key } | What::Peek { object, key } => has_value(
            shards, alloc, subject, nodes, client, *object, key, value, sync,
        ),
        _ => Ok(true),
    }
}

// A DEQUEUE

// Whether a dequeue took what was in front of its node.
fn takes_front(
    queues: &mut QueuePlays,
    alloc: Global,
    subject: &Subject<'_>,
    nodes: &NodeTable,
    client: u8,
    value: &Option<Text>,
    point: &PointPiece,
) -> Result<bool, AllocError>
    requires client { client < length subject.now.report.clients }
    requires plays { AreQueuePlays subject.now nodes.now queues.old }
    ensures told { point.now.colour < subject.now.script.shape.colours → IfOk result (λ b. Tells b (value.now ≡ front_after
        (line_nodes subject.now nodes.now (caller_of subject.now.script client).own point.now.colour point.now.position))) }
    ensures plays { OnOk result (AreQueuePlays subject.now nodes.now queues.new) }
{
    let own = subject.own(client);
    if point.colour >= subject.script().shape.colours {
        return Ok(false);
    }
    queues.is_front(
        alloc,
        subject,
        nodes,
        own,
        point.colour,
        point.position,
        value,
    )
}

// A GET OF A CAUSAL MAP

// Whether a get is answered by what the causal map has for its key.
fn gets_many(
    causal: &mut CausalPlays,
    alloc: Global,
    subject: &Subject<'_>,
    nodes: &NodeTable,
    client: u8,
    what: &What,
    values: &[Text],
    sync: &SyncPiece,
) -> Result<bool, AllocError>
    requires client { client < length subject.now.report.clients }
    requires plays { AreCausalPlays subject.now nodes.now causal.old }
    ensures told { sync.now.colour < subject.now.script.shape.colours → ShowsCut subject.now client sync.now
        → IfOk result (λ b. Tells b (OfKeyAsked what.now (λ key. GetsValues (log_with subject.now nodes.now)
        (caller_of subject.now.script client) sync.now key values.now))) }
    ensures plays { OnOk result (AreCausalPlays subject.now nodes.now causal.new) }
{
    match what {
        What::Get { key, .. } | What::Peek { key, .. } => {
            causal.gets_values(alloc, subject, nodes, client, *sync, key, values)
        }
        _ => Ok(false),
    }
}

// STAMPED READS

// The colours of the syncs of a read, where each is one of the shape.
fn colours_read(
    alloc: Global,
    colours: u8,
    syncs: &[SyncPiece],
) -> Result<Option<ColourList>, AllocError>
    ensures { IfOk result (AreColoursRead colours syncs.now) }
{
    let mut read = ListOf::new(alloc);
    for sync in syncs {
        if sync.colour >= colours {
            return Ok(None);
        }
        read.push(sync.colour)?;
    }
    Ok(Some(read))
}

// Whether a read of keys is answered by what the map has for each behind the nodes of these colours.
fn has_values(
    several: &mut SeveralPlays,
    maps: &mut TxPlays,
    alloc: Global,
    subject: &Subject<'_>,
    nodes: &NodeTable,
    client: u8,
    what: &What,
    stamp: u64,
    shown: &[KeyAnswer],
    colours: &[u8],
) -> Result<bool, AllocError>
    requires client { client < length subject.now.report.clients }
    requires colours { AreBelow subject.now.script.shape.colours colours.now }
    requires several { AreSeveralPlays subject.now nodes.now several.old }
    requires maps { AreTxPlays subject.now nodes.now maps.old }
    ensures told { IfOk result (λ b. Tells b (AreValuesAsked (caller_of subject.now.script client) what.now shown.now
        (stamped_nodes subject.now nodes.now (caller_of subject.now.script client).own colours.now stamp))) }
    ensures several { OnOk result (AreSeveralPlays subject.now nodes.now several.new) }
    ensures maps { OnOk result (AreTxPlays subject.now nodes.now maps.new) }
{
    let own = subject.own(client);
    match what {
        What::GetAll { object, keys } => several.are_values(
            alloc,
            subject,
            nodes,
            *object,
            own,
            colours,
            stamp,
            keys.as_slice(),
            shown,
        ),
        What::Read { keys, .. } => maps.are_values(
            alloc,
            subject,
            nodes,
            own,
            colours,
            stamp,
            keys.as_slice(),
            shown,
        ),
        _ => Ok(false),
    }
}

// Whether it is, behind the nodes that its syncs read.
fn reads_right(
    several: &mut SeveralPlays,
    maps: &mut TxPlays,
    alloc: Global,
    subject: &Subject<'_>,
    nodes: &NodeTable,
    client: u8,
    what: &What,
    stamp: u64,
    shown: &[KeyAnswer],
    syncs: &[SyncPiece],
) -> Result<bool, AllocError>
    requires client { client < length subject.now.report.clients }
    requires several { AreSeveralPlays subject.now nodes.now several.old }
    requires maps { AreTxPlays subject.now nodes.now maps.old }
    ensures told { AreBelow subject.now.script.shape.colours (sync_colours syncs.now) → IfOk result (λ b. Tells b
        (AreValuesAsked (caller_of subject.now.script client) what.now shown.now
        (stamped_nodes subject.now nodes.now (caller_of subject.now.script client).own (sync_colours syncs.now) stamp))) }
    ensures several { OnOk result (AreSeveralPlays subject.now nodes.now several.new) }
    ensures maps { OnOk result (AreTxPlays subject.now nodes.now maps.new) }
{
    let Some(colours) = colours_read(alloc, subject.script().shape.colours, syncs)? else {
        return Ok(false);
    };
    has_values(
        several,
        maps,
        alloc,
        subject,
        nodes,
        client,
        what,
        stamp,
        shown,
        colours.as_slice(),
    )
}

// Whether this is the verdict on the client's own node with this key, behind the nodes that its syncs read.
fn shows_verdict(
    rulings: &mut TxRulings,
    alloc: Global,
    subject: &Subject<'_>,
    nodes: &NodeTable,
    client: u8,
    own: Key,
    conflict: &Option<Text>,
    stamp: u64,
    read_stamp: u64,
    syncs: &[SyncPiece],
) -> Result<bool, AllocError>
    requires client { client < length subject.now.report.clients }
    requires rulings { AreTxRulings subject.now nodes.now rulings.old }
    ensures told { AreBelow subject.now.script.shape.colours (sync_colours syncs.now) → IfOk result (λ b. Tells b
        (ShowsVerdict conflict.now stamp own (stamped_nodes subject.now nodes.now (caller_of subject.now.script client).own
        (sync_colours syncs.now) read_stamp))) }
    ensures rulings { OnOk result (AreTxRulings subject.now nodes.now rulings.new) }
{
    let Some(colours) = colours_read(alloc, subject.script().shape.colours, syncs)? else {
        return Ok(false);
    };
    rulings.shows_verdict(
        alloc,
        subject,
        nodes,
        subject.own(client),
        colours.as_slice(),
        read_stamp,
        own,
        conflict,
        stamp,
    )
}

// A STEP

impl AnswerPlays {
    // None has answered.
    fn new(alloc: Global, subject: &Subject<'_>) -> Result<AnswerPlays, AllocError>
        ensures { (table : List (List Appended)) → IfOk result (AreAnswerPlays subject.now table) }
    {
        Ok(AnswerPlays {
            shards: ShardPlays::new(alloc, subject),
            queues: QueuePlays::new(alloc, subject),
            causal: CausalPlays::new(alloc)?,
            several: SeveralPlays::new(alloc, subject),
            maps: TxPlays::new(alloc, subject),
            rulings: TxRulings::new(alloc, subject),
        })
    }

    // Whether an answer is right, of a client that keeps so much.
    fn is_right(
        &mut self,
        alloc: Global,
        subject: &Subject<'_>,
        nodes: &NodeTable,
        client: u8,
        keeping: &Keeping,
        what: &What,
        answer: &Answer,
    ) -> Result<bool, AllocError>
        requires client { client < length subject.now.report.clients }
        requires plays { AreAnswerPlays subject.now nodes.now self.old }
        ensures told { (kept : Kept) (lines : List PlacedNode)
            → IsCounted (replies_to subject.now.report client) kept keeping.now
            → CanHave (caller_of subject.now.script client) kept what.now lines answer.now
            → HasCut subject.now client answer.now → IfOk result (λ b. Tells b
            (IsRightAnswer subject.now nodes.now (caller_of subject.now.script client) kept what.now answer.now)) }
        ensures plays { OnOk result (AreAnswerPlays subject.now nodes.now self.new) }
    {
        subject.agrees();
        match answer {
            Answer::Got { value, sync } => gets_right(
                &mut self.shards,
                alloc,
                subject,
                nodes,
                client,
                what,
                value,
                sync,
            ),
            Answer::GotMany { values, sync } => gets_many(
                &mut self.causal,
                alloc,
                subject,
                nodes,
                client,
                what,
                values.as_slice(),
                sync,
            ),
            Answer::GotKeys {
                stamp,
                keys,
                syncs,
                ..
            } => reads_right(
                &mut self.several,
                &mut self.maps,
                alloc,
                subject,
                nodes,
                client,
                what,
                *stamp,
                keys.as_slice(),
                syncs.as_slice(),
            ),
            Answer::Ruled {
                conflict,
                stamp,
                row,
                points,
                read_stamp,
                syncs,
                ..
            } => {
                let own = Key {
                    stamp: keeping.stamp_told(subject, client, *row, points.as_slice()),
                    id: keeping.next_id(client),
                };
                shows_verdict(
                    &mut self.rulings,
                    alloc,
                    subject,
                    nodes,
                    client,
                    own,
                    conflict,
                    *stamp,
                    *read_stamp,
                    syncs.as_slice(),
                )
            }
            Answer::Took { value, point, .. } => takes_front(
                &mut self.queues,
                alloc,
                subject,
                nodes,
                client,
                value,
                point,
            ),
            _ => Ok(true),
        }
    }
}

impl PlayCheck for AnswerPlays {
    ghost Asks = { AnswersSo };

    ghost Stands = { AnswersStand };

    fn go_on(
        &mut self,
        alloc: Global,
        subject: &Subject<'_>,
        nodes: &NodeTable,
        client: u8,
        place: usize,
        keeping: &mut Keeping,
    ) -> Result<bool, AllocError> {
        let what = &subject.command(client, place).what;
        let answer = &subject.reply(client, place).answer;
        if !self.is_right(alloc, subject, nodes, client, keeping, what, answer)? {
            return Ok(false);
        }
        keeping.go_on(alloc, subject, client, place)?;
        Ok(true)
    }
}

/// Whether a report that keeps the first nine rules, at the account with what reads found and node lines show, keeps the tenth
/// there.
pub fn keeps_tenth(
    alloc: Global,
    subject: &Subject<'_>,
    nodes: &NodeTable,
) -> Result<bool, AllocError>
    requires nodes { AreNodes (nodes_showing subject.now.script subject.now.report) nodes.now }
    requires kept { RulesTo subject.now.script subject.now.report
        (account_showing subject.now.script subject.now.report) 9 }
    ensures { IfOk result (λ b. Tells b (Rule10 subject.now.script subject.now.report
        (account_showing subject.now.script subject.now.report))) }
{
    subject.agrees();
    finds_tell();
    computed_account_agrees();
    tenth_is_right();
    let mut plays = AnswerPlays::new(alloc, subject)?;
    each_step_played(alloc, subject, nodes, &mut plays)
}
