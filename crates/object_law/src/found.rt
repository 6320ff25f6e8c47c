// What the reads of a report found.
ghost use Rattle.std.specs.Prelude.{◌≡◌, ℕ, IfOk, OnOk};
ghost use Rattle.run_rules.specs.Computing.{any_decisions, finds_of};
ghost use Rattle.run_rules.specs.Keeping.{Keeps};
ghost use Rattle.object_law.specs.Drafts.{AreDrafts};
ghost use Rattle.object_law.specs.Found.{AreFoundBelow, AreFoundPlays, IsReadOf, colours_read};
ghost use Rattle.walk_law.specs.Finds.{FindsKeys, finds_at};

use crate::drafts::{DraftTable, drafts_of};
use crate::finds::{Decisions, Finds};
use crate::found_laws::versions_stand;
use crate::found_plays::FoundPlays;
use crate::reads_by_stamp::{StampedRead, reads_by_stamp};
use log_node::{ColourList, ListOf, Versions};
use report_text::{Answer, SyncPiece};
use std::alloc::{AllocError, Global};
use walk_law::Subject;

// The colours of syncs.
fn colours_read(alloc: Global, syncs: &[SyncPiece]) -> Result<ColourList, AllocError>
    ensures { IfOk result (λ colours. colours ≡ colours_read syncs.now) }
{
    let mut colours = ListOf::new(alloc);
    for sync in syncs {
        colours.push(sync.colour)?;
    }
    Ok(colours)
}

// What a read found, by what the reads with lower stamps found.
fn found_by(
    alloc: Global,
    subject: &Subject<'_>,
    drafts: &DraftTable,
    finds: &Finds,
    plays: &mut FoundPlays,
    read: StampedRead,
) -> Result<Versions, AllocError>
    requires read { IsReadOf subject.now read }
    requires plays { AreFoundPlays subject.now plays.old }
    requires drafts { AreDrafts subject.now any_decisions drafts.now }
    requires keeps { Keeps subject.now.script subject.now.report 9 }
    requires found { AreFoundBelow subject.now read.stamp (finds_at finds.now) }
    ensures found { IfOk result (λ found. found ≡ finds_of subject.now.script subject.now.report read.client read.place) }
    ensures plays { OnOk result (AreFoundPlays subject.now plays.new) }
{
    versions_stand();
    subject.agrees();
    match &subject.reply(read.client, read.place).answer {
        Answer::GotKeys { keys, syncs, .. } => {
            let colours = colours_read(alloc, syncs.as_slice())?;
            plays.find(
                alloc,
                subject,
                drafts,
                finds,
                subject.own(read.client),
                colours,
                read.stamp,
                keys.as_slice(),
            )
        }
        _ => Ok(ListOf::new(alloc)),
    }
}

/// What the reads of a report that keeps the first nine rules found.
pub fn finds_of(alloc: Global, subject: &Subject<'_>) -> Result<Finds, AllocError>
    requires { Keeps subject.now.script subject.now.report 9 }
    ensures finds { IfOk result (λ f. (client k : ℕ)
        → finds_at f client k ≡ finds_of subject.now.script subject.now.report client k) }
    ensures keys { IfOk result (λ f. FindsKeys subject.now.report (finds_at f)) }
{
    subject.agrees();
    let drafts = drafts_of(alloc, subject, &Decisions::none(alloc))?;
    let mut finds = Finds::unnamed(alloc, subject.report())?;
    let mut plays = FoundPlays::new(alloc, subject);
    let reads = reads_by_stamp(alloc, subject)?;
    for at in 0..reads.len() {
        let read = reads[at];
        let found = found_by(alloc, subject, &drafts, &finds, &mut plays, read)?;
        finds.note(read.client, read.place, found);
    }
    Ok(finds)
}
