// Whether an answer shows what it has to, part after part.
ghost use Rattle.std.specs.Prelude.{◌≡◌, ◌<◌, ◌∷◌, [], IfOk, ℕ, List, None, length, map};
ghost use Rattle.std.specs.List.{All};
ghost use Rattle.log_node.specs.declared.node.Node.{Node};
ghost use Rattle.col_core.specs.Keeping.{Kept};
ghost use Rattle.script_text.specs.Fitting.{IsWithin};
ghost use Rattle.report_text.specs.declared.report.Answer.TheVariants as answers;
ghost use Rattle.lawful_run.specs.Callers.{caller_of};
ghost use Rattle.lawful_run.specs.Reads.{AreKeysRead, kept_after_piece};
ghost use Rattle.column_track.specs.Tracks.{Tells};
ghost use Rattle.run_rules.specs.Answering.{HasReads};
ghost use Rattle.run_rules.specs.Told.{Untold, kept_after_append, kept_after_end, kept_after_read, kept_deciding, kept_pulled, kept_trimmed, stamp_told};
ghost use Rattle.run_rules.specs.Telling.{log_of, low_told, replies_to};
ghost use Rattle.run_rules.specs.Shown.{ReadsColours, Shows, SyncsAsTold};
ghost use Rattle.walk_law.specs.Behind.{LeavesOutSteps};
ghost use Rattle.walk_law.specs.Keepings.{IsCounted, KeepsCount};
ghost use Rattle.walk_law.specs.Ninth.{IsTextFirst, PassesTo, PlaysShown, key_shown};
ghost use Rattle.walk_law.specs.Walking.{HasFew, log_walked};

use crate::keeping::Keeping;
use crate::scanning::are_texts_first;
use crate::shown_texts::ShownTexts;
use crate::subject::Subject;
use log_node::{At, Counts, Item};
use report_text::{Ended, PointPiece, RaisePiece, SyncPiece};
use script_text::What;
use std::alloc::{AllocError, Global};

impl Keeping {
    // Goes on behind a sync, where it is as the log says.
    pub(crate) fn shows_sync(&mut self, subject: &Subject<'_>, client: u8, sync: SyncPiece) -> bool
        requires { client < length subject.now.report.clients }
        ensures kept { (told : ℕ → List Node) (kept : Kept) → sync.colour < subject.now.script.shape.colours
            → IsCounted (replies_to subject.now.report client) kept self.old
            → PassesTo (replies_to subject.now.report client)
            (SyncsAsTold (log_of subject.now.report told) (caller_of subject.now.script client) kept sync)
            (kept_after_piece (log_of subject.now.report told) (caller_of subject.now.script client) kept sync) self.new result }
        ensures count { KeepsCount self.old self.new }
    {
        if !self.is_sync(subject, client, sync) {
            return false;
        }
        self.sync(subject, client, sync);
        true
    }

    // Whether a sync is as the log says, and shows what it played.
    fn is_played(
        &self,
        subject: &Subject<'_>,
        client: u8,
        texts: &ShownTexts<'_>,
        sync: SyncPiece,
        plays: u64,
        nodes: &[Item],
    ) -> bool
        requires { client < length subject.now.report.clients }
        ensures { (told : ℕ → List Node) (kept : Kept) → sync.colour < subject.now.script.shape.colours
            → IsCounted (replies_to subject.now.report client) kept self.now → Tells result
            ((plays ≡ length nodes.now)
            × SyncsAsTold (log_of subject.now.report told) (caller_of subject.now.script client) kept sync
            × PlaysShown (log_of subject.now.report told) (caller_of subject.now.script client) kept sync.colour sync.events
            sync.counts nodes.now
            × All (IsTextFirst texts.now) nodes.now) }
    {
        if plays != nodes.len() as u64 {
            return false;
        }
        if !self.is_sync(subject, client, sync) {
            return false;
        }
        if !self.plays(subject, client, sync, nodes) {
            return false;
        }
        are_texts_first(texts, nodes)
    }

    // Goes on behind such a sync.
    pub(crate) fn shows_played(
        &mut self,
        subject: &Subject<'_>,
        client: u8,
        texts: &ShownTexts<'_>,
        sync: SyncPiece,
        plays: u64,
        nodes: &[Item],
    ) -> bool
        requires { client < length subject.now.report.clients }
        ensures { (told : ℕ → List Node) (kept : Kept) → sync.colour < subject.now.script.shape.colours
            → IsCounted (replies_to subject.now.report client) kept self.old
            → PassesTo (replies_to subject.now.report client) ((plays ≡ length nodes.now)
            × SyncsAsTold (log_of subject.now.report told) (caller_of subject.now.script client) kept sync
            × PlaysShown (log_of subject.now.report told) (caller_of subject.now.script client) kept sync.colour sync.events
            sync.counts nodes.now
            × All (IsTextFirst texts.now) nodes.now)
            (kept_after_piece (log_of subject.now.report told) (caller_of subject.now.script client) kept sync) self.new result }
    {
        if !self.is_played(subject, client, texts, sync, plays, nodes) {
            return false;
        }
        self.sync(subject, client, sync);
        true
    }

    // Goes on behind a scan, where it is as the log says and shows what it read.
    pub(crate) fn shows_scan(
        &mut self,
        alloc: Global,
        subject: &Subject<'_>,
        client: u8,
        texts: &ShownTexts<'_>,
        stamp: u64,
        count: u64,
        raises: &[RaisePiece],
        syncs: &[SyncPiece],
        nodes: &[Item],
    ) -> Result<bool, AllocError>
        requires { client < length subject.now.report.clients }
        ensures { (told : ℕ → List Node) (kept : Kept) (colours : List ℕ) → HasReads colours raises.now syncs.now
            → All (λ c. c < subject.now.script.shape.colours) colours
            → IsCounted (replies_to subject.now.report client) kept self.old
            → IfOk result (PassesTo (replies_to subject.now.report client) ((count ≡ length nodes.now)
            × ReadsColours (log_of subject.now.report told) (caller_of subject.now.script client) kept colours stamp raises.now syncs.now
            × AreKeysRead (log_of subject.now.report told) (caller_of subject.now.script client) stamp syncs.now (map key_shown nodes.now)
            × All (IsTextFirst texts.now) nodes.now)
            (kept_after_read (log_of subject.now.report told) (caller_of subject.now.script client) kept stamp raises.now syncs.now)
            self.new) }
    {
        if count != nodes.len() as u64 {
            return Ok(false);
        }
        if !are_texts_first(texts, nodes) {
            return Ok(false);
        }
        if !subject.are_keys_read(alloc, client, stamp, syncs, nodes)? {
            return Ok(false);
        }
        self.reads(subject, client, stamp, raises, syncs)
    }

    // Goes on behind a pull, where it is as the log says.
    pub(crate) fn shows_pull(
        &mut self,
        subject: &Subject<'_>,
        client: u8,
        what: &What,
        nodes: u64,
        give: At,
        carry: At,
    ) -> Result<bool, AllocError>
        requires { client < length subject.now.report.clients }
        ensures { (told : ℕ → List Node) (kept : Kept) (untold : Untold)
            → IsWithin subject.now.script.shape.regions subject.now.script.shape.colours what.now
            → untold.too_low ≡ low_told (log_walked subject.now) (caller_of subject.now.script client) kept what.now
            (answers.Pulled nodes give carry)
            → IsCounted (replies_to subject.now.report client) kept self.old
            → IfOk result (PassesTo (replies_to subject.now.report client) (Shows (log_of subject.now.report told) untold
            (caller_of subject.now.script client) kept what.now [] (answers.Pulled nodes give carry))
            (kept_pulled untold (caller_of subject.now.script client) kept what.now give carry) self.new) }
    {
        let What::Pull { region, colour } = what else {
            return Ok(false);
        };
        let At::Event(place) = give else {
            return Ok(false);
        };
        if !self.is_pull(subject, client, *region, *colour, nodes, place, carry) {
            return Ok(false);
        }
        self.pulled(subject, client, what, give, carry)?;
        Ok(true)
    }

    // Goes on behind a trim, where it is as the log says.
    pub(crate) fn shows_trim(
        &mut self,
        subject: &Subject<'_>,
        client: u8,
        what: &What,
        at: At,
        base: Counts,
    ) -> Result<bool, AllocError>
        requires { client < length subject.now.report.clients }
        ensures { (told : ℕ → List Node) (kept : Kept) (untold : Untold)
            → IsWithin subject.now.script.shape.regions subject.now.script.shape.colours what.now
            → IsCounted (replies_to subject.now.report client) kept self.old
            → IfOk result (PassesTo (replies_to subject.now.report client) (Shows (log_of subject.now.report told) untold
            (caller_of subject.now.script client) kept what.now [] (answers.Based at base))
            (kept_trimmed (caller_of subject.now.script client) kept what.now at) self.new) }
    {
        let What::Trim { colour } = what else {
            return Ok(false);
        };
        let At::Event(place) = at else {
            return Ok(false);
        };
        if !self.is_trim(subject, client, *colour, place, base) {
            return Ok(false);
        }
        self.trimmed(subject.own(client), what, at)?;
        Ok(true)
    }

    // Goes on behind an append that stands, and a stamped read behind it, where that is as the log says.
    pub(crate) fn shows_behind(
        &mut self,
        alloc: Global,
        subject: &Subject<'_>,
        client: u8,
        row: Option<u32>,
        points: &[PointPiece],
        stamp: u64,
        raises: &[RaisePiece],
        syncs: &[SyncPiece],
    ) -> Result<bool, AllocError>
        requires walker { client < length subject.now.report.clients }
        requires few { HasFew self.old }
        ensures { (told : ℕ → List Node) (kept : Kept) (untold : Untold) (colours : List ℕ) → HasReads colours raises.now syncs.now
            → All (λ c. c < subject.now.script.shape.colours) colours → LeavesOutSteps subject.now client kept.ids untold
            → IsCounted (replies_to subject.now.report client) kept self.old
            → IfOk result (PassesTo (replies_to subject.now.report client) (ReadsColours (log_of subject.now.report told)
            (caller_of subject.now.script client) (kept_after_append untold (caller_of subject.now.script client) kept
            (stamp_told (log_walked subject.now) (caller_of subject.now.script client) kept row points.now) row points.now) colours stamp
            raises.now syncs.now)
            (kept_after_read (log_of subject.now.report told) (caller_of subject.now.script client)
            (kept_after_append untold (caller_of subject.now.script client) kept
            (stamp_told (log_walked subject.now) (caller_of subject.now.script client) kept row points.now) row points.now) stamp
            raises.now syncs.now) self.new) }
    {
        self.append_told(alloc, subject, client, row, points)?;
        self.reads(subject, client, stamp, raises, syncs)
    }

    // Goes on behind an append that stands, and a sync behind it, where that is as the log says.
    pub(crate) fn shows_taken(
        &mut self,
        alloc: Global,
        subject: &Subject<'_>,
        client: u8,
        point: &PointPiece,
        sync: SyncPiece,
    ) -> Result<bool, AllocError>
        requires walker { client < length subject.now.report.clients }
        requires few { HasFew self.old }
        ensures { (told : ℕ → List Node) (kept : Kept) (untold : Untold) → sync.colour < subject.now.script.shape.colours
            → LeavesOutSteps subject.now client kept.ids untold → IsCounted (replies_to subject.now.report client) kept self.old
            → IfOk result (PassesTo (replies_to subject.now.report client) (SyncsAsTold (log_of subject.now.report told)
            (caller_of subject.now.script client) (kept_after_append untold (caller_of subject.now.script client) kept
            (stamp_told (log_walked subject.now) (caller_of subject.now.script client) kept None (point.now ∷ [])) None (point.now ∷ []))
            sync)
            (kept_after_piece (log_of subject.now.report told) (caller_of subject.now.script client)
            (kept_after_append untold (caller_of subject.now.script client) kept
            (stamp_told (log_walked subject.now) (caller_of subject.now.script client) kept None (point.now ∷ [])) None (point.now ∷ []))
            sync) self.new) }
    {
        self.append_told(alloc, subject, client, None, std::slice::from_ref(point))?;
        Ok(self.shows_sync(subject, client, sync))
    }

    // Goes on behind a decision, where its sync and its stamped read are as the log says.
    pub(crate) fn shows_decided(
        &mut self,
        subject: &Subject<'_>,
        client: u8,
        sync: SyncPiece,
        stamp: u64,
        raises: &[RaisePiece],
        syncs: &[SyncPiece],
        ended: Ended,
    ) -> Result<bool, AllocError>
        requires walker { client < length subject.now.report.clients }
        requires few { HasFew self.old }
        ensures { (told : ℕ → List Node) (kept : Kept) (untold : Untold) (colours : List ℕ) → HasReads colours raises.now syncs.now
            → All (λ c. c < subject.now.script.shape.colours) colours → sync.colour < subject.now.script.shape.colours
            → IsCounted (replies_to subject.now.report client) kept self.old
            → IfOk result (PassesTo (replies_to subject.now.report client)
            (SyncsAsTold (log_of subject.now.report told) (caller_of subject.now.script client) kept sync
            × ReadsColours (log_of subject.now.report told) (caller_of subject.now.script client)
            (kept_after_piece (log_of subject.now.report told) (caller_of subject.now.script client) kept sync) colours stamp raises.now
            syncs.now)
            (kept_after_end untold (caller_of subject.now.script client)
            (kept_deciding (log_of subject.now.report told) (caller_of subject.now.script client) kept sync stamp raises.now syncs.now)
            ended) self.new) }
    {
        if !self.shows_sync(subject, client, sync) {
            return Ok(false);
        }
        if !self.reads(subject, client, stamp, raises, syncs)? {
            return Ok(false);
        }
        self.ended(client, subject.own(client), ended)?;
        Ok(true)
    }
}
