// The nodes that a scan shows, and their texts.
ghost use Rattle.std.specs.Prelude.{◌≡◌, ◌<◌, IfOk, ℕ, List, length, map, take};
ghost use Rattle.std.specs.List.{All};
ghost use Rattle.log_node.specs.declared.node.Node.{Node};
ghost use Rattle.col_core.specs.History.{line};
ghost use Rattle.lawful_run.specs.Callers.{caller_of};
ghost use Rattle.lawful_run.specs.Reads.{AreKeysRead, lines_read};
ghost use Rattle.column_track.specs.Tracks.{Tells};
ghost use Rattle.playback.specs.Merging.{AreRising, region_order};
ghost use Rattle.run_rules.specs.Telling.{log_of};
ghost use Rattle.walk_law.specs.Ninth.{IsTextFirst, key_shown};
ghost use Rattle.walk_law.specs.Walking.{journal_walked, log_walked};

use crate::shown_texts::ShownTexts;
use crate::subject::Subject;
use col_core::region_order_is_unique;
use log_node::{Item, Key};
use playback::{region_order_is_lawful, with_line};
use report_text::SyncPiece;
use std::alloc::{AllocError, Global};

// Whether a line shows the text that is first shown of its node.
fn is_text_first(texts: &ShownTexts<'_>, item: &Item) -> bool
    ensures { Tells result (IsTextFirst texts.now item.now) }
{
    match texts.text(item.head.key.id) {
        Some(text) => text == item.node().text.as_bytes(),
        None => false,
    }
}

// Whether all of them do.
pub(crate) fn are_texts_first(texts: &ShownTexts<'_>, nodes: &[Item]) -> bool
    ensures { Tells result (All (IsTextFirst texts.now) nodes.now) }
{
    for item in nodes {
        if !is_text_first(texts, item) {
            return false;
        }
    }
    true
}

// Whether lines show these keys, one after another.
fn show_keys(keys: &[Key], nodes: &[Item]) -> bool
    ensures { Tells result (keys.now ≡ map key_shown nodes.now) }
{
    if keys.len() != nodes.len() {
        return false;
    }
    for at in 0..keys.len() {
        let item = &nodes[at];
        if !keys[at].is_same(item.head.key) {
            return false;
        }
    }
    true
}

impl Subject<'_> {
    // A column's line after so many events.
    fn line_until(&self, region: u8, colour: u8, events: u64) -> &[Key]
        ensures line { result.now ≡ line (take events (journal_walked self.now region colour)) }
        ensures rising { AreRising result.now }
    {
        if !self.has_column(region, colour) {
            return &[];
        }
        let track = self.track(region, colour);
        track.agrees();
        let all = self.event_count(region, colour);
        let count = self.line_length(region, colour, events.min(all));
        &track.line()[..count as usize]
    }

    // The keys in the lines at which the syncs of a stamped read looked, up to the stamp, in the order of the region.
    fn keys_read(
        &self,
        alloc: Global,
        client: u8,
        stamp: u64,
        syncs: &[SyncPiece],
    ) -> Result<Vec<Key>, AllocError>
        requires { client < length self.now.report.clients }
        ensures { IfOk result (λ keys. keys.items
            ≡ region_order stamp (lines_read (log_walked self.now) (caller_of self.now.script client) syncs.now)) }
    {
        let own = self.own(client);
        let mut keys = Vec::new(alloc);
        for sync in syncs {
            let line = self.line_until(own, sync.colour, sync.events);
            keys = with_line(alloc, keys.as_slice(), line, stamp)?;
        }
        Ok(keys)
    }

    // Whether node lines show the keys that a stamped read has.
    pub(crate) fn are_keys_read(
        &self,
        alloc: Global,
        client: u8,
        stamp: u64,
        syncs: &[SyncPiece],
        nodes: &[Item],
    ) -> Result<bool, AllocError>
        requires { client < length self.now.report.clients }
        ensures { (told : ℕ → List Node) → IfOk result (λ b. Tells b (AreKeysRead (log_of self.now.report told)
            (caller_of self.now.script client) stamp syncs.now (map key_shown nodes.now))) }
    {
        region_order_is_unique();
        region_order_is_lawful();
        self.agrees();
        let keys = self.keys_read(alloc, client, stamp, syncs)?;
        Ok(show_keys(keys.as_slice(), nodes))
    }
}
