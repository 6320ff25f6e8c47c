// The texts that a report's node lines show, by the ids of nodes.
ghost use Rattle.std.specs.Prelude.{◌≡◌, ◌++◌, IfOk, OnOk, List, None, Some, if◌then◌else◌};
ghost use Rattle.std.specs.List.{flat_map};
ghost use Rattle.std.specs.Option.{option_copied};
ghost use Rattle.log_node.specs.Order.{same_id};
ghost use Rattle.log_node.specs.Seen.{PlacedNode};
ghost use Rattle.log_node.specs.declared.ids.Id.{Id as NodeId};
ghost use Rattle.report_text.specs.declared.report.ReplyLine.{ReplyLine as Reply};
ghost use Rattle.run_rules.specs.Said.{shown_text};
ghost use Rattle.walk_law.specs.ShownTexts.{AreFirstTexts, text_in};

use log_node::{Id, Item};
use report_text::{ReplyLine, Report};
use std::alloc::{AllocError, Global};
use std::collections::BTreeMap;
use std::marker::Model;

// For each id the text of the line that was put in last.
#[derive(Drop)]
struct TextTable<'r> {
    by_id: BTreeMap<Id, &'r [u8]>,
}

impl<'r> TextTable<'r> {
    // None yet.
    fn new(alloc: Global) -> TextTable<'r>
        ensures { (id : NodeId) → text_in result id ≡ None }
    {
        TextTable {
            by_id: BTreeMap::new(alloc),
        }
    }

    // The text of a line, in place of that of another of its id.
    fn put(&mut self, item: &'r Item) -> Result<(), AllocError>
        ensures { (id : NodeId) → OnOk result (text_in self.new id ≡ (if same_id id item.now.head.key.id
            then Some item.now.node.text else text_in self.old id)) }
    {
        self.by_id
            .insert(item.head.key.id, item.node().text.as_bytes())?;
        Ok(())
    }

    // The texts of the lines of a reply, before those that are put in.
    fn put_reply(&mut self, reply: &'r ReplyLine) -> Result<(), AllocError>
        ensures { (lines : List PlacedNode) → AreFirstTexts lines self.old
            → OnOk result (AreFirstTexts (reply.now.nodes ++ lines) self.new) }
    {
        let items = reply.nodes.as_slice();
        for at in (0..items.len()).rev() {
            self.put(&items[at])?;
        }
        Ok(())
    }

    // The texts of the lines of replies, before those that are put in.
    fn put_replies(&mut self, replies: &'r [ReplyLine]) -> Result<(), AllocError>
        ensures { (lines : List PlacedNode) → AreFirstTexts lines self.old → OnOk result
            (AreFirstTexts (flat_map (λ (r : Reply). r.nodes) replies.now ++ lines) self.new) }
    {
        for at in (0..replies.len()).rev() {
            self.put_reply(&replies[at])?;
        }
        Ok(())
    }

    // The text of an id.
    fn text(&self, id: Id) -> Option<&'r [u8]>
        ensures { option_copied result ≡ text_in self.now id }
    {
        self.by_id.get(&id).copied()
    }
}

/// The texts that a report's node lines show, by the ids of nodes. Contracts see the report.
#[derive(Drop)]
pub struct ShownTexts<'r> {
    report: &'r Report,
    table: TextTable<'r>,
}

impl<'r> Model for ShownTexts<'r> {
    ghost use Rattle.report_text.specs.declared.report.Report.{Report};
    ghost use Rattle.run_rules.specs.Said.{node_lines};
    ghost use Rattle.walk_law.specs.ShownTexts.{AreFirstTexts};

    ghost Value = { Report };

    ghost view = { λ t. t.report.now };

    ghost invariant = { λ t. AreFirstTexts (node_lines t.report.now) t.table };
}

impl<'r> ShownTexts<'r> {
    /// The texts that a report shows.
    pub fn of_report(alloc: Global, report: &'r Report) -> Result<ShownTexts<'r>, AllocError>
        ensures { IfOk result (λ texts. texts ≡ report.now) }
    {
        let mut table = TextTable::new(alloc);
        let clients = report.clients.as_slice();
        for at in (0..clients.len()).rev() {
            table.put_replies(clients[at].replies.as_slice())?;
        }
        Ok(ShownTexts { report, table })
    }

    /// The text that the first line of an id shows, if there is one.
    pub fn text(&self, id: Id) -> Option<&'r [u8]>
        ensures { option_copied result ≡ shown_text self.now id }
    {
        self.table.text(id)
    }
}
