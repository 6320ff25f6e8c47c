// The lines of a client: its name, its replies, and the nodes that they show.
ghost use Rattle.std.specs.Prelude.{◌≡◌};
ghost use Rattle.script_text.specs.Words.{word_text};
ghost use Rattle.report_text.specs.Output.{Adds};
ghost use Rattle.report_text.specs.Replies.{node_line, reply_lines, client_lines};

use crate::names::NameIndex;
use crate::output::Output;
use crate::printed::{Printed, print_each};
use crate::report::{ClientReport, ReplyLine};
use log_node::{Item, Key};
use script_text::Word;

fn put_word<O: Output>(word: Word, out: &mut O)
    ensures { Adds (O.state out.old) (O.state out.new) (word_text word) }
{
    out.put(word.as_bytes());
}

fn key_of(item: &Item) -> Key
    ensures { result ≡ item.now.head.key }
{
    item.head.key
}

impl Printed for Item {
    ghost text = { node_line };

    fn print<O: Output>(&self, names: &NameIndex<'_>, out: &mut O) {
        out.put(b"+ ");
        let key = key_of(self);
        key.id.print(names, out);
        out.put(b" ");
        out.put_number(key.stamp);
        out.put(b" ");
        self.node().text.print(names, out);
        out.put(b"\n");
    }
}

impl Printed for ReplyLine {
    ghost text = { reply_lines };

    fn print<O: Output>(&self, names: &NameIndex<'_>, out: &mut O) {
        out.put_number(self.line as u64);
        out.put(b" ");
        put_word(self.word, out);
        out.put(b" ");
        self.answer.print(names, out);
        out.put(b"\n");
        print_each(&self.nodes, names, out);
    }
}

impl Printed for ClientReport {
    ghost text = { client_lines };

    fn print<O: Output>(&self, names: &NameIndex<'_>, out: &mut O) {
        out.put(b"client ");
        self.name.print(names, out);
        out.put(b"\n");
        print_each(&self.replies, names, out);
    }
}
