// The replies of clients, and the nodes that they show.
ghost use Rattle.std.specs.Prelude.{◌≡◌, ◌==◌, ◌≤◌, nat_lt, length, IfOk};
ghost use Rattle.std.specs.List.{list_all};
ghost use Rattle.log_node.specs.Vectors.{zeros};
ghost use Rattle.script_text.specs.Pieces.{is_between, is_digit, is_text};
ghost use Rattle.report_reading.specs.Known.{is_causal, gets_many, many_of};
ghost use Rattle.report_reading.specs.Meant.{bare_node};
ghost use Rattle.report_reading.specs.Lists.{Gives};
ghost use Rattle.report_reading.specs.Pieces.{first_of};
ghost use Rattle.report_reading.specs.ReplyReadings.{line_len, text_at, shown_at, log_word, object_word, newer_word, word_named, fitting_answer_at, reply_at, client_begins, client_at};

use crate::answers::{answer, has_answer};
use crate::fault::ReadFault;
use crate::lists::{Readable, list};
use crate::pieces::{behind, first, id, name, number, small, word};
use crate::setting::Setting;
use log_node::{Colours, Counts, Head, Item, Key, MAX_TEXT, Node, Text, Wants};
use report_text::{Answer, ClientReport, ReplyLine};
use script_text::{Kind, Script, What, Word};
use std::alloc::{AllocError, Global};
use std::sync::Arc;

// How many bytes the line has that begins here.
fn line_len(bytes: &[u8]) -> usize
    ensures len { result ≡ line_len bytes.now }
    ensures within { result ≤ length bytes.now }
{
    let mut len = 0;
    let mut rest = bytes;
    while let [first, others @ ..] = rest {
        if *first == b'\n' {
            break;
        }
        len += 1;
        rest = others;
    }
    len
}

// Whether no byte is a blank, a control or beyond ASCII.
fn are_visible(bytes: &[u8]) -> bool
    ensures { result ≡ list_all (is_between 33 126) bytes.now }
{
    bytes.iter().all(|b| matches!(*b, b'!'..=b'~'))
}

// 1 to 200 bytes, none a blank.
fn is_text(bytes: &[u8]) -> bool
    ensures { result ≡ is_text bytes.now }
{
    1 <= bytes.len() && bytes.len() <= MAX_TEXT && are_visible(bytes)
}

// A node's text, which goes to the end of the line.
#[tactic(auto, unfolding(crate::specs::ReplyReadings::text_at))]
fn text_of(alloc: Global, bytes: &[u8]) -> Result<(Text, &[u8]), ReadFault>
    ensures { Gives (λ x. (x.0, x.1.now)) result (text_at bytes.now) }
{
    let (text, rest) = bytes.split_at(line_len(bytes));
    if !is_text(text) {
        return Err(ReadFault::Form);
    }
    Ok((Text::copied(alloc, text)?, rest))
}

// A node of which no more is known than its key and its text.
fn shown(alloc: Global, key: Key, text: Text) -> Result<Item, AllocError>
    ensures { IfOk result (λ item. item ≡ record { head = record { key = key; needs = zeros }; node = bare_node key.id text }) }
{
    let node = Node {
        id: key.id,
        region: 0,
        colours: Colours(0),
        text,
        floor: 0,
        wants: Wants::new(alloc),
        row: None,
    };
    let head = Head {
        key,
        needs: Counts::zeros(),
    };
    Ok(Item {
        head,
        node: Arc::new(alloc, node)?,
    })
}

impl Readable for Item {
    ghost begins_at = { λ _ _ bytes. first_of bytes == 43 };

    ghost value_at = { λ known _ bytes. shown_at known bytes };

    fn begins(_setting: &Setting<'_>, _place: usize, bytes: &[u8]) -> bool {
        first(bytes) == b'+'
    }

    #[tactic(auto, unfolding(crate::specs::ReplyReadings::shown_at))]
    fn read<'b>(
        alloc: Global,
        setting: &Setting<'_>,
        _place: usize,
        bytes: &'b [u8],
    ) -> Result<(Item, &'b [u8]), ReadFault> {
        let (id, rest) = id(setting.script(), behind(bytes, 2));
        let (stamp, rest) = number(behind(rest, 1));
        let (text, rest) = text_of(alloc, behind(rest, 1))?;
        let item = shown(alloc, Key { stamp, id }, text)?;
        Ok((item, behind(rest, 1)))
    }
}

// A word of the log itself.
fn log_word(name: &[u8]) -> Option<Word>
    ensures { result ≡ log_word name.now }
{
    if name == b"append".as_slice() {
        Some(Word::Append)
    } else if name == b"sync".as_slice() {
        Some(Word::Sync)
    } else if name == b"pull".as_slice() {
        Some(Word::Pull)
    } else if name == b"scan".as_slice() {
        Some(Word::Scan)
    } else if name == b"trim".as_slice() {
        Some(Word::Trim)
    } else if name == b"stop".as_slice() {
        Some(Word::Stop)
    } else if name == b"only".as_slice() {
        Some(Word::Only)
    } else {
        None
    }
}

// A word of maps, transactional maps and queues.
fn object_word(name: &[u8]) -> Option<Word>
    ensures { result ≡ object_word name.now }
{
    if name == b"put".as_slice() {
        Some(Word::Put)
    } else if name == b"get".as_slice() {
        Some(Word::Get)
    } else if name == b"del".as_slice() {
        Some(Word::Del)
    } else if name == b"putall".as_slice() {
        Some(Word::PutAll)
    } else if name == b"getall".as_slice() {
        Some(Word::GetAll)
    } else if name == b"read".as_slice() {
        Some(Word::Read)
    } else if name == b"commit".as_slice() {
        Some(Word::Commit)
    } else if name == b"enq".as_slice() {
        Some(Word::Enq)
    } else if name == b"deq".as_slice() {
        Some(Word::Deq)
    } else {
        None
    }
}

// A word of trees, and of transactional maps whose colours are read alone.
fn newer_word(name: &[u8]) -> Option<Word>
    ensures { result ≡ newer_word name.now }
{
    if name == b"mk".as_slice() {
        Some(Word::Mk)
    } else if name == b"rm".as_slice() {
        Some(Word::Rm)
    } else if name == b"mv".as_slice() {
        Some(Word::Mv)
    } else if name == b"ls".as_slice() {
        Some(Word::Ls)
    } else if name == b"peek".as_slice() {
        Some(Word::Peek)
    } else if name == b"decide".as_slice() {
        Some(Word::Decide)
    } else {
        None
    }
}

// The word that has this text.
fn word_named(name: &[u8]) -> Option<Word>
    ensures { result ≡ word_named name.now }
{
    if let Some(word) = log_word(name) {
        return Some(word);
    }
    if let Some(word) = object_word(name) {
        return Some(word);
    }
    newer_word(name)
}

// An answer that the word has.
#[tactic(auto, unfolding(crate::specs::ReplyReadings::fitting_answer_at))]
fn fitting_answer<'b>(
    alloc: Global,
    setting: &Setting<'_>,
    many: bool,
    word: Word,
    bytes: &'b [u8],
) -> Result<(Answer, &'b [u8]), ReadFault>
    ensures { Gives (λ x. (x.0, x.1.now)) result (fitting_answer_at setting.now many word bytes.now) }
{
    let (answer, rest) = answer(alloc, setting, many, word, bytes)?;
    if !has_answer(many, word, &answer) {
        return Err(ReadFault::Form);
    }
    Ok((answer, rest))
}

impl Readable for ReplyLine {
    ghost begins_at = { λ _ _ bytes. is_digit (first_of bytes) };

    ghost value_at = { λ known place bytes. reply_at known place bytes };

    fn begins(_setting: &Setting<'_>, _place: usize, bytes: &[u8]) -> bool {
        first(bytes).is_ascii_digit()
    }

    #[tactic(auto, unfolding(crate::specs::ReplyReadings::reply_at))]
    fn read<'b>(
        alloc: Global,
        setting: &Setting<'_>,
        place: usize,
        bytes: &'b [u8],
    ) -> Result<(ReplyLine, &'b [u8]), ReadFault> {
        let (line, rest) = small(bytes);
        let (name, rest) = word(behind(rest, 1));
        let Some(word) = word_named(name) else {
            return Err(ReadFault::Form);
        };
        let many = setting.is_many(place);
        let (answer, rest) = fitting_answer(alloc, setting, many, word, behind(rest, 1))?;
        let (nodes, rest) = list(alloc, setting, behind(rest, 1))?;
        let reply = ReplyLine {
            line,
            word,
            answer,
            nodes,
        };
        Ok((reply, rest))
    }
}

// Whether a command gets from a causal map.
fn gets_many(script: &Script, what: &What) -> bool
    ensures { result ≡ gets_many script.now.objects what.now }
{
    let What::Get { object, .. } = what else {
        return false;
    };
    match script.objects.get(*object as usize) {
        Some(object) => matches!(object.kind, Kind::Causal { .. }),
        None => false,
    }
}

// Whether each command of a client gets from a causal map.
fn many_of(alloc: Global, script: &Script, client: usize) -> Result<Vec<bool>, AllocError>
    ensures { IfOk result (λ many. many.items ≡ many_of script.now.objects client script.now.commands) }
{
    let mut many = Vec::new(alloc);
    for command in script.commands.as_slice() {
        if command.client as usize == client {
            many.push(gets_many(script, &command.what))?;
        }
    }
    Ok(many)
}

impl Readable for ClientReport {
    ghost begins_at = { λ known place _. client_begins known place };

    ghost value_at = { λ known place bytes. client_at known place bytes };

    fn begins(setting: &Setting<'_>, place: usize, _bytes: &[u8]) -> bool {
        place < setting.script().clients.len()
    }

    #[tactic(auto, unfolding(crate::specs::ReplyReadings::client_at))]
    fn read<'b>(
        alloc: Global,
        setting: &Setting<'_>,
        place: usize,
        bytes: &'b [u8],
    ) -> Result<(ClientReport, &'b [u8]), ReadFault> {
        let script = setting.script();
        let name = name(&script.clients, place);
        let many = many_of(alloc, script, place)?;
        let own = Setting::of_client(script, many.as_slice());
        let rest = behind(behind(behind(bytes, 7), name.len()), 1);
        let (replies, rest) = list(alloc, &own, rest)?;
        let name = Text::copied(alloc, name)?;
        Ok((ClientReport { name, replies }, rest))
    }
}
