// Of the ninth rule: whether each text that is shown of a command's node is one that the command could have said.
ghost use Rattle.std.specs.Prelude.{◌≡◌, ◌++◌, ◌∷◌, ◌<◌, IfOk, IfSome, length};
ghost use Rattle.std.specs.Option.{option_copied};
ghost use Rattle.log_node.specs.declared.ids.Id.{Id as NodeId};
ghost use Rattle.object_form.specs.Forms.{equals, form_text, pairs_text};
ghost use Rattle.tree_fold.specs.Changes.{IsChange};
ghost use Rattle.col_core.specs.Keeping.{Kept};
ghost use Rattle.lawful_run.specs.Asks.{put_form};
ghost use Rattle.lawful_run.specs.Callers.{caller_of};
ghost use Rattle.lawful_run.specs.Deeds.{says_change};
ghost use Rattle.column_track.specs.Tracks.{Tells};
ghost use Rattle.run_rules.specs.Said.{CouldSayShown, ShownCouldBeSaid};
ghost use Rattle.run_rules.specs.Telling.{replies_to};
ghost use Rattle.walk_law.specs.Keepings.{IsCounted};
ghost use Rattle.walk_law.specs.TextsSaid.{CanSay, CommitsAs, SaysIfAny, ShowsSayable, stands, tells_node};
ghost use Rattle.walk_law.specs.Walking.{log_walked};

use crate::fronts::{behind, behind_pair, behind_pairs, is_whole};
use crate::keeping::Keeping;
use crate::object_colours::kind_asked;
use crate::shown_texts::ShownTexts;
use crate::subject::Subject;
use crate::walking::{Check, each_step};
use crate::writers::{is_decision, is_transaction_on};
use log_node::{Id, ListOf, Pair, Text};
use report_text::{Answer, Ended, KeyAnswer};
use script_text::{Kind, What};
use std::alloc::{AllocError, Global};
use tree_fold::{Change, make_change, move_change, remove_change, write_change};

// TEXTS

// Whether a text is this one.
fn is_text(text: &[u8], said: &[u8]) -> bool
    ensures { Tells result (text.now ≡ said.now) }
{
    text == said
}

// Whether a text is a front and a word.
fn is_word_of(text: &[u8], front: &[u8], word: &Text) -> bool
    ensures { Tells result (text.now ≡ front.now ++ word.now) }
{
    match behind(text, front) {
        Some(rest) => is_text(rest, word.as_bytes()),
        None => false,
    }
}

// Whether a text is a front and KEY=VALUE.
fn is_pair_of(text: &[u8], front: &[u8], key: &Text, value: &Text) -> bool
    ensures { Tells result (text.now ≡ front.now ++ (key.now ++ equals ∷ value.now)) }
{
    match behind(text, front) {
        Some(rest) => is_whole(behind_pair(rest, key, value)),
        None => false,
    }
}

// Whether a text is a front and pairs.
fn is_pairs_of(text: &[u8], front: &[u8], pairs: &[Pair]) -> bool
    ensures { Tells result (text.now ≡ front.now ++ pairs_text pairs.now) }
{
    match behind(text, front) {
        Some(rest) => is_whole(behind_pairs(rest, pairs)),
        None => false,
    }
}

// COMMANDS

// Whether a text is that of a put on an object of a kind.
fn is_put(text: &[u8], kind: Option<&Kind>, key: &Text, value: &Text) -> bool
    ensures { Tells result (text.now ≡ form_text (put_form (option_copied kind.entry) key.now value.now)) }
{
    match kind {
        Some(Kind::Causal { .. }) => is_pair_of(text, b"c:", key, value),
        _ => is_pair_of(text, b"p:", key, value),
    }
}

// Whether a commit could say a text, by the keys that its read showed; it says none where there is no read.
fn commits_as(text: &[u8], found: Option<&ListOf<KeyAnswer>>, pairs: &[Pair]) -> bool
    ensures { Tells result (CommitsAs (option_copied found.entry) pairs.now text.now) }
{
    match found {
        Some(shown) => is_transaction_on(text, shown.as_slice(), pairs),
        None => true,
    }
}

// Whether a text is that of a change; none is said where there is no change.
fn changes_as(alloc: Global, text: &[u8], change: Option<Change>) -> Result<bool, AllocError>
    requires { IfSome change IsChange }
    ensures { IfOk result (λ b. Tells b (SaysIfAny (says_change change) text.now)) }
{
    match change {
        Some(change) => {
            let said = write_change(alloc, &change)?;
            Ok(is_text(text, said.as_bytes()))
        }
        None => Ok(true),
    }
}

// Whether a command on an object of a kind, if it appends a node, can have it say a text, where the read that it uses up showed
// these keys.
fn can_say(
    alloc: Global,
    kind: Option<&Kind>,
    what: &What,
    found: Option<&ListOf<KeyAnswer>>,
    text: &[u8],
) -> Result<bool, AllocError>
    ensures { IfOk result (λ b. Tells b (CanSay (option_copied kind.entry) (option_copied found.entry) what.now text.now)) }
{
    match what {
        What::Append { text: said, .. } => Ok(is_text(text, said.as_bytes())),
        What::Stop { text: said, .. } => Ok(is_text(text, said.as_bytes())),
        What::Only { text: said, .. } => Ok(is_text(text, said.as_bytes())),
        What::Put { key, value, .. } => Ok(is_put(text, kind, key, value)),
        What::Del { key, .. } => Ok(is_word_of(text, b"d:", key)),
        What::PutAll { pairs, .. } => Ok(is_pairs_of(text, b"m:", pairs.as_slice())),
        What::Commit { pairs, .. } => Ok(commits_as(text, found, pairs.as_slice())),
        What::Enq { value, .. } => Ok(is_word_of(text, b"e:", value)),
        What::Deq { .. } => Ok(is_text(text, b"q:")),
        What::Mk { path, value, .. } => {
            let change = make_change(alloc, path.as_bytes(), value.as_bytes())?;
            changes_as(alloc, text, change)
        }
        What::Rm { path, .. } => {
            let change = remove_change(alloc, path.as_bytes())?;
            changes_as(alloc, text, change)
        }
        What::Mv { source, target, .. } => {
            let change = move_change(alloc, source.as_bytes(), target.as_bytes())?;
            changes_as(alloc, text, change)
        }
        What::Decide { .. } => Ok(is_decision(text)),
        What::Sync { .. }
        | What::Scan { .. }
        | What::Pull { .. }
        | What::Trim { .. }
        | What::Get { .. }
        | What::GetAll { .. }
        | What::Read { .. }
        | What::Ls { .. }
        | What::Peek { .. } => Ok(true),
    }
}

// STEPS

// Whether a decision's node stands.
fn stands(ended: &Ended) -> bool
    ensures { result ≡ stands ended.now }
{
    matches!(ended, Ended::Stood { .. })
}

/// Whether an answer tells a node of its command, by whether the command appends on several colours.
pub fn tells_node(several: bool, answer: &Answer) -> bool
    ensures { result ≡ tells_node several answer.now }
{
    match answer {
        Answer::Stood { .. }
        | Answer::Ruled { .. }
        | Answer::Changed { .. }
        | Answer::Took { .. } => true,
        Answer::StampEnd { .. } => several,
        Answer::Stopped { steps } => *steps != 0,
        Answer::Decided { ended, .. } => stands(ended),
        _ => false,
    }
}

// Whether what is shown of the node that an answer tells, if it tells one, could be said by the command of a client that keeps
// this.
fn shows_sayable(
    alloc: Global,
    subject: &Subject<'_>,
    texts: &ShownTexts<'_>,
    client: u8,
    keeping: &Keeping,
    what: &What,
    answer: &Answer,
) -> Result<bool, AllocError>
    requires { client < length subject.now.report.clients }
    ensures { (kept : Kept) → IsCounted (replies_to subject.now.report client) kept keeping.now
        → IfOk result (λ b. Tells b (ShowsSayable texts.now (log_walked subject.now) (caller_of subject.now.script client) kept
        what.now answer.now)) }
{
    subject.agrees();
    let count = keeping.ids();
    let Some(text) = texts.text(Id { client, count }) else {
        return Ok(true);
    };
    let several = keeping.is_several(alloc, subject, client, what)?;
    if !tells_node(several, answer) {
        return Ok(true);
    }
    let kind = kind_asked(subject.script().objects.as_slice(), what);
    let found = keeping.found_of(subject, client, what);
    can_say(alloc, kind, what, found, text)
}

// Looks at what is shown of each step's node.
#[derive(Drop)]
struct Sayings<'t, 'r> {
    texts: &'t ShownTexts<'r>,
}

impl<'t, 'r> Check for Sayings<'t, 'r> {
    // what is shown of the step's node could be said by its command
    ghost Asks = { λ sayings walked. CouldSayShown sayings.texts.now (log_walked walked) };

    fn go_on(
        &self,
        alloc: Global,
        subject: &Subject<'_>,
        client: u8,
        place: usize,
        keeping: &mut Keeping,
    ) -> Result<bool, AllocError> {
        let what = &subject.command(client, place).what;
        let answer = &subject.reply(client, place).answer;
        if !shows_sayable(alloc, subject, self.texts, client, keeping, what, answer)? {
            return Ok(false);
        }
        keeping.go_on(alloc, subject, client, place)?;
        Ok(true)
    }
}

/// Whether each text that a report shows of a command's node is one that the command could have said.
pub(crate) fn keeps_said(
    alloc: Global,
    subject: &Subject<'_>,
    texts: &ShownTexts<'_>,
) -> Result<bool, AllocError>
    requires { texts.now ≡ subject.now.report }
    ensures { IfOk result (λ b. Tells b (ShownCouldBeSaid subject.now.script subject.now.report)) }
{
    each_step(alloc, subject, &Sayings { texts })
}
