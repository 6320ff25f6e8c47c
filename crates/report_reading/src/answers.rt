// What commands were answered, by the first word and by the word of the command.
ghost use Rattle.std.specs.Prelude.{◌≡◌, None, Some};
ghost use Rattle.report_reading.specs.Lists.{Gives};
ghost use Rattle.report_reading.specs.Answers.{appending, changing, ruled, reading, of_log, is_of, has_answer};
ghost use Rattle.report_reading.specs.AnswerReadings.{stood_at, synced_at, scanned_at, pulled_at, based_at, got_at, got_many_at, got_keys_at, took_at, listed_at, missing_at, undecided_at, ended_at, decided_at, ruled_at, conflict_at, changed_at, why_named, failed_at, moved_at, unread_at, trimmed_at, stamp_end_at, full_at, stopped_at, not_home_at, short_at, ok_at, none_at, committed_at, conflicting_at, answer_at};

use crate::fault::ReadFault;
use crate::lists::list;
use crate::pieces::{
    behind, byte, colour, counts, first, number, place, point, region, small, sync, word,
};
use crate::reads::{key_text, read_of, row_told, ruling_of, texts, value, values};
use crate::setting::Setting;
use log_node::Text;
use object_form::TreeWhy;
use report_text::{Answer, Ended, Points};
use script_text::Word;
use std::alloc::Global;

#[tactic(auto, unfolding(crate::specs::AnswerReadings::stood_at))]
fn stood<'b>(
    alloc: Global,
    setting: &Setting<'_>,
    bytes: &'b [u8],
) -> Result<(Answer, &'b [u8]), ReadFault>
    ensures { Gives (λ x. (x.0, x.1.now)) result (stood_at setting.now bytes.now) }
{
    let (stamp, rest) = number(bytes);
    let (row, rest) = row_told(rest);
    let (points, rest) = list(alloc, setting, rest)?;
    let points = Points::many(points);
    Ok((Answer::Stood { stamp, row, points }, rest))
}

#[tactic(auto, unfolding(crate::specs::AnswerReadings::synced_at))]
fn synced<'b>(setting: &Setting<'_>, bytes: &'b [u8]) -> (Answer, &'b [u8])
    ensures { synced_at setting.now bytes.now ≡ (result.0, result.1.now) }
{
    let (sync, rest) = sync(setting.script(), bytes);
    let (plays, rest) = number(behind(rest, 7));
    (Answer::Synced { sync, plays }, rest)
}

#[tactic(auto, unfolding(crate::specs::AnswerReadings::scanned_at))]
fn scanned<'b>(
    alloc: Global,
    setting: &Setting<'_>,
    bytes: &'b [u8],
) -> Result<(Answer, &'b [u8]), ReadFault>
    ensures { Gives (λ x. (x.0, x.1.now)) result (scanned_at setting.now bytes.now) }
{
    let (stamp, rest) = number(bytes);
    let (nodes, rest) = number(behind(rest, 7));
    let (read, rest) = read_of(alloc, setting, rest)?;
    let answer = Answer::Scanned {
        stamp,
        nodes,
        raises: read.raises,
        syncs: read.syncs,
    };
    Ok((answer, rest))
}

#[tactic(auto, unfolding(crate::specs::AnswerReadings::pulled_at))]
fn pulled(bytes: &[u8]) -> (Answer, &[u8])
    ensures { pulled_at bytes.now ≡ (result.0, result.1.now) }
{
    let (nodes, rest) = number(bytes);
    let (give, rest) = place(behind(rest, 6));
    let (carry, rest) = place(behind(rest, 7));
    (Answer::Pulled { nodes, give, carry }, rest)
}

#[tactic(auto, unfolding(crate::specs::AnswerReadings::based_at))]
fn based<'b>(setting: &Setting<'_>, bytes: &'b [u8]) -> (Answer, &'b [u8])
    ensures { based_at setting.now bytes.now ≡ (result.0, result.1.now) }
{
    let (at, rest) = place(bytes);
    let (base, rest) = counts(setting.script(), behind(rest, 6));
    (Answer::Based { at, base }, rest)
}

#[tactic(auto, unfolding(crate::specs::AnswerReadings::got_at))]
fn got<'b>(
    alloc: Global,
    setting: &Setting<'_>,
    found: bool,
    bytes: &'b [u8],
) -> Result<(Answer, &'b [u8]), ReadFault>
    ensures { Gives (λ x. (x.0, x.1.now)) result (got_at setting.now found bytes.now) }
{
    let (value, rest) = value(alloc, found, bytes)?;
    let (sync, rest) = sync(setting.script(), rest);
    Ok((Answer::Got { value, sync }, rest))
}

#[tactic(auto, unfolding(crate::specs::AnswerReadings::got_many_at))]
fn got_many<'b>(
    alloc: Global,
    setting: &Setting<'_>,
    found: bool,
    bytes: &'b [u8],
) -> Result<(Answer, &'b [u8]), ReadFault>
    ensures { Gives (λ x. (x.0, x.1.now)) result (got_many_at setting.now found bytes.now) }
{
    let (values, rest) = values(alloc, setting, found, bytes)?;
    let (sync, rest) = sync(setting.script(), rest);
    Ok((Answer::GotMany { values, sync }, rest))
}

#[tactic(auto, unfolding(crate::specs::AnswerReadings::got_keys_at))]
fn got_keys<'b>(
    alloc: Global,
    setting: &Setting<'_>,
    bytes: &'b [u8],
) -> Result<(Answer, &'b [u8]), ReadFault>
    ensures { Gives (λ x. (x.0, x.1.now)) result (got_keys_at setting.now bytes.now) }
{
    let (stamp, rest) = number(bytes);
    let (keys, rest) = list(alloc, setting, rest)?;
    let (read, rest) = read_of(alloc, setting, rest)?;
    let answer = Answer::GotKeys {
        stamp,
        keys,
        raises: read.raises,
        syncs: read.syncs,
    };
    Ok((answer, rest))
}

#[tactic(auto, unfolding(crate::specs::AnswerReadings::took_at))]
fn took<'b>(
    alloc: Global,
    setting: &Setting<'_>,
    found: bool,
    bytes: &'b [u8],
) -> Result<(Answer, &'b [u8]), ReadFault>
    ensures { Gives (λ x. (x.0, x.1.now)) result (took_at setting.now found bytes.now) }
{
    let script = setting.script();
    let (value, rest) = value(alloc, found, bytes)?;
    let (point, rest) = point(script, rest);
    let (sync, rest) = sync(script, behind(rest, 1));
    Ok((Answer::Took { value, point, sync }, rest))
}

#[tactic(auto, unfolding(crate::specs::AnswerReadings::listed_at))]
fn listed<'b>(
    alloc: Global,
    setting: &Setting<'_>,
    bytes: &'b [u8],
) -> Result<(Answer, &'b [u8]), ReadFault>
    ensures { Gives (λ x. (x.0, x.1.now)) result (listed_at setting.now bytes.now) }
{
    let (stamp, rest) = number(bytes);
    let (names, rest) = texts(alloc, setting, behind(rest, 1))?;
    let (read, rest) = read_of(alloc, setting, rest)?;
    let answer = Answer::Listed {
        names: Some(names),
        stamp,
        raises: read.raises,
        syncs: read.syncs,
    };
    Ok((answer, rest))
}

#[tactic(auto, unfolding(crate::specs::AnswerReadings::missing_at))]
fn missing<'b>(
    alloc: Global,
    setting: &Setting<'_>,
    bytes: &'b [u8],
) -> Result<(Answer, &'b [u8]), ReadFault>
    ensures { Gives (λ x. (x.0, x.1.now)) result (missing_at setting.now bytes.now) }
{
    let (stamp, rest) = number(bytes);
    let (read, rest) = read_of(alloc, setting, rest)?;
    let answer = Answer::Listed {
        names: None,
        stamp,
        raises: read.raises,
        syncs: read.syncs,
    };
    Ok((answer, rest))
}

#[tactic(auto, unfolding(crate::specs::AnswerReadings::undecided_at))]
fn undecided<'b>(setting: &Setting<'_>, bytes: &'b [u8]) -> (Answer, &'b [u8])
    ensures { undecided_at setting.now bytes.now ≡ (result.0, result.1.now) }
{
    let (stamp, rest) = number(bytes);
    let (sync, rest) = sync(setting.script(), behind(rest, 1));
    (Answer::Undecided { stamp, sync }, rest)
}

// How the append of a decision ended.
#[tactic(auto, unfolding(crate::specs::AnswerReadings::ended_at))]
fn ended_of<'b>(setting: &Setting<'_>, bytes: &'b [u8]) -> (Ended, &'b [u8])
    ensures { ended_at setting.now bytes.now ≡ (result.0, result.1.now) }
{
    let script = setting.script();
    match first(bytes) {
        b'o' => {
            let (stamp, rest) = number(behind(bytes, 3));
            let (point, rest) = point(script, behind(rest, 1));
            (Ended::Stood { stamp, point }, rest)
        }
        b's' => {
            let (colour, rest) = colour(script, behind(bytes, 9));
            (Ended::StampEnd { colour }, rest)
        }
        _ => (Ended::NoMemory, behind(bytes, 8)),
    }
}

// Whether a transaction commits, the sync, the stamped read, and the append of the decision.
#[tactic(auto, unfolding(crate::specs::AnswerReadings::decided_at))]
fn decided<'b>(
    alloc: Global,
    setting: &Setting<'_>,
    commits: bool,
    bytes: &'b [u8],
) -> Result<(Answer, &'b [u8]), ReadFault>
    ensures { Gives (λ x. (x.0, x.1.now)) result (decided_at setting.now commits bytes.now) }
{
    let (stamp, rest) = number(bytes);
    let (sync, rest) = sync(setting.script(), behind(rest, 1));
    let (read_stamp, rest) = number(behind(rest, 4));
    let (read, rest) = read_of(alloc, setting, rest)?;
    let (ended, rest) = ended_of(setting, behind(rest, 1));
    let answer = Answer::Decided {
        commits,
        stamp,
        sync,
        read_stamp,
        raises: read.raises,
        syncs: read.syncs,
        ended,
    };
    Ok((answer, rest))
}

// A transaction that commits, or does not because of this key.
#[tactic(auto, unfolding(crate::specs::AnswerReadings::ruled_at))]
fn ruled<'b>(
    alloc: Global,
    setting: &Setting<'_>,
    conflict: Option<Text>,
    bytes: &'b [u8],
) -> Result<(Answer, &'b [u8]), ReadFault>
    ensures { Gives (λ x. (x.0, x.1.now)) result (ruled_at setting.now conflict bytes.now) }
{
    let (ruling, rest) = ruling_of(alloc, setting, bytes)?;
    let answer = Answer::Ruled {
        conflict,
        stamp: ruling.stamp,
        row: ruling.row,
        points: ruling.points,
        read_stamp: ruling.read_stamp,
        raises: ruling.read.raises,
        syncs: ruling.read.syncs,
    };
    Ok((answer, rest))
}

// A transaction that does not commit, and the key for which it does not.
#[tactic(auto, unfolding(crate::specs::AnswerReadings::conflict_at))]
fn conflict<'b>(
    alloc: Global,
    setting: &Setting<'_>,
    bytes: &'b [u8],
) -> Result<(Answer, &'b [u8]), ReadFault>
    ensures { Gives (λ x. (x.0, x.1.now)) result (conflict_at setting.now bytes.now) }
{
    let (key, rest) = key_text(alloc, bytes)?;
    ruled(alloc, setting, Some(key), behind(rest, 1))
}

// A change of a tree.
#[tactic(auto, unfolding(crate::specs::AnswerReadings::changed_at))]
fn changed<'b>(
    alloc: Global,
    setting: &Setting<'_>,
    failed: Option<TreeWhy>,
    bytes: &'b [u8],
) -> Result<(Answer, &'b [u8]), ReadFault>
    ensures { Gives (λ x. (x.0, x.1.now)) result (changed_at setting.now failed bytes.now) }
{
    let (ruling, rest) = ruling_of(alloc, setting, bytes)?;
    let answer = Answer::Changed {
        failed,
        stamp: ruling.stamp,
        row: ruling.row,
        points: ruling.points,
        read_stamp: ruling.read_stamp,
        raises: ruling.read.raises,
        syncs: ruling.read.syncs,
    };
    Ok((answer, rest))
}

// The reason for which a change failed.
fn why_named(name: &[u8]) -> TreeWhy
    ensures { result ≡ why_named name.now }
{
    if name == b"exists".as_slice() {
        TreeWhy::Exists
    } else if name == b"noparent".as_slice() {
        TreeWhy::NoParent
    } else if name == b"missing".as_slice() {
        TreeWhy::Missing
    } else if name == b"notempty".as_slice() {
        TreeWhy::NotEmpty
    } else if name == b"inside".as_slice() {
        TreeWhy::Inside
    } else {
        TreeWhy::Deep
    }
}

// A change that failed.
#[tactic(auto, unfolding(crate::specs::AnswerReadings::failed_at))]
fn failed<'b>(
    alloc: Global,
    setting: &Setting<'_>,
    bytes: &'b [u8],
) -> Result<(Answer, &'b [u8]), ReadFault>
    ensures { Gives (λ x. (x.0, x.1.now)) result (failed_at setting.now bytes.now) }
{
    let (why, rest) = word(bytes);
    changed(alloc, setting, Some(why_named(why)), behind(rest, 1))
}

// A conditional append that found that its colour had moved on.
#[tactic(auto, unfolding(crate::specs::AnswerReadings::moved_at))]
fn moved<'b>(setting: &Setting<'_>, bytes: &'b [u8]) -> (Answer, &'b [u8])
    ensures { moved_at setting.now bytes.now ≡ (result.0, result.1.now) }
{
    let (length, rest) = number(bytes);
    let (waiting, rest) = number(behind(rest, 1));
    let (colour, rest) = colour(setting.script(), behind(rest, 1));
    let (events, rest) = number(behind(rest, 1));
    let answer = Answer::Moved {
        length,
        waiting,
        colour,
        events,
    };
    (answer, rest)
}

// An object that could not be read behind the append.
#[tactic(auto, unfolding(crate::specs::AnswerReadings::unread_at))]
fn unread<'b>(setting: &Setting<'_>, bytes: &'b [u8]) -> (Answer, &'b [u8])
    ensures { unread_at setting.now bytes.now ≡ (result.0, result.1.now) }
{
    let script = setting.script();
    let (stamp, rest) = number(bytes);
    if first(behind(rest, 1)) != b't' {
        return (Answer::UnreadNoMemory { stamp }, behind(rest, 9));
    }
    let (colour, rest) = colour(script, behind(rest, 9));
    let (base, rest) = counts(script, behind(rest, 1));
    let answer = Answer::UnreadTrimmed {
        stamp,
        colour,
        base,
    };
    (answer, rest)
}

// Nodes that are trimmed.
#[tactic(auto, unfolding(crate::specs::AnswerReadings::trimmed_at))]
fn trimmed<'b>(setting: &Setting<'_>, bytes: &'b [u8]) -> (Answer, &'b [u8])
    ensures { trimmed_at setting.now bytes.now ≡ (result.0, result.1.now) }
{
    let script = setting.script();
    let (colour, rest) = colour(script, bytes);
    let (base, rest) = counts(script, behind(rest, 1));
    (Answer::Trimmed { colour, base }, rest)
}

// What stands behind `ok`.
#[tactic(auto, unfolding(crate::specs::AnswerReadings::ok_at))]
fn ok<'b>(
    alloc: Global,
    setting: &Setting<'_>,
    many: bool,
    word: Word,
    bytes: &'b [u8],
) -> Result<(Answer, &'b [u8]), ReadFault>
    ensures { Gives (λ x. (x.0, x.1.now)) result (ok_at setting.now many word bytes.now) }
{
    match word {
        Word::Sync => Ok(synced(setting, bytes)),
        Word::Scan => scanned(alloc, setting, bytes),
        Word::Pull => Ok(pulled(bytes)),
        Word::Trim => Ok(based(setting, bytes)),
        Word::Get => {
            if many {
                got_many(alloc, setting, true, bytes)
            } else {
                got(alloc, setting, true, bytes)
            }
        }
        Word::Peek | Word::Decide => got(alloc, setting, true, bytes),
        Word::GetAll | Word::Read => got_keys(alloc, setting, bytes),
        Word::Deq => took(alloc, setting, true, bytes),
        Word::Ls => listed(alloc, setting, bytes),
        _ => stood(alloc, setting, bytes),
    }
}

// What stands behind `none`.
#[tactic(auto, unfolding(crate::specs::AnswerReadings::none_at))]
fn none<'b>(
    alloc: Global,
    setting: &Setting<'_>,
    many: bool,
    word: Word,
    bytes: &'b [u8],
) -> Result<(Answer, &'b [u8]), ReadFault>
    ensures { Gives (λ x. (x.0, x.1.now)) result (none_at setting.now many word bytes.now) }
{
    match word {
        Word::Get => {
            if many {
                got_many(alloc, setting, false, bytes)
            } else {
                got(alloc, setting, false, bytes)
            }
        }
        Word::Deq => took(alloc, setting, false, bytes),
        _ => got(alloc, setting, false, bytes),
    }
}

// What stands behind `committed`.
#[tactic(auto, unfolding(crate::specs::AnswerReadings::committed_at))]
fn committed<'b>(
    alloc: Global,
    setting: &Setting<'_>,
    word: Word,
    bytes: &'b [u8],
) -> Result<(Answer, &'b [u8]), ReadFault>
    ensures { Gives (λ x. (x.0, x.1.now)) result (committed_at setting.now word bytes.now) }
{
    match word {
        Word::Decide => decided(alloc, setting, true, bytes),
        _ => ruled(alloc, setting, None, bytes),
    }
}

// What stands behind `conflict`.
#[tactic(auto, unfolding(crate::specs::AnswerReadings::conflicting_at))]
fn conflicting<'b>(
    alloc: Global,
    setting: &Setting<'_>,
    word: Word,
    bytes: &'b [u8],
) -> Result<(Answer, &'b [u8]), ReadFault>
    ensures { Gives (λ x. (x.0, x.1.now)) result (conflicting_at setting.now word bytes.now) }
{
    match word {
        Word::Decide => decided(alloc, setting, false, bytes),
        _ => conflict(alloc, setting, bytes),
    }
}

// A colour at which no stamp is left.
#[tactic(auto, unfolding(crate::specs::AnswerReadings::stamp_end_at))]
fn stamp_end<'b>(setting: &Setting<'_>, bytes: &'b [u8]) -> (Answer, &'b [u8])
    ensures { stamp_end_at setting.now bytes.now ≡ (result.0, result.1.now) }
{
    let (colour, rest) = colour(setting.script(), bytes);
    (Answer::StampEnd { colour }, rest)
}

// How many rows are used.
#[tactic(auto, unfolding(crate::specs::AnswerReadings::full_at))]
fn full(bytes: &[u8]) -> (Answer, &[u8])
    ensures { full_at bytes.now ≡ (result.0, result.1.now) }
{
    let (used, rest) = small(bytes);
    (Answer::Full { used }, rest)
}

// How many steps were taken.
#[tactic(auto, unfolding(crate::specs::AnswerReadings::stopped_at))]
fn stopped(bytes: &[u8]) -> (Answer, &[u8])
    ensures { stopped_at bytes.now ≡ (result.0, result.1.now) }
{
    let (steps, rest) = byte(bytes);
    (Answer::Stopped { steps }, rest)
}

// The home of an object.
#[tactic(auto, unfolding(crate::specs::AnswerReadings::not_home_at))]
fn not_home<'b>(setting: &Setting<'_>, bytes: &'b [u8]) -> (Answer, &'b [u8])
    ensures { not_home_at setting.now bytes.now ≡ (result.0, result.1.now) }
{
    let (home, rest) = region(setting.script(), bytes);
    (Answer::NotHome { home }, rest)
}

// An answer that takes no memory, by its first word; `rest` is behind that, and `end` directly behind it.
#[tactic(auto, unfolding(crate::specs::AnswerReadings::short_at))]
fn short<'b>(
    setting: &Setting<'_>,
    head: &[u8],
    rest: &'b [u8],
    end: &'b [u8],
) -> (Answer, &'b [u8])
    ensures { short_at setting.now head.now rest.now end.now ≡ (result.0, result.1.now) }
{
    if head == b"stampend".as_slice() {
        stamp_end(setting, rest)
    } else if head == b"full".as_slice() {
        full(rest)
    } else if head == b"stopped".as_slice() {
        stopped(rest)
    } else if head == b"sameregion".as_slice() {
        (Answer::SameRegion, end)
    } else if head == b"undecided".as_slice() {
        undecided(setting, rest)
    } else if head == b"moved".as_slice() {
        moved(setting, rest)
    } else if head == b"notx".as_slice() {
        (Answer::NoTx, end)
    } else if head == b"unread".as_slice() {
        unread(setting, rest)
    } else if head == b"trimmed".as_slice() {
        trimmed(setting, rest)
    } else if head == b"nothome".as_slice() {
        not_home(setting, rest)
    } else {
        (Answer::NoMemory, end)
    }
}

/// An answer, by its first word.
#[tactic(auto, unfolding(crate::specs::AnswerReadings::answer_at))]
pub fn answer<'b>(
    alloc: Global,
    setting: &Setting<'_>,
    many: bool,
    command: Word,
    bytes: &'b [u8],
) -> Result<(Answer, &'b [u8]), ReadFault>
    ensures { Gives (λ x. (x.0, x.1.now)) result (answer_at setting.now many command bytes.now) }
{
    let (head, end) = word(bytes);
    let rest = behind(end, 1);
    if head == b"ok".as_slice() {
        ok(alloc, setting, many, command, rest)
    } else if head == b"none".as_slice() {
        none(alloc, setting, many, command, rest)
    } else if head == b"committed".as_slice() {
        committed(alloc, setting, command, rest)
    } else if head == b"conflict".as_slice() {
        conflicting(alloc, setting, command, rest)
    } else if head == b"done".as_slice() {
        changed(alloc, setting, None, rest)
    } else if head == b"failed".as_slice() {
        failed(alloc, setting, rest)
    } else if head == b"missing".as_slice() {
        missing(alloc, setting, rest)
    } else {
        Ok(short(setting, head, rest, end))
    }
}

// Whether the word is that of a command that appends and does no more.
fn is_appending(word: Word) -> bool
    ensures { result ≡ is_of appending word }
{
    matches!(
        word,
        Word::Append | Word::Only | Word::Put | Word::Del | Word::PutAll | Word::Enq
    )
}

// Whether the word is that of a change of a tree.
fn is_changing(word: Word) -> bool
    ensures { result ≡ is_of changing word }
{
    matches!(word, Word::Mk | Word::Rm | Word::Mv)
}

// Whether the word is that of a command that appends a node and then reads what becomes of it.
fn is_ruled(word: Word) -> bool
    ensures { result ≡ is_of ruled word }
{
    matches!(
        word,
        Word::Commit | Word::Deq | Word::Mk | Word::Rm | Word::Mv
    )
}

// Whether the word is that of a command that reads.
fn is_reading(word: Word) -> bool
    ensures { result ≡ is_of reading word }
{
    matches!(
        word,
        Word::Sync
            | Word::Scan
            | Word::Get
            | Word::GetAll
            | Word::Read
            | Word::Peek
            | Word::Decide
            | Word::Ls
    )
}

// Whether the word is that of a command of the log itself.
fn is_of_log(word: Word) -> bool
    ensures { result ≡ is_of of_log word }
{
    matches!(
        word,
        Word::Append | Word::Only | Word::Stop | Word::Sync | Word::Scan | Word::Pull | Word::Trim
    )
}

/// Whether a word has such an answer.
pub fn has_answer(many: bool, word: Word, answer: &Answer) -> bool
    ensures { result ≡ has_answer many word answer.now }
{
    match answer {
        Answer::Stood { .. } => is_appending(word),
        Answer::StampEnd { .. } | Answer::Full { .. } => {
            is_appending(word) || matches!(word, Word::Stop) || is_ruled(word)
        }
        Answer::Stopped { .. } => matches!(word, Word::Stop),
        Answer::Synced { .. } => matches!(word, Word::Sync),
        Answer::Scanned { .. } => matches!(word, Word::Scan),
        Answer::Pulled { .. } | Answer::SameRegion => matches!(word, Word::Pull),
        Answer::Based { .. } => matches!(word, Word::Trim),
        Answer::Got { .. } => {
            matches!(word, Word::Get) && !many || matches!(word, Word::Peek | Word::Decide)
        }
        Answer::GotMany { .. } => matches!(word, Word::Get) && many,
        Answer::GotKeys { .. } => matches!(word, Word::GetAll | Word::Read),
        Answer::Ruled { .. } | Answer::NoTx => matches!(word, Word::Commit),
        Answer::Changed { .. } => is_changing(word),
        Answer::Listed { .. } => matches!(word, Word::Ls),
        Answer::Undecided { .. } => matches!(word, Word::Peek),
        Answer::Decided { .. } => matches!(word, Word::Decide),
        Answer::Moved { .. } => matches!(word, Word::Only),
        Answer::Took { .. } => matches!(word, Word::Deq),
        Answer::UnreadTrimmed { .. } | Answer::UnreadNoMemory { .. } => is_ruled(word),
        Answer::Trimmed { .. } => is_reading(word),
        Answer::NotHome { .. } => !is_of_log(word),
        Answer::NoMemory => true,
    }
}
