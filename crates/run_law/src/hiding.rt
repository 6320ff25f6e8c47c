// The first reply of a report that hides what was done.
ghost use Rattle.std.specs.Prelude.{◌≡◌};
ghost use Rattle.std.specs.List.{find};
ghost use Rattle.std.specs.Option.{option_copied, option_map};
ghost use Rattle.report_text.specs.declared.report.ReplyLine.{ReplyLine as Reply};
ghost use Rattle.run_rules.specs.Keeping.{first_hidden, hides, is_sync};

use report_text::{Answer, ReplyLine, Report};
use script_text::Word;

// Whether the word is `sync`.
fn is_sync(word: Word) -> bool
    ensures { result ≡ is_sync word }
{
    matches!(word, Word::Sync)
}

// Whether such an answer to a command hides what was done.
fn hides(word: Word, answer: &Answer) -> bool
    ensures { result ≡ hides word answer.now }
{
    match answer {
        Answer::NoMemory | Answer::UnreadTrimmed { .. } | Answer::UnreadNoMemory { .. } => true,
        Answer::Trimmed { .. } => !is_sync(word),
        _ => false,
    }
}

// The first of these replies that hides something.
fn first_of(replies: &[ReplyLine]) -> Option<&ReplyLine>
    ensures { option_copied result ≡ find (λ (r : Reply). hides r.word r.answer) replies.now }
{
    replies
        .iter()
        .find(|reply| hides(reply.word, &reply.answer))
}

/// In which line the command stands of which the reply is the first that hides what was done, if one does.
pub fn hidden_line(report: &Report) -> Option<u32>
    ensures { result ≡ option_map (λ (r : Reply). r.line) (first_hidden report.now) }
{
    for client in report.clients.as_slice() {
        if let Some(reply) = first_of(client.replies.as_slice()) {
            return Some(reply.line);
        }
    }
    None
}
