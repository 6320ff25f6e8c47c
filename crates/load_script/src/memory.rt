// Whether the commands of a run found memory.
ghost use Rattle.std.specs.Prelude.{◌≡◌};
ghost use Rattle.load_script.specs.Plain.{ended_wanting, found_all, found_memory, is_unwanting, wants_memory};

use report_text::{Answer, ClientReport, Ended, ReplyLine, Report};

fn ended_wanting(ended: &Ended) -> bool
    ensures { result ≡ ended_wanting ended.now }
{
    match ended {
        Ended::Stood { .. } | Ended::StampEnd { .. } => false,
        Ended::NoMemory => true,
    }
}

fn wants_memory(answer: &Answer) -> bool
    ensures { result ≡ wants_memory answer.now }
{
    match answer {
        Answer::UnreadNoMemory { .. } | Answer::NoMemory => true,
        Answer::Decided { ended, .. } => ended_wanting(ended),
        Answer::Stood { .. }
        | Answer::StampEnd { .. }
        | Answer::Full { .. }
        | Answer::Stopped { .. }
        | Answer::Synced { .. }
        | Answer::Scanned { .. }
        | Answer::Pulled { .. }
        | Answer::SameRegion
        | Answer::Based { .. }
        | Answer::Got { .. }
        | Answer::GotMany { .. }
        | Answer::GotKeys { .. }
        | Answer::Ruled { .. }
        | Answer::Changed { .. }
        | Answer::Listed { .. }
        | Answer::Undecided { .. }
        | Answer::Moved { .. }
        | Answer::NoTx
        | Answer::Took { .. }
        | Answer::UnreadTrimmed { .. }
        | Answer::Trimmed { .. }
        | Answer::NotHome { .. } => false,
    }
}

fn is_unwanting(reply: &ReplyLine) -> bool
    ensures { result ≡ is_unwanting reply.now }
{
    !wants_memory(&reply.answer)
}

fn found_all(client: &ClientReport) -> bool
    ensures { result ≡ found_all client.now }
{
    client
        .replies
        .as_slice()
        .iter()
        .all(|reply| is_unwanting(reply))
}

/// Whether no reply of the report tells of want of memory.
pub fn found_memory(report: &Report) -> bool
    ensures { result ≡ found_memory report.now }
{
    report
        .clients
        .as_slice()
        .iter()
        .all(|client| found_all(client))
}
