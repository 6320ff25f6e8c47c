// The decisions of a report, in rising order of the stamps of their reads.
ghost use Rattle.std.specs.Prelude.{◌≡◌, ◌+◌, ◌<◌, IfOk, OnOk, length};
ghost use Rattle.std.specs.List.Sorted.{IsNonDecreasingBy};
ghost use Rattle.object_law.specs.Decided.{AreDecisionsOf, stamp_of_read};

use report_text::Answer;
use std::alloc::{AllocError, Global};
use walk_law::Subject;

/// A decision, with the stamp of its read, by its client and its place among the client's commands.
#[derive(Clone, Copy)]
pub(crate) struct StampedDecision {
    pub(crate) stamp: u64,
    pub(crate) client: u8,
    pub(crate) place: usize,
}

// The stamp of a decision's read; other answers have none.
fn stamp_of_read(answer: &Answer) -> Option<u64>
    ensures { result ≡ stamp_of_read answer.now }
{
    match answer {
        Answer::Decided { read_stamp, .. } => Some(*read_stamp),
        _ => None,
    }
}

// Adds the decisions of one more client.
fn add_client(
    decisions: &mut Vec<StampedDecision>,
    subject: &Subject<'_>,
    client: u8,
) -> Result<(), AllocError>
    requires client { client < length subject.now.report.clients }
    requires decisions { AreDecisionsOf subject.now client decisions.old.items }
    ensures { OnOk result (AreDecisionsOf subject.now (client + 1) decisions.new.items) }
{
    subject.agrees();
    for place in 0..subject.count(client) {
        if let Some(stamp) = stamp_of_read(&subject.reply(client, place).answer) {
            decisions.push(StampedDecision {
                stamp,
                client,
                place,
            })?;
        }
    }
    Ok(())
}

/// All decisions of a report, in rising order of the stamps of their reads.
pub(crate) fn decisions_by_stamp(
    alloc: Global,
    subject: &Subject<'_>,
) -> Result<Vec<StampedDecision>, AllocError>
    ensures are { IfOk result (λ ds. AreDecisionsOf subject.now (length subject.now.report.clients) ds.items) }
    ensures rising { IfOk result (λ ds. IsNonDecreasingBy (λ d. d.stamp) ds.items) }
{
    let mut decisions = Vec::new(alloc);
    for client in 0..subject.clients() {
        add_client(&mut decisions, subject, client)?;
    }
    decisions.sort_by_key(|decision| decision.stamp)?;
    Ok(decisions)
}
