// The reads of keys of a report, in rising order of their stamps.
ghost use Rattle.std.specs.Prelude.{◌≡◌, ◌+◌, ◌<◌, IfOk, OnOk, length};
ghost use Rattle.std.specs.List.Sorted.{IsNonDecreasingBy};
ghost use Rattle.object_law.specs.Found.{AreReadsOf, read_stamp};

use report_text::Answer;
use std::alloc::{AllocError, Global};
use walk_law::Subject;

/// A read of keys, with its stamp, by its client and its place among the client's commands.
#[derive(Clone, Copy)]
pub(crate) struct StampedRead {
    pub(crate) stamp: u64,
    pub(crate) client: u8,
    pub(crate) place: usize,
}

// The stamp of a read of keys; other answers have none.
fn read_stamp(answer: &Answer) -> Option<u64>
    ensures { result ≡ read_stamp answer.now }
{
    match answer {
        Answer::GotKeys { stamp, .. } => Some(*stamp),
        _ => None,
    }
}

// Adds the reads of one more client.
fn add_client(
    reads: &mut Vec<StampedRead>,
    subject: &Subject<'_>,
    client: u8,
) -> Result<(), AllocError>
    requires client { client < length subject.now.report.clients }
    requires reads { AreReadsOf subject.now client reads.old.items }
    ensures { OnOk result (AreReadsOf subject.now (client + 1) reads.new.items) }
{
    subject.agrees();
    for place in 0..subject.count(client) {
        if let Some(stamp) = read_stamp(&subject.reply(client, place).answer) {
            reads.push(StampedRead {
                stamp,
                client,
                place,
            })?;
        }
    }
    Ok(())
}

/// All reads of keys of a report, in rising order of their stamps.
pub(crate) fn reads_by_stamp(
    alloc: Global,
    subject: &Subject<'_>,
) -> Result<Vec<StampedRead>, AllocError>
    ensures are { IfOk result (λ reads. AreReadsOf subject.now (length subject.now.report.clients) reads.items) }
    ensures rising { IfOk result (λ reads. IsNonDecreasingBy (λ r. r.stamp) reads.items) }
{
    let mut reads = Vec::new(alloc);
    for client in 0..subject.clients() {
        add_client(&mut reads, subject, client)?;
    }
    reads.sort_by_key(|read| read.stamp)?;
    Ok(reads)
}
