// What calls of objects are answered.
ghost use Rattle.std.specs.Prelude.{◌≡◌, ◌<◌, ◌≤◌, ◌∷◌, [], length, vec_capacity, IfOk, IfErr};
ghost use Rattle.append_core.specs.declared.stood.Point.{Point};
ghost use Rattle.log_client.specs.Appends.{piece_of};
ghost use Rattle.log_client.specs.StampedReads.{sync_piece};
ghost use Rattle.run_script.specs.Replying.{fault_answer, append_answer, get_answer, many_answer};

use crate::serving::appends::shown;
use append_core::MultiFault;
use log_client::{Appended, ObjectFault, SyncFault, Synced};
use log_node::{Names, Text};
use report_text::{Answer, PointPiece, SyncPiece};

/// A sync as a reply shows it.
pub fn sync_shown(synced: Synced) -> SyncPiece
    ensures { result ≡ sync_piece synced }
{
    SyncPiece {
        colour: synced.snapshot.colour,
        events: synced.events,
        counts: synced.snapshot.counts,
    }
}

/// A call that was refused.
pub fn refused(fault: ObjectFault) -> Answer
    ensures { result ≡ fault_answer fault }
{
    match fault {
        ObjectFault::NotHome { home } => Answer::NotHome { home },
        ObjectFault::Append(MultiFault::Full { used }) => Answer::Full { used },
        ObjectFault::Append(MultiFault::StampEnd { colour }) => Answer::StampEnd { colour },
        ObjectFault::Append(MultiFault::Stopped { steps }) => Answer::Stopped { steps },
        ObjectFault::Append(MultiFault::NoMemory) => Answer::NoMemory,
        ObjectFault::Sync(SyncFault::Trimmed { colour, base }) => Answer::Trimmed { colour, base },
        ObjectFault::Sync(SyncFault::NoMemory) => Answer::NoMemory,
        ObjectFault::Unread {
            stamp,
            why: SyncFault::Trimmed { colour, base },
        } => Answer::UnreadTrimmed {
            stamp,
            colour,
            base,
        },
        ObjectFault::Unread {
            stamp,
            why: SyncFault::NoMemory,
        } => Answer::UnreadNoMemory { stamp },
        ObjectFault::NoTx => Answer::NoTx,
        ObjectFault::NoMemory => Answer::NoMemory,
    }
}

/// An append, for whose points there is room.
pub fn appended(call: Result<Appended, ObjectFault>, pieces: Vec<PointPiece>) -> Answer
    requires empty { pieces.items ≡ [] }
    requires room { IfOk call (λ a. length a.stood.points ≤ vec_capacity pieces) }
    ensures { result ≡ append_answer call }
{
    match call {
        Ok(appended) => Answer::Stood {
            stamp: appended.stood.key.stamp,
            row: appended.row,
            points: shown(appended.stood.points.as_slice(), pieces),
        },
        Err(fault) => refused(fault),
    }
}

/// A get of a map.
pub fn got(call: Result<(Option<Text>, Synced), ObjectFault>) -> Answer
    ensures { result ≡ get_answer call }
{
    match call {
        Ok((value, synced)) => Answer::Got {
            value,
            sync: sync_shown(synced),
        },
        Err(fault) => refused(fault),
    }
}

/// A get of a causal map.
pub fn got_many(call: Result<(Names, Synced), ObjectFault>) -> Answer
    ensures { result ≡ many_answer call }
{
    match call {
        Ok((values, synced)) => Answer::GotMany {
            values,
            sync: sync_shown(synced),
        },
        Err(fault) => refused(fault),
    }
}

/// A dequeue, whose node stands at a point.
pub fn took(call: Result<(Option<Text>, Appended, Synced), ObjectFault>) -> Answer
    requires { IfOk call (λ r. 0 < length r.1.stood.points) }
    ensures ok { IfOk call (λ r. (p : Point) → r.1.stood.points ≡ p ∷ []
        → result ≡ Answer.Took r.0 (piece_of p) (sync_piece r.2)) }
    ensures err { IfErr call (λ fault. result ≡ fault_answer fault) }
{
    match call {
        Ok((value, appended, synced)) => {
            let point = appended.stood.points.as_slice()[0];
            Answer::Took {
                value,
                point: PointPiece {
                    colour: point.colour,
                    at: point.at,
                    position: point.position,
                },
                sync: sync_shown(synced),
            }
        }
        Err(fault) => refused(fault),
    }
}
