// What answers of a tree and of stamped reads show.
use log_client::{Appended, StampedRead};
use log_node::{At, Text};
use std::process::Abort;

/// The value is this text, or none where it is empty.
pub(crate) fn is_value(rt: &impl Abort, value: &Option<Text>, wanted: &[u8]) {
    match value {
        Some(text) => assert_eq!(rt; text.as_bytes(), wanted),
        None => assert!(rt; wanted.is_empty()),
    }
}

// The read has this stamp, these raises, and events and own counts of its syncs.
fn reads(rt: &impl Abort, read: &StampedRead, stamp: u64, raises: &[At], syncs: &[(u64, u64)]) {
    assert_eq!(rt; read.stamp, stamp);
    assert_eq!(rt; read.raises.len(), raises.len());
    for (raise, at) in read.raises.as_slice().iter().zip(raises) {
        assert_eq!(rt; raise.at, *at);
    }
    assert_eq!(rt; read.syncs.len(), syncs.len());
    for (sync, looked) in read.syncs.as_slice().iter().zip(syncs) {
        assert_eq!(rt; (sync.events, sync.snapshot.counts.of_region(0)), *looked);
    }
}

/// What a stamped read of two colours shows: its syncs with events and own counts, and the texts of its nodes.
pub(crate) struct Row {
    pub(crate) stamp: u64,
    pub(crate) raises: [At; 2],
    pub(crate) syncs: [(u64, u64); 2],
    pub(crate) texts: &'static [&'static str],
}

/// The read is this one.
pub(crate) fn shows(rt: &impl Abort, read: &StampedRead, row: &Row) {
    reads(rt, read, row.stamp, &row.raises, &row.syncs);
    assert_eq!(rt; read.items.len(), row.texts.len());
    for (item, text) in read.items.as_slice().iter().zip(row.texts) {
        assert_eq!(rt; item.node().text.as_bytes(), text.as_bytes());
    }
}

/// The node stands under the stamp, in the row or none, at these events and positions of its colours.
pub(crate) fn stands_at(
    rt: &impl Abort,
    appended: &Appended,
    stamp: u64,
    row: Option<u32>,
    points: &[(u8, u64, u64)],
) {
    assert_eq!(rt; appended.row, row);
    assert_eq!(rt; appended.stood.key.stamp, stamp);
    assert_eq!(rt; appended.stood.points.len(), points.len());
    for (point, (colour, place, position)) in appended.stood.points.as_slice().iter().zip(points) {
        assert_eq!(rt; point.colour, *colour);
        assert_eq!(rt; point.at, At::Event(*place));
        assert_eq!(rt; point.position, *position);
    }
}
