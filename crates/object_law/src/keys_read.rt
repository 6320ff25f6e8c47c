// The keys that reads go over.
ghost use Rattle.std.specs.Prelude.{◌≡◌, ◌<◌, IfOk};
ghost use Rattle.std.specs.List.{All};
ghost use Rattle.object_law.specs.KeysRead.{whole_order};
ghost use Rattle.object_law.specs.ReadNodes.{PlayingDecides, ReadingDecides, TakingDecides};
ghost use Rattle.walk_law.specs.Walking.{log_walked};

use col_core::region_order_is_unique;
use lawful_run::read_items_last;
use log_node::Key;
use playback::{region_order_is_lawful, with_line};
use std::alloc::{AllocError, Global};
use walk_law::Subject;

/// All keys of the own lines of these colours in a region, each once, in rising order.
pub(crate) fn whole_order(
    alloc: Global,
    subject: &Subject<'_>,
    region: u8,
    colours: &[u8],
) -> Result<Vec<Key>, AllocError>
    requires region { region < subject.now.script.shape.regions }
    requires colours { All (λ colour. colour < subject.now.script.shape.colours) colours.now }
    ensures { IfOk result (λ keys. keys.items ≡ whole_order (log_walked subject.now) region colours.now) }
{
    let mut keys = Vec::new(alloc);
    for colour in colours {
        let track = subject.track(region, *colour);
        track.agrees();
        keys = with_line(alloc, keys.as_slice(), track.line(), u64::MAX)?;
    }
    Ok(keys)
}

/// The nodes that a stamped read read are those of the beginning of the order of its colours.
pub(crate) fn reading_decides()
    ensures { ReadingDecides }
{
    region_order_is_lawful();
    region_order_is_unique();
    read_items_last();
}

/// Those that a sync played are the first of the whole own line.
pub(crate) fn playing_decides()
    ensures { PlayingDecides }
{}

/// A dequeue takes the front behind the nodes before it.
pub(crate) fn taking_decides()
    ensures { TakingDecides }
{}
