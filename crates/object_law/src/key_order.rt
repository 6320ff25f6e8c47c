// The keys of some colours of a region, in its order.
ghost use Rattle.std.specs.Prelude.{◌≡◌, ◌<◌, ◌≤◌, IfOk, length, take};
ghost use Rattle.std.specs.List.{All};
ghost use Rattle.playback.specs.Merging.{region_order};
ghost use Rattle.column_track.specs.Tracks.{Tells};
ghost use Rattle.object_law.specs.KeysRead.{whole_lines};
ghost use Rattle.object_law.specs.ObjectAnswers.{IsKeyOrder};
ghost use Rattle.walk_law.specs.Walking.{log_walked};

use crate::keys_read::whole_order;
use col_core::region_order_is_unique;
use lawful_run::read_items_last;
use log_node::{ColourList, Key};
use playback::{count_up_to, region_order_is_lawful};
use std::alloc::{AllocError, Global};
use walk_law::Subject;

/// The keys of some colours of a region, in its order.
#[derive(Drop)]
pub(crate) struct KeyOrder {
    region: u8,
    colours: ColourList,
    keys: Vec<Key>,
}

impl KeyOrder {
    /// Those of these colours.
    pub(crate) fn of(
        alloc: Global,
        subject: &Subject<'_>,
        region: u8,
        colours: ColourList,
    ) -> Result<KeyOrder, AllocError>
        requires region { region < subject.now.script.shape.regions }
        requires colours { All (λ colour. colour < subject.now.script.shape.colours) colours }
        ensures order { IfOk result (IsKeyOrder subject.now) }
        ensures region { IfOk result (λ o. o.region ≡ region) }
        ensures colours { IfOk result (λ o. o.colours ≡ colours) }
    {
        let keys = whole_order(alloc, subject, region, colours.as_slice())?;
        Ok(KeyOrder {
            region,
            colours,
            keys,
        })
    }

    /// Whether it is that of this region and these colours.
    pub(crate) fn is_of(&self, region: u8, colours: &[u8]) -> bool
        ensures { Tells result ((self.now.region ≡ region) × (self.now.colours ≡ colours.now)) }
    {
        self.region == region && self.colours.as_slice() == colours
    }

    /// The keys.
    pub(crate) fn keys(&self) -> &[Key]
        ensures { result.now ≡ self.now.keys.items }
    {
        self.keys.as_slice()
    }

    /// How many of them have stamps up to this one: they are the first.
    pub(crate) fn count(&self, subject: &Subject<'_>, stamp: u64) -> usize
        requires { IsKeyOrder subject.now self.now }
        ensures within { result ≤ length self.now.keys.items }
        ensures stamped { take result self.now.keys.items
            ≡ region_order stamp (whole_lines (log_walked subject.now) self.now.region self.now.colours) }
    {
        region_order_is_lawful();
        region_order_is_unique();
        read_items_last();
        subject.agrees();
        count_up_to(self.keys.as_slice(), stamp)
    }
}
