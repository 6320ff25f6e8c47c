// A writer that may be let go.
ghost use Rattle.std.specs.Prelude.{◌≡◌};
ghost use Rattle.core.specs.Mem.{manually_drop_value};

use crate::read_view::rule::ViewWriter;
use std::mem::ManuallyDrop;

/// A writer on a shelf: where it is dropped and not taken, its two copies are never freed.
#[derive(Drop)]
pub struct Shelf {
    writer: ManuallyDrop<ViewWriter>,
}

impl Shelf {
    /// Shelves the writer.
    pub(crate) fn of(writer: ViewWriter) -> Shelf
        ensures { manually_drop_value result.writer ≡ writer }
    {
        Shelf {
            writer: unsafe { ManuallyDrop::new_unchecked(writer) },
        }
    }

    /// The writer, off the shelf.
    pub(crate) fn into_writer(self) -> ViewWriter
        ensures { result ≡ manually_drop_value self.writer }
    {
        let Shelf { writer } = self;
        ManuallyDrop::into_inner(writer)
    }
}
