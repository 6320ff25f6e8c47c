// What is read, and lists of it.
ghost use Rattle.std.specs.Prelude.{ℕ, Bool, true, List, Option, ◌≡◌};
ghost use Rattle.report_reading.specs.Known.{Known};
ghost use Rattle.report_reading.specs.Lists.{Gives, each_at};

use crate::fault::ReadFault;
use crate::setting::Setting;
use log_node::ListOf;
use std::alloc::Global;

/// Is read from the front of the bytes. The place is that in a list of such.
pub trait Readable: Sized + Drop {
    ghost begins_at: { Known → ℕ → List ℕ → Bool };

    ghost value_at: { Known → ℕ → List ℕ → Option (Self × List ℕ) };

    /// Whether one more begins here.
    fn begins(setting: &Setting<'_>, place: usize, bytes: &[u8]) -> bool
        ensures { result ≡ begins_at setting.now place bytes.now };

    /// The one that begins here, and the bytes behind it.
    fn read<'b>(
        alloc: Global,
        setting: &Setting<'_>,
        place: usize,
        bytes: &'b [u8],
    ) -> Result<(Self, &'b [u8]), ReadFault>
        requires { begins_at setting.now place bytes.now ≡ true }
        ensures { Gives (λ x. (x.0, x.1.now)) result (value_at setting.now place bytes.now) };
}

/// All that begin one after another.
pub fn list<'b, T: Readable>(
    alloc: Global,
    setting: &Setting<'_>,
    bytes: &'b [u8],
) -> Result<(ListOf<T>, &'b [u8]), ReadFault>
    ensures { Gives (λ x. (x.0, x.1.now)) result (each_at (T.begins_at setting.now) (T.value_at setting.now) bytes.now) }
{
    let mut items = ListOf::new(alloc);
    let mut rest = bytes;
    let mut place = 0;
    while place < bytes.len() && T::begins(setting, place, rest) {
        let (item, after) = T::read(alloc, setting, place, rest)?;
        items.push(item)?;
        rest = after;
        place += 1;
    }
    Ok((items, rest))
}
