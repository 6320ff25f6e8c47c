// Names packed into two words, which hash and compare in a few instructions.
ghost use Rattle.std.specs.Prelude.{◌≡◌, ◌<◌, ◌≤◌, length, take, IfNone, IfSome};
ghost use Rattle.std.specs.Int.{w32, from_le_bytes};
ghost use Rattle.script_text.specs.NameKeys.{key_of, three_bytes, IsShort};

/// How many bytes a name may have at most that is packed.
pub const MAX_PACKED: usize = 12;

/// A name of at most `MAX_PACKED` bytes, packed into two words.
#[derive(Clone, Copy, PartialEq, Eq, Hash)]
pub struct NameKey {
    // The first bytes: eight of them, or four, or of a name of fewer the first, the middle one and the last.
    front: u64,
    // The last four bytes, and above them how many bytes the name has.
    back: u64,
}

impl NameKey {
    /// The key of a name, unless it is too long for one.
    #[inline(always)]
    pub(crate) fn of(name: &[u8]) -> Option<NameKey>
        ensures key { IfSome result (λ key. (key ≡ key_of name.now) × IsShort name.now) }
        ensures long { IfNone result (MAX_PACKED < length name.now) }
    {
        let len = name.len();
        if len > MAX_PACKED {
            return None;
        }
        let count = len as u64 * 0x1_0000_0000;
        let Some(last) = name.last_chunk::<4>() else {
            return Some(NameKey {
                front: short_front(name),
                back: count,
            });
        };
        let front = match name.first_chunk::<8>() {
            Some(first) => u64::from_le_bytes(*first),
            None => front_of_four(name),
        };
        Some(NameKey {
            front,
            back: count + u32::from_le_bytes(*last) as u64,
        })
    }
}

// The first four bytes.
#[inline(always)]
fn front_of_four(name: &[u8]) -> u64
    requires { 4 ≤ length name.now }
    ensures { result ≡ from_le_bytes w32 (take 4 name.now) }
{
    match name.first_chunk::<4>() {
        Some(first) => u32::from_le_bytes(*first) as u64,
        None => unreachable!(),
    }
}

// The first byte, the middle one and the last of a name of less than four.
#[inline(always)]
fn short_front(name: &[u8]) -> u64
    requires { length name.now < 4 }
    ensures { result ≡ three_bytes name.now }
{
    let len = name.len();
    if len == 0 {
        return 0;
    }
    name[0] as u64 + name[len / 2] as u64 * 0x100 + name[len - 1] as u64 * 0x1_0000
}
