// The shard of a key.
ghost use Rattle.std.specs.Prelude.{◌≡◌, ◌<◌, ◌%◌, ◌^◌, length, sum};
ghost use Rattle.object_fold.specs.Nodes.{shard_of};

// The sum of the bytes, modulo a number.
fn sum_modulo(bytes: &[u8], count: usize) -> usize
    requires some { 0 < count }
    requires few { count < 2 ^ 63 }
    ensures { result ≡ sum bytes.now % count }
{
    let mut rest = 0;
    for b in bytes {
        rest = (rest + usize::from(*b) % count) % count;
    }
    rest
}

/// The colour of a key's shard: of the object's colours, in their order, that at the place that is the sum of the key's
/// bytes modulo their number; 0 where there are no colours.
pub fn shard_of(colours: &[u8], key: &[u8]) -> u8
    ensures { result ≡ shard_of colours.now key.now }
{
    if colours.is_empty() {
        return 0;
    }
    colours[sum_modulo(key, colours.len())]
}
