// How many digits a number has.
ghost use Rattle.std.specs.Prelude.{◌≡◌, ◌<◌, length, decimal};

// How many digits a number has that has no more than four.
#[inline(always)]
fn short_count(number: u64) -> usize
    requires { number < 10000 }
    ensures { result ≡ length (decimal number) }
{
    if number < 10 {
        return 1;
    }
    if number < 100 {
        return 2;
    }
    if number < 1000 {
        return 3;
    }
    4
}

/// How many digits a number has in decimal.
#[inline]
pub fn digit_count(number: u64) -> usize
    ensures { result ≡ length (decimal number) }
{
    let mut left = number;
    let mut count = 0;
    while left >= 10_000 {
        left /= 10_000;
        count += 4;
    }
    count + short_count(left)
}
