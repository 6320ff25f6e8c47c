// The words of a board whose rows are not begun.
ghost use Rattle.std.specs.Prelude.{◌≡◌, ◌*◌, ◌≤◌, replicate};

// As many times 1,024 zeros as a static may have.
const BLANK_ROWS: usize = 2047;

/// How many words there are at most. A larger board is made from a list of its own.
pub(crate) const BLANK_WORDS: usize = BLANK_ROWS * 1024;

// It is an array of arrays, since a check writes a flat one out, number by number.
static BLANK: [[u64; 1024]; BLANK_ROWS] = [[0; 1024]; BLANK_ROWS];

pub(crate) fn blank_words(count: usize) -> &'static [u64]
    requires { count ≤ BLANK_WORDS }
    ensures { result.now ≡ replicate count 0 }
{
    &BLANK.as_flattened()[..count]
}
