// What the words mean, and where they lie.
ghost use Rattle.std.specs.Prelude.{◌≡◌, ◌+◌, ◌<◌};
ghost use Rattle.stamp_board.specs.Words.{mark_from, outcome_from, row_at, word_at, words_of, width};
ghost use Rattle.stamp_board.specs.Rows.{IsRow, IsSize};

use crate::board::Board;
use crate::view::Size;
use log_node::{Colours, Mark, Outcome, Row, Why};

pub(crate) fn mark_of(n: u64) -> Mark
    ensures { result ≡ mark_from n }
{
    if n == 0 {
        Mark::None
    } else if n == 1 {
        Mark::Fenced(Why::Memory)
    } else if n == 2 {
        Mark::Fenced(Why::StampEnd)
    } else {
        Mark::Number(n - 2)
    }
}

pub(crate) fn outcome_of_word(n: u64) -> Outcome
    ensures { result ≡ outcome_from n }
{
    if n == 0 {
        Outcome::Open
    } else if n == 1 {
        Outcome::Gone(Why::Memory)
    } else if n == 2 {
        Outcome::Gone(Why::StampEnd)
    } else {
        Outcome::Final(n - 2)
    }
}

pub(crate) fn index(size: Size, row: Row, part: u8) -> usize
    requires size { IsSize size }
    requires row { IsRow size row }
    requires part { part < width size }
    ensures word { result ≡ word_at size (row_at size row) part }
    ensures inside { result < words_of size }
{
    let number = usize::from(row.client) * (size.rows as usize) + (row.number as usize);
    number * (usize::from(size.colours) + 2) + usize::from(part)
}

impl Board {
    pub(crate) fn word(&self, row: Row, part: u8) -> usize
        requires row { IsRow self.now.size row }
        requires part { part < width self.now.size }
        ensures word { result ≡ word_at self.now.size (row_at self.now.size row) part }
        ensures inside { result < words_of self.now.size }
    {
        index(self.size, row, part)
    }
}

pub(crate) fn word_of_why(why: Why) -> u64
    ensures word { mark_from result ≡ Mark.Fenced why }
    ensures set { (0 < result) × (result < 3) }
{
    match why {
        Why::Memory => 1,
        Why::StampEnd => 2,
    }
}

pub(crate) fn bits_of(set: Colours) -> u64
    ensures { result ≡ set.0 }
{
    u64::from(set.0)
}
