// The words of a closed board, of which the rows that were begun are read.
ghost use Rattle.std.specs.Prelude.{◌≡◌, ◌+◌, ◌<◌, map, slice_index, IfOk};
ghost use Rattle.std.specs.List.{All};
ghost use Rattle.std.specs.Mem.Slots.{slots_items, slots_len, IsFull};
ghost use Rattle.stamp_board.specs.Words.{row_at, word_at, words_of, width};
ghost use Rattle.stamp_board.specs.Rows.{AreColours, IsRow, IsSize, colours_in, marks_in};
ghost use Rattle.stamp_board.specs.Closing.{closed_row};

use crate::rows::{ClosedRow, ClosedRows};
use crate::view::Size;
use crate::words::{index, mark_of, outcome_of_word};
use atomic_table::Closed;
use log_node::{ColourMark, ListOf, Marks, Node, Row};
use std::alloc::{AllocError, Global};

pub(crate) struct ClosedWords {
    pub(crate) size: Size,
    pub(crate) closed: Closed<Node, Global>,
    ghost is_size: { IsSize size },
    ghost long: { slots_len closed.words ≡ words_of size },
    ghost full: { IsFull closed.words },
    ghost no_slots: { slots_len closed.slots ≡ 0 },
}

impl ClosedWords {
    fn word(&self, row: Row, part: u8) -> u64
        requires row { IsRow self.now.size row }
        requires part { part < width self.now.size }
        ensures { let k = self.now.size in
            result ≡ slice_index (slots_items self.now.closed.words) (word_at k (row_at k row) part) }
    {
        self.closed.word(index(self.size, row, part))
    }

    fn marks(&self, alloc: Global, row: Row) -> Result<Marks, AllocError>
        requires row { IsRow self.now.size row }
        requires colours { AreColours self.now.size (colours_in self.now.size (slots_items self.now.closed.words) row) }
        ensures { IfOk result (λ marks. marks ≡ marks_in self.now.size (slots_items self.now.closed.words) row) }
    {
        let bits = self.word(row, 0);
        let mut marks = ListOf::new(alloc);
        for colour in 0..self.size.colours {
            if (bits >> colour) % 2 == 1 {
                let mark = mark_of(self.word(row, 1 + colour));
                marks.push(ColourMark { colour, mark })?;
            }
        }
        Ok(marks)
    }

    // The rows with their marks and outcomes. No other row's words are read.
    pub(crate) fn rows(&self, alloc: Global, rows: &[Row]) -> Result<ClosedRows, AllocError>
        requires { let k = self.now.size in
            All (λ row. IsRow k row × AreColours k (colours_in k (slots_items self.now.closed.words) row)) rows.now }
        ensures { IfOk result (λ closed. closed
            ≡ map (closed_row self.now.size (slots_items self.now.closed.words)) rows.now) }
    {
        let mut closed = ListOf::new(alloc);
        for i in 0..rows.len() {
            let row = rows[i];
            let marks = self.marks(alloc, row)?;
            let last = outcome_of_word(self.word(row, self.size.colours + 1));
            closed.push(ClosedRow { row, marks, last })?;
        }
        Ok(closed)
    }

    pub(crate) fn free(self) {
        let ClosedWords { size: _, closed } = self;
        closed.free();
    }
}
