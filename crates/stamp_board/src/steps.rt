// The kinds of step, each with what it does to a seat's view.
ghost use Rattle.std.specs.Prelude.{◌≡◌, ◌+◌, ◌^◌, ◌<◌};
ghost use Rattle.stamp_board.specs.Words.{words_of, row_at, outcome_from};
ghost use Rattle.stamp_board.specs.Words.{row_word, mark_word, final_word};
ghost use Rattle.stamp_board.specs.Rows.{AreColours, IsRow, outcome_in};
ghost use Rattle.stamp_board.specs.Law.{AlwaysIn, HasColour, IsNewTo, PlaysOne, Told};
ghost use Rattle.stamp_board.specs.Law.{after_begin, after_final, after_mark, heard};
ghost use Rattle.stamp_board.specs.Inside.{IsOf, Stays};

use crate::board::Board;
use crate::law::{Begins, Ends, Looks, Marks};
use crate::view::View;
use crate::words::bits_of;
use log_node::{Node, Row};

pub(crate) type Inner = atomic_table::Seat<Node, View>;

impl Board {
    pub(crate) fn load(&self, seat: &mut Inner, word: usize) -> u64
        requires seat { IsOf self.now seat.old }
        requires word { word < words_of self.now.size }
        ensures seat { Stays seat.old seat.new }
        ensures view { seat.new.me.0 ≡ heard seat.old.me.0 word result }
        ensures told { Told seat.old.me.0 word result }
    {
        self.table.shared.load::<Looks>(seat, word)
    }

    // Sets a mark from 0.
    pub(crate) fn set_mark(&self, seat: &mut Inner, row: Row, colour: u8, new: u64) -> u64
        requires seat { IsOf self.now seat.old }
        requires row { IsRow self.now.size row }
        requires colour { colour < self.now.size.colours }
        requires part { PlaysOne seat.old.me.0 (1 + self.now.size.clients + colour) }
        requires begun { HasColour seat.old.me.0 (row_at self.now.size row) colour }
        requires new { (0 < new) × (new < 2 ^ 62 + 2) }
        ensures seat { Stays seat.old seat.new }
        ensures view { seat.new.me.0 ≡ after_mark seat.old.me.0 (mark_word self.now.size row colour) new result }
        ensures told { Told seat.old.me.0 (mark_word self.now.size row colour) result }
    {
        let word = self.word(row, 1 + colour);
        self.table
            .shared
            .compare_exchange::<Marks>(seat, word, 0, new)
    }

    // Sets a final word from 0.
    pub(crate) fn set_final(&self, seat: &mut Inner, row: Row, new: u64) -> u64
        requires seat { IsOf self.now seat.old }
        requires row { IsRow self.now.size row }
        requires new { (0 < new) × (new < 2 ^ 62 + 2) }
        requires outcome { let k = self.now.size in
            AlwaysIn k seat.old.me.0 (λ ws. outcome_from new ≡ outcome_in k ws row) }
        ensures seat { Stays seat.old seat.new }
        ensures view { seat.new.me.0 ≡ after_final seat.old.me.0 (final_word self.now.size row) new result }
        ensures told { Told seat.old.me.0 (final_word self.now.size row) result }
    {
        let word = self.word(row, self.size.colours + 1);
        self.table
            .shared
            .compare_exchange::<Ends>(seat, word, 0, new)
    }

    // Sets word 0 of a row from 0.
    pub(crate) fn set_row(&self, seat: &mut Inner, row: Row, node: &Node) -> u64
        requires seat { IsOf self.now seat.old }
        requires row { IsRow self.now.size row }
        requires part { PlaysOne seat.old.me.0 (1 + row.client) }
        requires node { AreColours self.now.size node.now.colours }
        requires client { node.now.id.client ≡ row.client }
        requires new { IsNewTo seat.old.me.0 row.client node.now.id }
        ensures seat { Stays seat.old seat.new }
        ensures view { result ≡ 0 → seat.new.me.0 ≡ after_begin seat.old.me.0 self.now.size row node.now }
        ensures told { Told seat.old.me.0 (row_word self.now.size row) result }
    {
        let word = self.word(row, 0);
        let bits = bits_of(node.colours);
        self.table
            .shared
            .compare_exchange_with::<Begins>(seat, word, 0, bits, node)
    }
}
