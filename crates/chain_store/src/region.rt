// A region: its columns, each under turns beside its seat of the region's board.
ghost use Rattle.std.specs.Prelude.{◌≡◌, length};
ghost use Rattle.chain_store.specs.Tied.{AreTied};
ghost use Rattle.chain_store.specs.Desks.{AreSharesOf};

use crate::read_view::desk::Share;
use crate::seated::Seated;
use stamp_board::Board;
use turn_cell::Cell;

/// A region's columns, by colour, and the board on which its appends to several colours are decided. Clients act on it
/// from threads of their own, each by its hold.
#[derive(Drop)]
pub struct Region {
    pub(crate) number: u8,
    pub(crate) regions: u8,
    pub(crate) board: Board,
    pub(crate) columns: Vec<Cell<Seated>>,
    // By colour, the column's published copies.
    pub(crate) shares: Vec<Share>,
    ghost tied: { AreTied board number regions columns.items },
    ghost count: { length columns.items ≡ board.size.colours },
    ghost shared: { AreSharesOf columns.items shares.items },
}

impl Region {
    /// The region's number.
    pub fn number(&self) -> u8
        ensures { result ≡ self.now.number }
    {
        self.number
    }
}
