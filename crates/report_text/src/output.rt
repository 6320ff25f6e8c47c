// Where the text of a report goes.
ghost use Rattle.std.specs.Prelude.{decimal};
ghost use Rattle.report_text.specs.Output.{OutputState, Adds};

/// Takes a text piece by piece. After a fault it sends nothing more, and the fault is told at the end.
pub trait Output {
    ghost state: { Self → OutputState };

    fn put(&mut self, piece: &[u8])
        ensures { Adds (state self.old) (state self.new) piece.now };

    /// Takes a number in decimal.
    fn put_number(&mut self, number: u64)
        ensures { Adds (state self.old) (state self.new) (decimal number) };
}
