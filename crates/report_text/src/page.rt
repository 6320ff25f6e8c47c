// The way of a text to a sink.
ghost use Rattle.std.specs.Prelude.{◌≡◌, [], ◌++◌, false, decimal};
ghost use Rattle.report_text.specs.Output.{Adds, Ends};

use crate::digits::digit_count;
use crate::output::Output;
use crate::pending::{PAGE, Pending};
use fuzzy_io::{Failed, Sink, write_all};

/// Joins the pieces of a text into pages and writes those to a sink, until it fails.
#[derive(Drop)]
pub struct Page<'a, K> {
    sink: &'a mut K,
    pending: Pending,
    failed: bool,
}

impl<'a, K: Sink> Output for Page<'a, K> {
    ghost state = { λ p. record {
      sink = p.sink.ghost_name;
      holds = K.holds p.sink.now;
      faults = K.faults p.sink.now;
      pending = p.pending;
      failed = p.failed;
    } };

    #[inline(always)]
    fn put(&mut self, piece: &[u8]) {
        if piece.len() <= PAGE - self.pending.len() {
            self.pending.push(piece);
        } else {
            self.flush();
            self.begin(piece);
        }
    }

    #[inline]
    fn put_number(&mut self, number: u64) {
        let digits = digit_count(number);
        if digits <= PAGE - self.pending.len() {
            self.pending.push_number(number, digits);
        } else {
            self.put_number_over(number);
        }
    }
}

impl<'a, K: Sink> Page<'a, K> {
    /// A page with nothing on it.
    pub fn over(sink: &'a mut K) -> Page<'a, K>
        ensures same { result.sink.ghost_name ≡ sink.entry.ghost_name }
        ensures sink { result.sink.now ≡ sink.old }
        ensures empty { result.pending ≡ [] }
        ensures clean { result.failed ≡ false }
    {
        Page {
            sink,
            pending: Pending::new(),
            failed: false,
        }
    }

    // Puts a number for which the page may lack room.
    #[cold]
    #[inline(never)]
    fn put_number_over(&mut self, number: u64)
        ensures { Adds (⟦<Page<'a, K> as Output>⟧.state self.old) (⟦<Page<'a, K> as Output>⟧.state self.new) (decimal number) }
    {
        self.put(itoa::Buffer::new().format(number).as_bytes());
    }

    // Writes what waits.
    #[cold]
    #[inline(never)]
    fn flush(&mut self)
        ensures all { Adds (⟦<Page<'a, K> as Output>⟧.state self.old) (⟦<Page<'a, K> as Output>⟧.state self.new) [] }
        ensures empty { self.new.pending ≡ [] }
    {
        if self.failed {
            self.pending.clear();
            return;
        }
        self.failed = write_all(&mut *self.sink, self.pending.as_slice()).is_err();
        self.pending.clear();
    }

    // Takes the first piece of a page; one that is longer than a page is written at once.
    #[cold]
    #[inline(never)]
    fn begin(&mut self, piece: &[u8])
        requires { self.old.pending ≡ [] }
        ensures { Adds (⟦<Page<'a, K> as Output>⟧.state self.old) (⟦<Page<'a, K> as Output>⟧.state self.new) piece.now }
    {
        if piece.len() <= PAGE {
            self.pending.push(piece);
            return;
        }
        if self.failed {
            return;
        }
        self.failed = write_all(&mut *self.sink, piece).is_err();
    }

    /// Writes the rest, and says whether all was written.
    pub fn finish(&mut self) -> Result<(), Failed>
        ensures { Ends (⟦<Page<'a, K> as Output>⟧.state self.old) (⟦<Page<'a, K> as Output>⟧.state self.new) result }
    {
        self.flush();
        if self.failed { Err(Failed) } else { Ok(()) }
    }
}
