ghost use Rattle.std.specs.Prelude.{◌≡◌, false};

use crate::errors::Failed;
use crate::outside::Source;
use crate::tally::Tally;
use std::io::Read;

/// A reader of std as a source. It tells the bytes that the reader tells: of standard input, a file or
/// a socket that is nothing.
#[derive(Drop)]
pub struct StdSource<R> {
    reader: R,
    faults: u64,
    saw_end: bool,
    ends: Tally,
}

impl<R: Read> StdSource<R> {
    /// A source that reads what the reader gives.
    pub fn new(reader: R) -> StdSource<R>
        ensures bytes_left { ⟦<StdSource<R> as Source>⟧.bytes_left result ≡ R.remaining reader }
        ensures saw_end { ⟦<StdSource<R> as Source>⟧.saw_end result ≡ false }
        ensures ends { ⟦<StdSource<R> as Source>⟧.ends result ≡ 0 }
        ensures faults { ⟦<StdSource<R> as Source>⟧.faults result ≡ 0 }
    {
        StdSource {
            reader,
            faults: 0,
            saw_end: false,
            ends: Tally::new(),
        }
    }
}

impl<R: Read> Source for StdSource<R> {
    ghost bytes_left = { λ s. R.remaining s.reader };

    ghost saw_end = { λ s. s.saw_end };

    ghost ends = { λ s. s.ends.count };

    ghost faults = { λ s. s.faults };

    fn read(&mut self, buf: &mut [u8]) -> Result<usize, Failed> {
        match self.reader.read(buf) {
            Ok(n) => {
                self.saw_end = n == 0;
                self.ends.note(self.saw_end);
                Ok(n)
            }
            Err(_) => {
                self.saw_end = false;
                self.faults = self.faults.saturating_add(1);
                Err(Failed)
            }
        }
    }
}
