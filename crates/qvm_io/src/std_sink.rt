ghost use Rattle.std.specs.Prelude.{◌≡◌};

use crate::errors::Failed;
use crate::outside::Sink;
use std::io::Write;

/// A writer of std as a sink. It tells the bytes that the writer tells: of standard output, a file or a
/// socket that is nothing. A write of which the writer takes no byte is a fault.
#[derive(Drop)]
pub struct StdSink<W> {
    writer: W,
    faults: u64,
}

impl<W: Write> StdSink<W> {
    /// A sink that writes to the writer, which keeps nothing back: no flush follows.
    pub fn new(writer: W) -> StdSink<W>
        ensures bytes_taken { ⟦<StdSink<W> as Sink>⟧.bytes_taken result ≡ W.contents writer }
        ensures faults { ⟦<StdSink<W> as Sink>⟧.faults result ≡ 0 }
    {
        StdSink { writer, faults: 0 }
    }
}

impl<W: Write> Sink for StdSink<W> {
    ghost bytes_taken = { λ s. W.contents s.writer };

    ghost faults = { λ s. s.faults };

    fn write(&mut self, piece: &[u8]) -> Result<usize, Failed> {
        match self.writer.write(piece) {
            Ok(n) if n > 0 => Ok(n),
            _ => {
                self.faults = self.faults.saturating_add(1);
                Err(Failed)
            }
        }
    }
}
