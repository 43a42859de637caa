ghost use Rattle.std.specs.Prelude.{◌≡◌, None};

use crate::sink::{Refused, Sink};
use std::io::Write;
use std::marker::Model;

/// Standard output, standard error or another stream. What it holds isn't told.
#[derive(Drop)]
pub struct StdSink<W: Write + Drop> {
    writer: W,
    faults: u64,
}

impl<W: Write + Drop> Model for StdSink<W> {
    ghost use Rattle.std.specs.Prelude.{ℕ};

    ghost Value = { ℕ };

    ghost view = { λ s. s.faults };
}

impl<W: Write + Drop> StdSink<W> {
    /// A sink over a stream, with no fault so far.
    pub fn new(writer: W) -> StdSink<W>
        ensures { result ≡ 0 }
    {
        StdSink { writer, faults: 0 }
    }
}

impl<W: Write + Drop> Sink for StdSink<W> {
    ghost written = { λ _. None };

    ghost faults = { λ s. s };

    fn put(&mut self, piece: &[u8]) -> Result<u64, Refused> {
        match self.writer.write(piece) {
            Ok(count) if count > 0 => Ok(count as u64),
            _ => {
                self.faults = self.faults.saturating_add(1);
                Err(Refused)
            }
        }
    }
}
