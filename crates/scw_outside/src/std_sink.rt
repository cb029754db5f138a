//! A sink over a writer. What it takes isn't told.

ghost use Rattle.std.specs.Prelude.{None};

use crate::sink::{Sink, SinkFailed};
use std::io::Write;

/// A sink over a writer, which tells neither bytes nor room.
#[derive(Drop)]
pub struct StdSink<W> {
    writer: W,
    faults: u64,
}

impl<W: Write + Drop> StdSink<W> {
    /// A sink over this writer. Each `put` is one `write`, and fails where that is an `Err` or takes
    /// no byte.
    pub fn new(w: W) -> StdSink<W> {
        StdSink {
            writer: w,
            faults: 0,
        }
    }
}

impl<W: Write + Drop> Sink for StdSink<W> {
    ghost taken = { λ _. None };

    ghost room = { λ _. None };

    ghost fault_count = { λ s. s.faults };

    fn put(&mut self, bytes: &[u8]) -> Result<usize, SinkFailed> {
        match self.writer.write(bytes) {
            Ok(count) if count > 0 => Ok(count),
            Ok(_) | Err(_) => {
                self.faults = self.faults.saturating_add(1);
                Err(SinkFailed)
            }
        }
    }

    fn faults(&self) -> u64 {
        self.faults
    }
}
