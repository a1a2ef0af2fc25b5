ghost use Rattle.std.specs.Prelude.{◌≡◌, ℕ, None, true};

use crate::device::{Failed, Sink, Source};
use std::io;
use std::marker::Model;

/// A reader of the system as a source. It shows nothing of its bytes.
#[derive(Drop)]
pub struct StdSource<I> {
    input: I,
    faults: u64,
}

impl<I> Model for StdSource<I> {
    ghost use Rattle.std.specs.Prelude.{ℕ};

    ghost Value = { ℕ };

    ghost view = { λ s. s.faults };
}

impl<I: io::Read + Drop> StdSource<I> {
    /// A source over this reader.
    pub fn new(input: I) -> StdSource<I>
        ensures { result ≡ 0 }
    {
        StdSource { input, faults: 0 }
    }
}

impl<I: io::Read + Drop> Source for StdSource<I> {
    ghost left = { λ s. None };

    ghost faults = { λ s. s };

    ghost answers = { λ s t. Unit {0} };

    ghost fails = { λ s t. Unit {0} };

    fn read(&mut self, buffer: &mut [u8]) -> Result<usize, Failed> {
        match self.input.read(buffer) {
            Ok(n) => Ok(n),
            Err(_) => {
                self.faults = self.faults.saturating_add(1);
                Err(Failed)
            }
        }
    }
}

/// A writer of the system as a sink. It shows nothing of its bytes.
#[derive(Drop)]
pub struct StdSink<O> {
    output: O,
    is_out: bool,
    faults: u64,
}

impl<O> Model for StdSink<O> {
    ghost use Rattle.devices.specs.Devices.{Streamed};

    ghost Value = { Streamed };

    ghost view = { λ s. record { is_out = s.is_out; faults = s.faults } };
}

impl<O: io::Write + Drop> StdSink<O> {
    /// A sink over this writer.
    pub fn new(output: O) -> StdSink<O>
        ensures { result ≡ record { is_out = true; faults = 0 } }
    {
        StdSink {
            output,
            is_out: true,
            faults: 0,
        }
    }
}

impl<O: io::Write + Drop> Sink for StdSink<O> {
    ghost written = { λ s. None };

    ghost faults = { λ s. s.faults };

    ghost is_out = { λ s. s.is_out ≡ true };

    ghost answers = { λ s t. Unit {0} };

    ghost fails = { λ s t. Unit {0} };

    /// Counts as a fault if the writer takes nothing of a piece that is not empty.
    fn write(&mut self, piece: &[u8]) -> Result<usize, Failed> {
        if piece.is_empty() {
            return Ok(0);
        }
        self.is_out = false;
        match self.output.write(piece) {
            Ok(n) if n > 0 => Ok(n),
            _ => {
                self.faults = self.faults.saturating_add(1);
                Err(Failed)
            }
        }
    }

    fn flush(&mut self) -> Result<(), Failed> {
        match self.output.flush() {
            Ok(()) => {
                self.is_out = true;
                Ok(())
            }
            Err(_) => {
                self.faults = self.faults.saturating_add(1);
                Err(Failed)
            }
        }
    }
}
