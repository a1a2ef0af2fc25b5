ghost use Rattle.std.specs.Prelude.{◌≡◌, [], ◌<◌, ◌≤◌, ◌+◌, ◌-◌, ◌^◌, max, IfOk, OnOk, OnErr, IsErrOf};
ghost use Rattle.line_input.specs.Reading.{unread, Gives};

use crate::buffer::{Buffer, CHUNK_BYTES, InputFault, find_end, pass_line};
use devices::Source;
use std::alloc::Global;
use std::marker::Model;

/// The lines of a source: the bytes that were read and not given yet, and the line that was given
/// last.
#[derive(Drop)]
pub struct LineInput {
    buffer: Buffer,
    from: usize,
    to: usize,
}

impl Model for LineInput {
    ghost use Rattle.std.specs.Prelude.{◌≤◌, length, slice_range};
    ghost use Rattle.line_input.specs.Reading.{ReadAhead};
    ghost use Rattle.line_input.specs.Buffers.{held_in};
    ghost use Rattle.line_input.specs.inner.Buffers.{IsSound};

    ghost Value = { ReadAhead };

    ghost view = { λ s. record { line = slice_range s.buffer.bytes.items s.from s.to; held = held_in s.buffer; kept = length s.buffer.bytes.items } };

    ghost invariant = { λ s. IsSound s.buffer × (s.from ≤ s.to) × (s.to ≤ length s.buffer.bytes.items) };
}

impl LineInput {
    /// An input of which nothing was read. Takes no memory.
    pub fn new(alloc: Global) -> LineInput
        ensures { result ≡ record { line = []; held = []; kept = 0 } }
    {
        LineInput {
            buffer: Buffer::new(alloc),
            from: 0,
            to: 0,
        }
    }

    /// Returns the line that the last call of `next` gave, without its line feed. A CR at its end
    /// is part of it.
    pub fn line(&self) -> &[u8]
        ensures { result.now ≡ self.now.line }
    {
        &self.buffer.bytes[self.from..self.to]
    }

    /// Reads the next line. `Ok(true)`: there is one, and `line` lends it. `Ok(false)`: the input
    /// has ended, and each of its lines was given. The last line may lack its line feed. For a
    /// line with more than `most` bytes, `line` may lend only the front of it, which has more than
    /// `most` bytes too: refuse it and read no further. After an `Err` nothing is lost: the same
    /// bytes are unread as before. Each call of the source asks for at least 64 KiB.
    pub fn next<Q: Source>(&mut self, input: &mut Q, most: usize) -> Result<bool, InputFault>
        ensures calm { OnOk result (Q.faults input.new ≡ Q.faults input.old) }
        ensures failed { IsErrOf result InputFault.Failed → Q.faults input.old < 2 ^ 64 - 1 → Q.faults input.old
            < Q.faults input.new }
        ensures wanting { IsErrOf result InputFault.NoMemory → Q.faults input.new ≡ Q.faults input.old }
        ensures given { IfOk result (λ more. Gives more most (unread self.old.held (Q.left input.old)) self.new.line
            (unread self.new.held (Q.left input.new))) }
        ensures same { OnErr result (unread self.new.held (Q.left input.new) ≡ unread self.old.held (Q.left
            input.old)) }
        ensures few { self.new.kept ≤ max self.old.kept (most + CHUNK_BYTES) }
    {
        self.from = 0;
        self.to = 0;
        match find_end(&mut self.buffer, input, most) {
            Ok(end) => {
                self.from = self.buffer.given;
                let more = self.from < self.buffer.filled;
                self.to = pass_line(&mut self.buffer, end);
                Ok(more)
            }
            Err(fault) => Err(fault),
        }
    }
}
