ghost use Rattle.std.specs.Prelude.{◌≡◌, ℕ, ◌<◌, ◌≤◌, List, [], ◌++◌, Option, Some, None, length, take, drop, min, IfOk, OnOk, OnErr, option_map};
ghost use Rattle.devices.specs.Calls as calls_of;
ghost use Rattle.devices.specs.Calls.{unused};
ghost use Rattle.devices.specs.Devices.{Rose};

use crate::calls::Calls;
use crate::device::{CallList, Failed, Sink, Source};
use s3_types::Bytes;
use std::alloc::Global;
use std::marker::Model;

/// Copies as many of the bytes as fit to the front of the buffer, and returns how many.
fn copy_front(bytes: &[u8], buffer: &mut [u8]) -> usize
    ensures count { result ≡ min (length bytes.now) (length buffer.old) }
    ensures front { take result buffer.new ≡ take result bytes.now }
{
    let n = bytes.len().min(buffer.len());
    buffer[..n].copy_from_slice(&bytes[..n]);
    n
}

/// Bytes in memory as a source. The calls that are named fail.
#[derive(Drop)]
pub struct MemSource {
    bytes: Bytes,
    taken: usize,
    calls: Calls,
}

impl Model for MemSource {
    ghost use Rattle.std.specs.Prelude.{◌≤◌, length, drop};
    ghost use Rattle.devices.specs.Devices.{Left};

    ghost Value = { Left };

    ghost view = { λ s. record { bytes = drop s.taken s.bytes; calls = s.calls } };

    ghost invariant = { λ s. s.taken ≤ length s.bytes };
}

impl MemSource {
    /// The bytes as a source, of which the calls in `fail` fail. Takes no memory.
    pub fn new(bytes: Bytes, fail: CallList) -> MemSource
        ensures { result ≡ record { bytes = bytes; calls = unused fail None } }
    {
        MemSource {
            bytes,
            taken: 0,
            calls: Calls::new(fail, None),
        }
    }
}

impl Source for MemSource {
    ghost left = { λ s. Some s.bytes };

    ghost faults = { λ s. s.calls.faults };

    ghost answers = { λ s t. calls_of.Answers s.calls t.calls };

    ghost fails = { λ s t. calls_of.Fails s.calls t.calls };

    fn read(&mut self, buffer: &mut [u8]) -> Result<usize, Failed> {
        self.calls.next()?;
        let n = copy_front(&self.bytes.as_slice()[self.taken..], buffer);
        self.taken += n;
        Ok(n)
    }
}

/// Bytes in memory as a source that never fails.
#[derive(Drop)]
pub struct SureSource {
    bytes: Bytes,
    taken: usize,
}

impl Model for SureSource {
    ghost use Rattle.std.specs.Prelude.{ℕ, List, ◌≤◌, length, drop};

    ghost Value = { List ℕ };

    ghost view = { λ s. drop s.taken s.bytes };

    ghost invariant = { λ s. s.taken ≤ length s.bytes };
}

impl SureSource {
    /// The bytes as a source that never fails. Takes no memory.
    pub fn new(bytes: Bytes) -> SureSource
        ensures { result ≡ bytes }
    {
        SureSource { bytes, taken: 0 }
    }
}

impl Source for SureSource {
    ghost left = { λ s. Some s };

    ghost faults = { λ s. 0 };

    ghost answers = { λ s t. Unit {0} };

    ghost fails = { λ s t. ⊥ };

    fn read(&mut self, buffer: &mut [u8]) -> Result<usize, Failed> {
        let n = copy_front(&self.bytes.as_slice()[self.taken..], buffer);
        self.taken += n;
        Ok(n)
    }
}

/// A sink in memory. The calls that are named fail.
#[derive(Drop)]
pub struct MemSink {
    bytes: Vec<u8>,
    out: usize,
    calls: Calls,
}

impl Model for MemSink {
    ghost use Rattle.devices.specs.Devices.{Written};

    ghost Value = { Written };

    ghost view = { λ s. record { bytes = s.bytes.items; out = s.out; calls = s.calls } };
}

impl MemSink {
    /// An empty sink, of which the calls in `fail` fail. Takes no memory.
    pub fn new(alloc: Global, fail: CallList) -> MemSink
        ensures { result ≡ record { bytes = []; out = 0; calls = unused fail None } }
    {
        MemSink {
            bytes: Vec::new(alloc),
            out: 0,
            calls: Calls::new(fail, None),
        }
    }

    /// Returns the bytes that were written.
    pub fn bytes(&self) -> &[u8]
        ensures { result.now ≡ self.now.bytes }
    {
        self.bytes.as_slice()
    }
}

impl Sink for MemSink {
    ghost written = { λ s. Some s.bytes };

    ghost faults = { λ s. s.calls.faults };

    ghost is_out = { λ s. s.out ≡ length s.bytes };

    ghost answers = { λ s t. calls_of.Answers s.calls t.calls };

    ghost fails = { λ s t. calls_of.Fails s.calls t.calls };

    /// Counts as a fault if memory runs out.
    fn write(&mut self, piece: &[u8]) -> Result<usize, Failed> {
        self.calls.next()?;
        match self.bytes.extend_from_slice(piece) {
            Ok(()) => Ok(piece.len()),
            Err(_) => Err(self.calls.starve()),
        }
    }

    fn flush(&mut self) -> Result<(), Failed> {
        self.calls.next()?;
        self.out = self.bytes.len();
        Ok(())
    }
}
