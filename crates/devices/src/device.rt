ghost use Rattle.std.specs.Prelude.{◌≡◌, ℕ, ◌<◌, ◌≤◌, ◌⊎◌, List, Option, length, take, IfOk, OnOk, OnErr};
ghost use Rattle.devices.specs.Devices.{Rose, Takes, Appends};

use s3_types::Sequence;

/// A call of a device failed.
#[derive(Clone, Copy, Debug, PartialEq, Eq)]
pub struct Failed;

/// Numbers of calls, counted from 1.
pub type CallList = Sequence<u64>;

/// A source of input.
pub trait Source {
    /// The bytes that are left, if the source shows them.
    ghost left: { Self → Option (List ℕ) };

    /// How many calls have failed so far, at most 2^64 - 1.
    ghost faults: { Self → ℕ };

    /// How a call that succeeds may change the source, if it shows which of its calls fail.
    ghost answers: { Self → Self → Type 0 };

    /// How a call that fails may change it.
    ghost fails: { Self → Self → Type 0 };

    /// Takes the first bytes that are left into the front of the buffer, and returns how many. It
    /// returns 0 for a buffer that is not empty only at the end of the input. A failed call takes
    /// nothing.
    fn read(&mut self, buffer: &mut [u8]) -> Result<usize, Failed>
        ensures count { IfOk result (λ n. n ≤ length buffer.old) }
        ensures taken { IfOk result (λ n. Takes (left self.old) (left self.new) n buffer.new) }
        ensures calm { OnOk result (faults self.new ≡ faults self.old) }
        ensures failed { OnErr result (Rose (faults self.old) (faults self.new)) }
        ensures answered { OnOk result (answers self.old self.new) }
        ensures broken { OnErr result (fails self.old self.new) }
        ensures same { OnErr result (left self.new ≡ left self.old) };
}

/// A sink for output.
pub trait Sink {
    /// The bytes written so far, if the sink shows them.
    ghost written: { Self → Option (List ℕ) };

    /// How many calls have failed so far, at most 2^64 - 1.
    ghost faults: { Self → ℕ };

    /// Everything that was written has gone out.
    ghost is_out: { Self → Type 0 };

    /// How a call that succeeds may change the sink, if it shows which of its calls fail.
    ghost answers: { Self → Self → Type 0 };

    /// How a call that fails may change it.
    ghost fails: { Self → Self → Type 0 };

    /// Writes the first bytes of a piece, and returns how many. Returning 0 for a piece that is
    /// not empty counts as a fault. A failed call writes nothing.
    fn write(&mut self, piece: &[u8]) -> Result<usize, Failed>
        ensures count { IfOk result (λ n. n ≤ length piece.now) }
        ensures appended { IfOk result (λ n. Appends (written self.old) (written self.new) (take n piece.now)) }
        ensures calm { IfOk result (λ n. (0 < n) ⊎ (length piece.now ≡ 0) → faults self.new ≡ faults self.old) }
        ensures none { IfOk result (λ n. n ≡ 0 → 0 < length piece.now → Rose (faults self.old) (faults self.new)) }
        ensures failed { OnErr result (Rose (faults self.old) (faults self.new)) }
        ensures answered { OnOk result (answers self.old self.new) }
        ensures broken { OnErr result (fails self.old self.new) }
        ensures same { OnErr result (written self.new ≡ written self.old) };

    /// Sends out everything that was written.
    fn flush(&mut self) -> Result<(), Failed>
        ensures out { OnOk result (is_out self.new) }
        ensures same { written self.new ≡ written self.old }
        ensures calm { OnOk result (faults self.new ≡ faults self.old) }
        ensures failed { OnErr result (Rose (faults self.old) (faults self.new)) }
        ensures answered { OnOk result (answers self.old self.new) }
        ensures broken { OnErr result (fails self.old self.new) };
}
