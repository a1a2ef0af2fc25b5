use audit_judge::Reason;
use trace_reader::TraceFault;

/// The result of the lines of a trace.
#[derive(Drop)]
pub enum Verdict {
    /// The trace has ended with this number of lines, and readers were safe.
    Over(u64),
    /// The line with this number, from 1, is the first with which readers were not safe.
    Unsound(u64, Reason),
    /// The line with this number is the first with a fault.
    Faulty(u64, TraceFault),
    /// The input failed.
    Failed,
    /// Memory ran out, or the trace has more than 2^64 - 2 lines.
    NoMemory,
}

/// The result of one more line.
#[derive(Drop)]
pub enum Step {
    /// The line has no fault, and readers are still safe.
    More,
    /// There is no more line.
    Over,
    /// Readers are not safe any more.
    Unsound(Reason),
    /// The line has a fault.
    Faulty(TraceFault),
    /// The input failed.
    Failed,
    /// Memory ran out.
    NoMemory,
}
