ghost use Rattle.std.specs.Prelude.{◌≡◌, ◌≢◌, ◌<◌, ◌^◌, ◌-◌, ℕ, List, Option, None};
ghost use Rattle.audit_top.specs.inner.Progress.{IsAt, Judged, LineTaken, StepsTo};
ghost use Rattle.auditor.specs.SoFar.{IsOfSome};
ghost use Rattle.line_input.specs.Reading.{unread};

use crate::verdict::{Step, Verdict};
use auditor::Auditor;
use devices::Source;
use line_input::{InputFault, LineInput};
use std::alloc::Global;
use trace_reader::{MOST_BYTES, TraceFault};

/// Gives the auditor a line that was read, and returns the result.
fn judge_line(auditor: &mut Auditor, line: &[u8]) -> Step
    requires told { IsOfSome auditor.old }
    ensures taken { LineTaken auditor.old auditor.new line.now result }
{
    if line.len() > MOST_BYTES {
        return Step::Faulty(TraceFault::TooLong);
    }
    match auditor.take(line) {
        Ok(None) => Step::More,
        Ok(Some(reason)) => Step::Unsound(reason),
        Err(TraceFault::NoMemory) => Step::NoMemory,
        Err(fault) => Step::Faulty(fault),
    }
}

/// Reads one more line and takes it.
fn take_line<Q: Source>(auditor: &mut Auditor, reader: &mut LineInput, input: &mut Q) -> Step
    requires told { IsOfSome auditor.old }
    ensures right { (left : Option (List ℕ)) (n : ℕ) → IsAt left auditor.old (unread reader.old.held (Q.left input.old)) n
        → StepsTo left n auditor.new (unread reader.new.held (Q.left input.new)) result }
    ensures more { result ≡ Step.More → IsOfSome auditor.new }
    ensures failed { result ≡ Step.Failed → Q.faults input.old < 2 ^ 64 - 1 → Q.faults input.old < Q.faults input.new }
    ensures calm { result ≢ Step.Failed → Q.faults input.new ≡ Q.faults input.old }
{
    match reader.next(input, MOST_BYTES) {
        Ok(true) => judge_line(auditor, reader.line()),
        Ok(false) => Step::Over,
        Err(InputFault::Failed) => Step::Failed,
        Err(InputFault::NoMemory) => Step::NoMemory,
    }
}

/// Reads all lines of a trace, and takes one after the other.
pub fn judge_lines<Q: Source>(alloc: Global, auditor: &mut Auditor, input: &mut Q) -> Verdict
    requires new { auditor.old ≡ None }
    ensures right { Judged (Q.left input.old) auditor.new result }
    ensures failed { result ≡ Verdict.Failed → Q.faults input.old < 2 ^ 64 - 1 → Q.faults input.old < Q.faults input.new }
    ensures calm { result ≢ Verdict.Failed → Q.faults input.new ≡ Q.faults input.old }
{
    let mut reader = LineInput::new(alloc);
    let mut count = 0u64;
    while count < u64::MAX {
        match take_line(auditor, &mut reader, input) {
            Step::More => count += 1,
            Step::Over => return Verdict::Over(count),
            Step::Unsound(reason) => return Verdict::Unsound(count + 1, reason),
            Step::Faulty(fault) => return Verdict::Faulty(count + 1, fault),
            Step::Failed => return Verdict::Failed,
            Step::NoMemory => return Verdict::NoMemory,
        }
    }
    Verdict::NoMemory
}
