ghost use Rattle.std.specs.Prelude.{◌≡◌, ◌≢◌, ◌<◌, ◌^◌, ◌-◌, []};
ghost use Rattle.audit_top.specs.inner.Audited.{Answers};
ghost use Rattle.audit_top.specs.Audited.{Audited, Writes};
ghost use Rattle.audit_top.specs.Answer.{usage_text};

use crate::answer::{AuditAnswer, answer_of, usage};
use crate::lines::judge_lines;
use crate::output::write_output;
use auditor::Auditor;
use devices::{Sink, Source};
use exit_status::Status;
use s3_types::Text;
use std::alloc::Global;

/// The end of an audit: the status of its answer, and the status with which the program ends. They
/// differ only if the output failed.
#[derive(Clone, Copy, PartialEq, Eq)]
pub struct Report {
    pub due: Status,
    pub status: Status,
}

/// Reads a trace and answers whether readers were safe.
fn judged<Q: Source>(alloc: Global, input: &mut Q) -> AuditAnswer
    requires source_count { Q.faults input.old < 2 ^ 64 - 1 }
    ensures right { Answers (Q.left input.old) result.due result.text }
    ensures failed { result.due ≡ Status.ReadFault → Q.faults input.old < Q.faults input.new }
    ensures calm { result.due ≢ Status.ReadFault → Q.faults input.new ≡ Q.faults input.old }
{
    let mut auditor = Auditor::new(alloc);
    let verdict = judge_lines(alloc, &mut auditor, input);
    answer_of(alloc, &auditor, &verdict)
}

/// Reads a trace, line by line, and writes whether readers were safe, as [the
/// definitions](specs/Answer.antt) say. There must be no words. Each line is read, judged and
/// dropped. The audit keeps the claim, the live keys with their tags, and for each task the
/// attempts that still fit.
pub fn audit<Q: Source, K: Sink>(
    alloc: Global,
    words: &[Text],
    input: &mut Q,
    out: &mut K,
) -> Report
    requires source_count { Q.faults input.old < 2 ^ 64 - 1 }
    requires sink_count { K.faults out.old < 2 ^ 64 - 1 }

    // Without words, the text that was written is the answer to the lines of the input.
    ensures answer { words.now ≡ []
        → Audited (Q.left input.old) result.due (Writes result.status (K.written out.old) (K.written out.new)) }
    // To words, the text is the usage, and nothing is read.
    ensures usage { words.now ≢ [] → result.due ≡ Status.Usage × input.new ≡ input.old
        × Writes result.status (K.written out.old) (K.written out.new) usage_text }
    // The status of the answer is that of a read fault exactly if the input failed.
    ensures failed { result.due ≡ Status.ReadFault → Q.faults input.old < Q.faults input.new }
    ensures calm { result.due ≢ Status.ReadFault → Q.faults input.new ≡ Q.faults input.old }
    // The status is that of a write fault exactly if the output failed, and else the status of the
    // answer.
    ensures unwritten { result.status ≡ Status.WriteFault → K.faults out.old < K.faults out.new }
    ensures otherwise { result.status ≢ Status.WriteFault → result.status ≡ result.due }
    ensures out { result.status ≢ Status.WriteFault → K.is_out out.new }
{
    let answer = if words.is_empty() {
        judged(alloc, input)
    } else {
        usage()
    };
    let due = answer.due;
    let status = match write_output(out, answer.text.as_bytes()) {
        Ok(()) => due,
        Err(_) => Status::WriteFault,
    };
    Report { due, status }
}
