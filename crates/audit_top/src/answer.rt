ghost use Rattle.std.specs.Prelude.{◌≡◌, ◌≢◌, ℕ, List, Option, length, string_bytes, IfOk, OnErr, OnOk};
ghost use Rattle.audit_top.specs.Answer.{AreLeast, ArePicks, IsAnswer, TellsSound, usage_text};
ghost use Rattle.audit_top.specs.inner.Answer.{text_of};
ghost use Rattle.audit_top.specs.inner.Progress.{IsOver, Judged, JudgedSome};
ghost use Rattle.audit_top.specs.Progress.{OfLines};
ghost use Rattle.auditor.specs.SoFar.{IsOfSome, IsTold, IsToldSome};
ghost use Rattle.exit_status.specs.Statuses.{memory_text};

use crate::verdict::Verdict;
use audit_text::{Pick, fault_text, sound_text, unsound_text};
use auditor::{Audit, Auditor};
use exit_status::Status;
use soundness::Marker;
use std::alloc::{AllocError, Global};
use trace_reader::TraceFault;

/// A status with its text.
#[derive(Drop)]
pub struct AuditAnswer {
    pub due: Status,
    pub text: Words,
}

/// A text that was composed, or a fixed one.
#[derive(Drop)]
pub enum Words {
    Made(String),
    Fixed(&'static str),
}

impl Words {
    /// Returns the bytes of the text.
    pub fn as_bytes(&self) -> &[u8]
        ensures text { result.now ≡ text_of self.now }
    {
        match self {
            Words::Made(text) => text.as_bytes(),
            Words::Fixed(text) => text.as_bytes(),
        }
    }
}

/// Returns, for each task, the least attempt that can be its choice.
fn picks_of(alloc: Global, audit: &Audit) -> Result<Vec<Pick>, AllocError>
    requires told { IsToldSome audit.now }
    requires new { audit.now.bench.marker ≡ Marker.New }
    ensures picks { IfOk result (λ picks. (lines : List (List ℕ)) (t : IsTold audit.now lines) → AreLeast lines t.said 0 picks.items) }
{
    let mut picks = Vec::new(alloc);
    for task in 0..audit.tasks() {
        match audit.pick(task) {
            Some(attempt) => picks.push(Pick { task, attempt })?,
            None => unreachable!(),
        }
    }
    Ok(picks)
}

/// Returns the attempts that the answer lists at the end: none unless a new marker exists.
fn told_picks(alloc: Global, audit: &Audit) -> Result<Vec<Pick>, AllocError>
    requires told { IsToldSome audit.now }
    ensures picks { IfOk result (λ picks. (lines : List (List ℕ)) (t : IsTold audit.now lines)
        → ArePicks audit.now.bench.marker lines t.said picks.items) }
{
    match audit.marker() {
        Marker::New => picks_of(alloc, audit),
        Marker::Absent | Marker::Old => Ok(Vec::new(alloc)),
    }
}

/// Returns the text that reports that readers were safe.
fn sound(alloc: Global, audit: &Audit, lines: u64) -> Result<String, AllocError>
    requires told { IsToldSome audit.now }
    ensures text { IfOk result (λ text. (all : List (List ℕ)) → IsTold audit.now all → lines ≡ length all
        → TellsSound all (string_bytes text)) }
{
    let picks = told_picks(alloc, audit)?;
    sound_text(
        alloc,
        lines,
        audit.changes(),
        audit.marker(),
        picks.as_slice(),
    )
}

/// Returns an answer with a composed text, or the answer that memory ran out.
fn made(due: Status, text: Result<String, AllocError>) -> AuditAnswer
    ensures ok { IfOk text (λ t. (result.due ≡ due) × (text_of result.text ≡ string_bytes t)) }
    ensures due { OnOk text (result.due ≡ due) }
    ensures err { OnErr text ((result.due ≡ Status.NoMemory) × (text_of result.text ≡ memory_text)) }
{
    match text {
        Ok(text) => AuditAnswer {
            due,
            text: Words::Made(text),
        },
        Err(_) => no_memory(),
    }
}

/// Returns the answer that memory ran out.
fn no_memory() -> AuditAnswer
    ensures due { result.due ≡ Status.NoMemory }
    ensures text { text_of result.text ≡ memory_text }
{
    AuditAnswer {
        due: Status::NoMemory,
        text: Words::Fixed("no memory\n"),
    }
}

/// Returns the answer to a trace of `lines` lines that has ended.
fn over(alloc: Global, auditor: &Auditor, lines: u64) -> AuditAnswer
    requires told { IsOfSome auditor.now }
    ensures right { (left : Option (List ℕ)) → IsOver left auditor.now lines → OfLines left (IsAnswer result.due (text_of result.text)) }
    ensures calm { result.due ≢ Status.ReadFault }
{
    match auditor.known() {
        Some(audit) => made(Status::Done, sound(alloc, audit, lines)),
        None => made(
            Status::BadScript,
            fault_text(alloc, 0, TraceFault::OutOfOrder),
        ),
    }
}

/// Returns the answer that reports a verdict.
pub fn answer_of(alloc: Global, auditor: &Auditor, verdict: &Verdict) -> AuditAnswer
    requires judged { JudgedSome auditor.now verdict.now }
    ensures right { (left : Option (List ℕ)) → Judged left auditor.now verdict.now
        → OfLines left (IsAnswer result.due (text_of result.text)) }
    ensures failed { verdict.now ≡ Verdict.Failed → result.due ≡ Status.ReadFault }
    ensures calm { verdict.now ≢ Verdict.Failed → result.due ≢ Status.ReadFault }
{
    match verdict {
        Verdict::Over(lines) => over(alloc, auditor, *lines),
        Verdict::Unsound(number, reason) => made(
            Status::Refused,
            unsound_text(alloc, *number, reason),
        ),
        Verdict::Faulty(number, fault) => made(
            Status::BadScript,
            fault_text(alloc, *number, *fault),
        ),
        Verdict::Failed => AuditAnswer {
            due: Status::ReadFault,
            text: Words::Fixed("read fault\n"),
        },
        Verdict::NoMemory => no_memory(),
    }
}

/// Returns the answer to a command line with words, which may have none.
pub fn usage() -> AuditAnswer
    ensures due { result.due ≡ Status.Usage }
    ensures text { text_of result.text ≡ usage_text }
{
    AuditAnswer {
        due: Status::Usage,
        text: Words::Fixed("usage: audit\n"),
    }
}
