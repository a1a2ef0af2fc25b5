ghost use Rattle.std.specs.Option.{option_copied};
ghost use Rattle.std.specs.Prelude.{◌≡◌, ℕ, List, [], None, Some, Ok, Option, IfSome};
ghost use Rattle.audit_model.specs.Answers.{changed_paths};
ghost use Rattle.audit_model.specs.Moments.{said_by};
ghost use Rattle.audit_model.specs.Recorded.{Recorded, after, stage_of};
ghost use Rattle.auditor.specs.inner.AuditState.{AtSome, Stepped};
ghost use Rattle.auditor.specs.inner.SoFar.{Begins, IsDue};
ghost use Rattle.auditor.specs.SoFar.{IsOfSome, IsSoFar, Taken};

use crate::audit::Audit;
use audit_judge::Reason;
use s3_types::let_go;
use std::alloc::Global;
use std::marker::Model;
use trace_reader::{TraceFault, TraceLine, TraceStage, read_line};

/// An audit of a trace. Contracts see what it knows, once the job's line has come.
#[derive(Drop)]
pub struct Auditor {
    alloc: Global,
    audit: Option<Audit>,
}

impl Model for Auditor {
    ghost use Rattle.std.specs.Prelude.{Option};
    ghost use Rattle.auditor.specs.Codes.{coded_known};
    ghost use Rattle.auditor.specs.AuditState.{AuditState};

    ghost Value = { Option AuditState };

    ghost coded = { coded_known };

    ghost view = { λ a. a.audit };
}

/// Takes one more line, which the stage of the trace allows.
fn step(audit: &mut Audit, line: TraceLine) -> Result<Option<Reason>, TraceFault>
    requires at { AtSome audit.old }
    requires due { IsDue audit.old line }
    ensures stepped { Stepped audit.old audit.new (λ r. after (Some r) line) (λ dest. changed_paths dest line) result }
{
    match line {
        TraceLine::Job { dest, .. } => {
            let_go(dest);
            Err(TraceFault::OutOfOrder)
        }
        TraceLine::Attempt { task, attempt } => audit.add_attempt(task, attempt),
        TraceLine::File { path, etags } => audit.add_file(path, etags),
        TraceLine::Object { bucket, key, etags } => audit.add_object(bucket, key, etags),
        TraceLine::Commit => audit.commit(),
        TraceLine::Put { bucket, key, etags } => audit.put(bucket, key, etags),
        TraceLine::Copy {
            bucket,
            source,
            key,
        } => audit.copy(bucket, source, key),
        TraceLine::Delete { bucket, keys } => audit.delete(bucket, keys),
        TraceLine::Still => Ok(None),
    }
}

/// Returns the audit that knows the first line, which must be a job's.
fn first(alloc: Global, line: TraceLine) -> Result<Audit, TraceFault>
    ensures begins { Begins line result }
{
    match line {
        TraceLine::Job { dest, keeps, tasks } => Ok(Audit::begin(alloc, dest, keeps, tasks)?),
        other => {
            let_go(other);
            Err(TraceFault::OutOfOrder)
        }
    }
}

impl Auditor {
    /// Returns how far the trace has come.
    fn stage(&self) -> TraceStage
        ensures stage { (lines : List (List ℕ)) (said : Option Recorded) → IsSoFar self.now lines → said_by lines None ≡ Ok said
            → result ≡ stage_of said }
    {
        match &self.audit {
            Some(audit) => audit.stage(),
            None => TraceStage {
                tasks: None,
                attempted: false,
                running: false,
            },
        }
    }

    /// Returns an auditor that knows no line yet. Takes no memory.
    pub fn new(alloc: Global) -> Auditor
        ensures none { result ≡ None }
    {
        Auditor { alloc, audit: None }
    }

    /// Returns the knowledge about the lines so far, once the job's line has come.
    pub fn known(&self) -> Option<&Audit>
        ensures known { option_copied result ≡ self.now }
    {
        self.audit.as_ref()
    }

    /// Takes the next line, without its line feed. Returns None if the line has no fault and
    /// readers are still safe, else the first reason why they are not. Fails with the first fault
    /// of the line. After a reason or a fault nothing is promised for other lines. NoMemory may
    /// come in place of each answer.
    pub fn take(&mut self, line: &[u8]) -> Result<Option<Reason>, TraceFault>
        requires told { IsOfSome self.old }
        ensures right { Taken self.old self.new line.now result }
    {
        let line = match read_line(self.alloc, self.stage(), line) {
            Ok(line) => line,
            Err(fault) => return Err(fault),
        };
        match &mut self.audit {
            Some(audit) => step(audit, line),
            None => match first(self.alloc, line) {
                Ok(audit) => {
                    self.audit = Some(audit);
                    Ok(None)
                }
                Err(fault) => Err(fault),
            },
        }
    }
}
