ghost use Rattle.std.specs.Prelude.{◌≡◌, IfOk, OnErr};
ghost use Rattle.exit_status.specs.Statuses.{written_text};
ghost use Rattle.s3a_top.specs.Statuses.{script_fault_text, twin_fault_text, IsIdle};
ghost use Rattle.s3a_top.specs.Stops.{status_of, stop_text};
ghost use Rattle.s3a_top.specs.inner.Stops.{of_shelf};
ghost use Rattle.s3a_top.specs.inner.Workings.{IsAnswered, IsMade, IsStopped};

use crate::work::{Work, quiet};
use devices::kept::ShelfStop;
use durable_store::{CommandAnswer, fault_text};
use exit_status::Status;
use job_script::ScriptFault;
use s3_types::{Bytes, Journal};
use std::alloc::{AllocError, Global};
use twin_script::TwinFault;

/// Why the program stopped before it sent anything.
#[derive(Clone, Copy, PartialEq, Eq)]
pub enum Stop {
    /// The words are no command.
    Usage,
    /// The input failed.
    ReadFault,
    /// The shelf failed.
    ShelfFault,
    /// The input is not a valid script.
    Script(ScriptFault),
    /// The input is not two valid scripts with an order.
    Twins(TwinFault),
    /// The shelf holds something that is no store: the fault's number, and its place in bytes from
    /// the start.
    Image { number: u8, place: u64 },
    NoMemory,
}

/// The line that reports an invalid script: `script fault NUMBER at line LINE`.
#[tactic(auto, unfolding(crate::specs::Statuses::script_fault_text))]
fn script_fault_text(alloc: Global, fault: ScriptFault) -> Result<Bytes, AllocError>
    ensures { IfOk result (λ text. text ≡ script_fault_text fault) }
{
    let number = fault.number();
    let line = fault.line();
    let text = format!(in alloc; "script fault {number} at line {line}\n")?;
    Bytes::new(alloc, text.into_bytes())
}

/// The line that reports two invalid scripts or their order: `twin fault NUMBER at line LINE`.
#[tactic(auto, unfolding(crate::specs::Statuses::twin_fault_text))]
fn twin_fault_text(alloc: Global, fault: TwinFault) -> Result<Bytes, AllocError>
    ensures { IfOk result (λ text. text ≡ twin_fault_text fault) }
{
    let number = fault.number();
    let line = fault.line();
    let text = format!(in alloc; "twin fault {number} at line {line}\n")?;
    Bytes::new(alloc, text.into_bytes())
}

impl Stop {
    /// The stop for a failed call of the shelf.
    pub fn of_shelf(fault: ShelfStop) -> Stop
        ensures { result ≡ of_shelf fault }
    {
        match fault {
            ShelfStop::Failed => Stop::ShelfFault,
            ShelfStop::NoMemory => Stop::NoMemory,
        }
    }

    /// The status with which the program reports this stop.
    pub fn status(self) -> Status
        ensures { result ≡ status_of self }
    {
        match self {
            Stop::Usage => Status::Usage,
            Stop::ReadFault => Status::ReadFault,
            Stop::ShelfFault => Status::ShelfFault,
            Stop::Script(_) => Status::BadScript,
            Stop::Twins(_) => Status::BadScript,
            Stop::Image { .. } => Status::BadImage,
            Stop::NoMemory => Status::NoMemory,
        }
    }

    /// The text of this stop, or `None` if the text of its status is written instead.
    fn text(self, alloc: Global) -> Result<Option<Bytes>, AllocError>
        ensures told { IfOk result (λ text. written_text (status_of self) text ≡ stop_text self) }
        ensures made { OnErr result (IsMade self) }
    {
        match self {
            Stop::Script(fault) => Ok(Some(script_fault_text(alloc, fault)?)),
            Stop::Twins(fault) => Ok(Some(twin_fault_text(alloc, fault)?)),
            Stop::Image { number, place } => Ok(Some(fault_text(alloc, number, place)?)),
            _ => Ok(None),
        }
    }
}

/// Work that did nothing, with this status and this text.
fn said(alloc: Global, due: Status, text: Option<Bytes>) -> Work
    ensures due { result.answer.due ≡ due }
    ensures text { result.answer.text ≡ text }
    ensures idle { IsIdle result.answer.sent.entries result.told }
{
    let sent = Journal::new(alloc);
    quiet(alloc, CommandAnswer { due, text, sent })
}

/// The work that reports a stop. If memory runs out for its text, the status is `NoMemory`.
pub fn stopped(alloc: Global, stop: Stop) -> Work
    ensures { IsStopped stop result }
{
    match stop.text(alloc) {
        Ok(text) => said(alloc, stop.status(), text),
        Err(_) => said(alloc, Status::NoMemory, None),
    }
}

/// The work that was done, or the one that reports the stop.
pub fn answered(alloc: Global, done: Result<Work, Stop>) -> Work
    ensures { IsAnswered done result }
{
    match done {
        Ok(work) => work,
        Err(stop) => stopped(alloc, stop),
    }
}
