ghost use Rattle.std.specs.Prelude.{◌≡◌};
ghost use Rattle.text_and_lists.specs.Reading.{need};
ghost use Rattle.serde_json.specs.View.{view};
ghost use Rattle.trace_reader.specs.declared.fault.TraceFault.TheVariants.{NotJson};
ghost use Rattle.trace_reader.specs.Faults.{Gives};
ghost use Rattle.trace_reader.specs.inner.Faults.{GivesBy};
ghost use Rattle.trace_reader.specs.Reading.{line_in, line_of, said_by, tree_of, turn_in};

use crate::changes::{complete_in, copy_in, delete_all_in, delete_in, put_in};
use crate::claims::{attempt_in, file_in, job_in, object_in};
use crate::fault::{Field, TraceFault};
use crate::fields::str_member;
use crate::line::TraceLine;
use crate::operation::{Operation, operation_of};
use crate::stage::TraceStage;
use s3_types::let_go;
use serde_json::Value;
use std::alloc::Global;

/// The most bytes of a line, without its line feed.
pub const MOST_BYTES: usize = 8_388_608;

/// Returns the JSON tree of a line, or the fault NotJson.
fn tree(alloc: Global, line: &[u8]) -> Result<Value, TraceFault>
    ensures { GivesBy view result (need (tree_of line.now) NotJson) }
{
    match Value::from_slice(alloc, line) {
        Ok(value) => Ok(value),
        Err(e) => {
            if e.is_memory() {
                Err(TraceFault::NoMemory)
            } else {
                Err(TraceFault::NotJson)
            }
        }
    }
}

/// Reads a line of this operation in a job with this number of tasks, or returns its first fault.
fn said_by(
    alloc: Global,
    tasks: Option<u32>,
    operation: Operation,
    value: &Value,
) -> Result<TraceLine, TraceFault>
    ensures { Gives result (said_by tasks operation (view value.now)) }
{
    match operation {
        Operation::Job => job_in(alloc, value),
        Operation::Attempt => attempt_in(tasks, value),
        Operation::File => file_in(alloc, value),
        Operation::Object => object_in(alloc, value),
        Operation::Commit => Ok(TraceLine::Commit),
        Operation::PutObject => put_in(alloc, value),
        Operation::CopyObject => copy_in(alloc, value),
        Operation::DeleteObject => delete_in(alloc, value),
        Operation::DeleteObjects => delete_all_in(alloc, value),
        Operation::CompleteMultipartUpload => complete_in(alloc, value),
        Operation::Other => Ok(TraceLine::Still),
    }
}

/// Returns the operation of a line that may come at this stage, or the line's fault.
fn turn_in(stage: TraceStage, value: &Value) -> Result<Operation, TraceFault>
    ensures { Gives result (turn_in stage (view value.now)) }
{
    if value.as_object().is_none() {
        return Err(TraceFault::NotJson);
    }
    let name = str_member(value, Field::Op)?;
    let Some(operation) = operation_of(name) else {
        return Err(TraceFault::UnknownOp);
    };
    if stage.may_come(operation) {
        Ok(operation)
    } else {
        Err(TraceFault::OutOfOrder)
    }
}

/// Reads a tree at this stage, or returns its first fault.
fn line_in(alloc: Global, stage: TraceStage, value: &Value) -> Result<TraceLine, TraceFault>
    ensures { Gives result (line_in stage (view value.now)) }
{
    let operation = turn_in(stage, value)?;
    said_by(alloc, stage.tasks, operation, value)
}

/// Reads a line of a trace, without its line feed, at this stage of the trace. If the line has a
/// fault, returns the first one in the order in which `TraceFault` lists them, unless memory runs
/// out.
#[tactic(auto, unfolding(crate::specs::Reading::line_of))]
pub fn read_line(alloc: Global, stage: TraceStage, line: &[u8]) -> Result<TraceLine, TraceFault>
    // The result is the line's contents, or its first fault, unless memory ran out.
    ensures { Gives result (line_of stage line.now) }
{
    if line.len() > MOST_BYTES {
        return Err(TraceFault::TooLong);
    }
    let value = tree(alloc, line)?;
    let said = line_in(alloc, stage, &value);
    let_go(value);
    said
}
