//! Reads the lines that say what a job will do, and what existed before it.
ghost use Rattle.serde_json.specs.View.{view};
ghost use Rattle.trace_reader.specs.Faults.{Gives};
ghost use Rattle.trace_reader.specs.Reading.{job_in, attempt_in, file_in, object_in};

use crate::fault::{Field, TraceFault};
use crate::fields::{str_member, u32_member};
use crate::kinds::{dest_member, keeps_member, path_member, task_member};
use crate::line::TraceLine;
use crate::texts::texts_member;
use s3_types::{Text, both, let_go};
use serde_json::Value;
use std::alloc::Global;

/// Reads the line of a job, or returns its first fault.
#[tactic(auto, unfolding(crate::specs::Reading::job_in))]
pub fn job_in(alloc: Global, value: &Value) -> Result<TraceLine, TraceFault>
    ensures { Gives result (job_in (view value.now)) }
{
    let dest = dest_member(alloc, value)?;
    let keeps = match keeps_member(value) {
        Ok(keeps) => keeps,
        Err(fault) => {
            let_go(dest);
            return Err(fault);
        }
    };
    match u32_member(value, Field::Tasks) {
        Ok(tasks) => Ok(TraceLine::Job { dest, keeps, tasks }),
        Err(fault) => {
            let_go(dest);
            Err(fault)
        }
    }
}

/// Reads the line of an attempt of a job with this number of tasks, or returns its first fault.
#[tactic(auto, unfolding(crate::specs::Reading::attempt_in))]
pub fn attempt_in(tasks: Option<u32>, value: &Value) -> Result<TraceLine, TraceFault>
    ensures { Gives result (attempt_in tasks (view value.now)) }
{
    let task = task_member(tasks, value)?;
    let attempt = u32_member(value, Field::Attempt)?;
    Ok(TraceLine::Attempt { task, attempt })
}

/// Reads the line of a file, or returns its first fault.
#[tactic(auto, unfolding(crate::specs::Reading::file_in))]
pub fn file_in(alloc: Global, value: &Value) -> Result<TraceLine, TraceFault>
    ensures { Gives result (file_in (view value.now)) }
{
    let path = path_member(value)?;
    let etags = texts_member(alloc, value, Field::Etags)?;
    match Text::copied(alloc, path) {
        Ok(path) => Ok(TraceLine::File { path, etags }),
        Err(_) => {
            let_go(etags);
            Err(TraceFault::NoMemory)
        }
    }
}

/// Reads the line of an opening object, or returns its first fault.
#[tactic(auto, unfolding(crate::specs::Reading::object_in))]
pub fn object_in(alloc: Global, value: &Value) -> Result<TraceLine, TraceFault>
    ensures { Gives result (object_in (view value.now)) }
{
    let bucket = str_member(value, Field::Bucket)?;
    let key = str_member(value, Field::Key)?;
    let etags = texts_member(alloc, value, Field::Etags)?;
    match both(Text::copied(alloc, bucket), Text::copied(alloc, key)) {
        Ok((bucket, key)) => Ok(TraceLine::Object { bucket, key, etags }),
        Err(_) => {
            let_go(etags);
            Err(TraceFault::NoMemory)
        }
    }
}
