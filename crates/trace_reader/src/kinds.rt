ghost use Rattle.std.specs.Prelude.{◌≡◌};
ghost use Rattle.serde_json.specs.View.{view};
ghost use Rattle.path_keys.specs.Paths.{path_in};
ghost use Rattle.trace_reader.specs.declared.fault.Field.TheVariants as field;
ghost use Rattle.trace_reader.specs.Faults.{Gives};
ghost use Rattle.trace_reader.specs.inner.Faults.{GivesBy};
ghost use Rattle.trace_reader.specs.Reading.{as_dest, as_file_path, as_keeps, as_task, below_bucket, keeps_of, member, of_kind};

use crate::fault::{Field, TraceFault};
use crate::fields::{str_member, u32_member};
use crate::paths::is_file_path;
use path_keys::{PathFault, S3Path};
use s3_types::{Text, let_go};
use serde_json::Value;
use soundness::Keeps;
use std::alloc::Global;

/// Returns the destination that a text names. It must have a key.
fn dest_of(alloc: Global, text: &str) -> Result<S3Path, TraceFault>
    ensures { Gives result (of_kind field.Dest (below_bucket (path_in text.now))) }
{
    let path = match S3Path::read(alloc, text) {
        Ok(path) => path,
        Err(PathFault::NoMemory) => return Err(TraceFault::NoMemory),
        Err(_) => return Err(TraceFault::WrongKind(Field::Dest)),
    };
    if path.is_root() {
        let_go(path);
        return Err(TraceFault::WrongKind(Field::Dest));
    }
    Ok(path)
}

/// Returns the job's destination.
pub fn dest_member(alloc: Global, value: &Value) -> Result<S3Path, TraceFault>
    ensures { Gives result (member as_dest field.Dest (view value.now)) }
{
    let text = str_member(value, Field::Dest)?;
    dest_of(alloc, text)
}

fn keeps_of(word: &str) -> Option<Keeps>
    ensures { result ≡ keeps_of word.now }
{
    match word {
        "all" => Some(Keeps::Everything),
        "none" => Some(Keeps::Nothing),
        "partitions" => Some(Keeps::Partitions),
        _ => None,
    }
}

/// Returns which opening files the job keeps.
pub fn keeps_member(value: &Value) -> Result<Keeps, TraceFault>
    ensures { Gives result (member as_keeps field.Keeps (view value.now)) }
{
    let word = str_member(value, Field::Keeps)?;
    match keeps_of(word) {
        Some(keeps) => Ok(keeps),
        None => Err(TraceFault::WrongKind(Field::Keeps)),
    }
}

/// Returns a task's number, which is below the job's number of tasks.
pub fn task_member(tasks: Option<u32>, value: &Value) -> Result<u32, TraceFault>
    ensures { Gives result (member (as_task tasks) field.Task (view value.now)) }
{
    let task = u32_member(value, Field::Task)?;
    let Some(tasks) = tasks else {
        return Err(TraceFault::WrongKind(Field::Task));
    };
    if task < tasks {
        Ok(task)
    } else {
        Err(TraceFault::WrongKind(Field::Task))
    }
}

/// Returns a file's path below the destination, borrowed from the line.
pub fn path_member(value: &Value) -> Result<&str, TraceFault>
    ensures { GivesBy (λ path. path.now) result (member as_file_path field.Path (view value.now)) }
{
    let path = str_member(value, Field::Path)?;
    if is_file_path(path.as_bytes()) {
        Ok(path)
    } else {
        Err(TraceFault::WrongKind(Field::Path))
    }
}
