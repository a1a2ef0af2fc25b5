ghost use Rattle.std.specs.Prelude.{◌≡◌, IfOk, OnErr, true};
ghost use Rattle.job_model.specs.declared.ends.OpEnd.TheVariants as ends;
ghost use Rattle.job_actor.specs.Acts.{names_path};

use job_model::{CheckEnd, CommitEnd, SetupEnd, TaskEnd};
use std::alloc::AllocError;

/// Returns a copy of the end of a set-up. A path in it is shared, and an error comes only if there
/// is one.
pub fn setup_end(end: &SetupEnd) -> Result<SetupEnd, AllocError>
    ensures ok { IfOk result (λ copy. copy ≡ end.now) }
    ensures err { OnErr result (names_path (ends.Setup end.now) ≡ true) }
{
    match end {
        SetupEnd::Done => Ok(SetupEnd::Done),
        SetupEnd::Conflict(path) => Ok(SetupEnd::Conflict(path.clone()?)),
        SetupEnd::DestIsFile => Ok(SetupEnd::DestIsFile),
        SetupEnd::NoSuchBucket => Ok(SetupEnd::NoSuchBucket),
        SetupEnd::StoreFault => Ok(SetupEnd::StoreFault),
        SetupEnd::NoMemory => Ok(SetupEnd::NoMemory),
    }
}

/// Returns a copy of the end of an attempt's operation. A path in it is shared, and an error comes
/// only if there is one.
pub fn task_end(end: &TaskEnd) -> Result<TaskEnd, AllocError>
    ensures ok { IfOk result (λ copy. copy ≡ end.now) }
    ensures err { OnErr result (names_path (ends.Task end.now) ≡ true) }
{
    match end {
        TaskEnd::Done => Ok(TaskEnd::Done),
        TaskEnd::Conflict(partition) => Ok(TaskEnd::Conflict(partition.clone()?)),
        TaskEnd::Kept => Ok(TaskEnd::Kept),
        TaskEnd::Gone(name) => Ok(TaskEnd::Gone(name.clone()?)),
        TaskEnd::StoreFault => Ok(TaskEnd::StoreFault),
        TaskEnd::NoMemory => Ok(TaskEnd::NoMemory),
    }
}

/// Returns a copy of the end of a job's commit. A path in it is shared, and an error comes only if
/// there is one.
pub fn commit_end(end: &CommitEnd) -> Result<CommitEnd, AllocError>
    ensures ok { IfOk result (λ copy. copy ≡ end.now) }
    ensures err { OnErr result (names_path (ends.Commit end.now) ≡ true) }
{
    match end {
        CommitEnd::Committed => Ok(CommitEnd::Committed),
        CommitEnd::Missing(task) => Ok(CommitEnd::Missing(*task)),
        CommitEnd::SamePath {
            path,
            first,
            second,
        } => Ok(CommitEnd::SamePath {
            path: path.clone()?,
            first: *first,
            second: *second,
        }),
        CommitEnd::StoreFault(stage) => Ok(CommitEnd::StoreFault(*stage)),
        CommitEnd::NoMemory => Ok(CommitEnd::NoMemory),
    }
}

/// Returns a copy of the end of a check before a job's commit. A path in it is shared, and an error
/// comes only if there is one.
pub fn check_end(end: &CheckEnd) -> Result<CheckEnd, AllocError>
    ensures ok { IfOk result (λ copy. copy ≡ end.now) }
    ensures err { OnErr result (names_path (ends.Check end.now) ≡ true) }
{
    match end {
        CheckEnd::Clear => Ok(CheckEnd::Clear),
        CheckEnd::Conflict(path) => Ok(CheckEnd::Conflict(path.clone()?)),
        CheckEnd::StoreFault => Ok(CheckEnd::StoreFault),
        CheckEnd::NoMemory => Ok(CheckEnd::NoMemory),
    }
}
