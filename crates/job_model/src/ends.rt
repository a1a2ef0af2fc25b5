ghost use Rattle.std.specs.Prelude.{Some};
ghost use Rattle.job_model.specs.Words.{setup_text, check_text, task_text, part_word, commit_text, clean_text, outcome_text, fault_word};

use s3_types::{Actor, Sequence, Text};
use std::fmt;

/// How a job's set-up ended.
#[derive(Drop)]
pub enum SetupEnd {
    Done,
    /// The conflict mode is fail, and readers see files at the destination. The least of their
    /// paths.
    Conflict(Text),
    /// An object exists at the destination's own key.
    DestIsFile,
    NoSuchBucket,
    /// A request ran out of retries.
    StoreFault,
    NoMemory,
}

impl fmt::Display for SetupEnd {
    ghost output = { λ end. Some (setup_text end) };

    fn fmt<W: fmt::Write>(&self, f: &mut fmt::Formatter<W>) -> fmt::Result {
        match self {
            SetupEnd::Done => f.write_str("done"),
            SetupEnd::Conflict(path) => {
                let path = path.as_str();
                write!(f, "conflict {path}")
            }
            SetupEnd::DestIsFile => f.write_str("dest-is-file"),
            SetupEnd::NoSuchBucket => f.write_str("no-such-bucket"),
            SetupEnd::StoreFault => f.write_str("store-fault"),
            SetupEnd::NoMemory => f.write_str("no-memory"),
        }
    }
}

/// How the second conflict check ended. It runs before the commit of a job whose destination is
/// shared with another job.
#[derive(Drop)]
pub enum CheckEnd {
    /// No file is in the way, and the commit goes on.
    Clear,
    /// Readers see a file at this path of the destination, or a key exists below this partition.
    Conflict(Text),
    /// A request ran out of retries.
    StoreFault,
    NoMemory,
}

impl fmt::Display for CheckEnd {
    ghost output = { λ end. Some (check_text end) };

    fn fmt<W: fmt::Write>(&self, f: &mut fmt::Formatter<W>) -> fmt::Result {
        match self {
            CheckEnd::Clear => f.write_str("clear"),
            CheckEnd::Conflict(path) => {
                let path = path.as_str();
                write!(f, "conflict {path}")
            }
            CheckEnd::StoreFault => f.write_str("store-fault"),
            CheckEnd::NoMemory => f.write_str("no-memory"),
        }
    }
}

/// How an operation of a task attempt ended.
#[derive(Drop)]
pub enum TaskEnd {
    Done,
    /// The conflict mode is fail, and a file exists in this partition. Only a commit ends so.
    Conflict(Text),
    /// The attempt has sent its publishing request, and keeps its uploads. Only an abort ends so.
    Kept,
    /// The attempt's own upload, record or temporary file with this name does not exist.
    Gone(Text),
    /// A request ran out of retries.
    StoreFault,
    NoMemory,
}

impl fmt::Display for TaskEnd {
    ghost output = { λ end. Some (task_text end) };

    fn fmt<W: fmt::Write>(&self, f: &mut fmt::Formatter<W>) -> fmt::Result {
        match self {
            TaskEnd::Done => f.write_str("done"),
            TaskEnd::Conflict(partition) => {
                let partition = partition.as_str();
                write!(f, "conflict {partition}")
            }
            TaskEnd::Kept => f.write_str("kept"),
            TaskEnd::Gone(name) => {
                let name = name.as_str();
                write!(f, "gone {name}")
            }
            TaskEnd::StoreFault => f.write_str("store-fault"),
            TaskEnd::NoMemory => f.write_str("no-memory"),
        }
    }
}

/// The stage of a job's commit that a request belongs to.
#[derive(Clone, Copy, PartialEq, Eq)]
pub enum FaultStage {
    /// Reads of the tasks' sets of pending commits.
    Read,
    /// Deletion of the files that the conflict mode does not keep.
    Delete,
    /// Completions of the uploads.
    Complete,
    /// Put of `_SUCCESS`.
    Success,
}

impl fmt::Display for FaultStage {
    ghost output = { λ stage. Some (part_word stage) };

    fn fmt<W: fmt::Write>(&self, f: &mut fmt::Formatter<W>) -> fmt::Result {
        let word = match self {
            FaultStage::Read => "read",
            FaultStage::Delete => "delete",
            FaultStage::Complete => "complete",
            FaultStage::Success => "success",
        };
        f.write_str(word)
    }
}

/// How a job's commit ended.
#[derive(Drop)]
pub enum CommitEnd {
    Committed,
    /// No attempt of this task reported a successful commit. The lowest such task.
    Missing(u32),
    /// Two tasks write the same path: the least such path, with the two lowest tasks that write it.
    SamePath { path: Text, first: u32, second: u32 },
    /// A request of this stage ran out of retries.
    StoreFault(FaultStage),
    NoMemory,
}

impl fmt::Display for CommitEnd {
    ghost output = { λ end. Some (commit_text end) };

    fn fmt<W: fmt::Write>(&self, f: &mut fmt::Formatter<W>) -> fmt::Result {
        match self {
            CommitEnd::Committed => f.write_str("committed"),
            CommitEnd::Missing(task) => write!(f, "missing {task}"),
            CommitEnd::SamePath {
                path,
                first,
                second,
            } => {
                let path = path.as_str();
                write!(f, "same-path {path} {first} {second}")
            }
            CommitEnd::StoreFault(stage) => write!(f, "store-fault {stage}"),
            CommitEnd::NoMemory => f.write_str("no-memory"),
        }
    }
}

/// How a job's clean or abort ended.
#[derive(Clone, Copy, PartialEq, Eq)]
pub enum CleanEnd {
    Done,
    /// A request ran out of retries.
    StoreFault,
    NoMemory,
}

impl fmt::Display for CleanEnd {
    ghost output = { λ end. Some (clean_text end) };

    fn fmt<W: fmt::Write>(&self, f: &mut fmt::Formatter<W>) -> fmt::Result {
        let word = match self {
            CleanEnd::Done => "done",
            CleanEnd::StoreFault => "store-fault",
            CleanEnd::NoMemory => "no-memory",
        };
        f.write_str(word)
    }
}

/// How an operation ended, by the kind of operation.
#[derive(Drop)]
pub enum OpEnd {
    Setup(SetupEnd),
    /// The conflict check before a commit, which then does not go on.
    Check(CheckEnd),
    Commit(CommitEnd),
    Clean(CleanEnd),
    Task(TaskEnd),
    /// Memory ran out before the operation began.
    NoMemory,
}

impl fmt::Display for OpEnd {
    ghost output = { λ end. Some (outcome_text end) };

    fn fmt<W: fmt::Write>(&self, f: &mut fmt::Formatter<W>) -> fmt::Result {
        match self {
            OpEnd::Setup(end) => end.fmt(f),
            OpEnd::Check(end) => end.fmt(f),
            OpEnd::Commit(end) => end.fmt(f),
            OpEnd::Clean(end) => end.fmt(f),
            OpEnd::Task(end) => end.fmt(f),
            OpEnd::NoMemory => f.write_str("no-memory"),
        }
    }
}

/// How an actor's operation ended in a mix.
#[derive(Drop)]
pub struct ActorEnd {
    pub actor: Actor,
    pub end: OpEnd,
}

/// The ends of operations, in the order in which they ended.
pub type ActorEndList = Sequence<ActorEnd>;

/// Why an event was refused. The variants are in the order in which they are checked.
#[derive(Clone, Copy, PartialEq, Eq)]
pub enum EventFault {
    Dead = 1,
    Busy = 2,
    Idle = 3,
    NotSet = 4,
    WrongState = 5,
    NotDead = 6,
    NoRecovery = 7,
}

impl fmt::Display for EventFault {
    ghost output = { λ fault. Some (fault_word fault) };

    fn fmt<W: fmt::Write>(&self, f: &mut fmt::Formatter<W>) -> fmt::Result {
        let word = match self {
            EventFault::Dead => "dead",
            EventFault::Busy => "busy",
            EventFault::Idle => "idle",
            EventFault::NotSet => "not-set",
            EventFault::WrongState => "wrong-state",
            EventFault::NotDead => "not-dead",
            EventFault::NoRecovery => "no-recovery",
        };
        f.write_str(word)
    }
}

/// How an event ended.
#[derive(Drop)]
pub enum EventEnd {
    /// The event ended no operation.
    Done,
    Ended(OpEnd),
    /// The ends of the operations of a mix.
    Mixed(ActorEndList),
    /// The event was refused and changed nothing.
    Refused(EventFault),
}

/// The ends of events, in the order of the events.
pub type EndList = Sequence<EventEnd>;

/// The chosen attempt of a task: the job's commit publishes its files.
#[derive(Clone, Copy, PartialEq, Eq)]
pub struct Pick {
    pub task: u32,
    pub attempt: u32,
}

/// The chosen attempts, in the order of their tasks.
pub type PickList = Sequence<Pick>;
