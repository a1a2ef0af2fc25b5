ghost use Rattle.std.specs.Prelude.{◌≡◌, [], OnOk, OnErr};
ghost use Rattle.std.specs.Ordering.{nat_cmp};
ghost use Rattle.std.specs.BTreeSet.{insert_key};
ghost use Rattle.job_model.specs.Jobs.{has_task};

use crate::files::FileList;
use crate::known::Knowledge;
use path_keys::S3Path;
use s3_types::{Committer, Mode, Text};
use std::alloc::{AllocError, Global};
use std::collections::BTreeSet;
use std::marker::Model;

/// What a job's driver and attempts know of the job. It keeps these bounds of a script:
///
/// - the job's id has 1 to 64 letters, digits, `_` and `-`
/// - the destination's key has 1 to 400 bytes, no CR at its end, and no element `__magic` or
///   `__base`
/// - with the committer `magic` the conflict mode is `append`
/// - it has at most 1,000 tasks
/// - a request without an answer is sent again up to 9 times
/// - the uploads are completed in 1 to 8 lanes
/// - the stamp is below 10^18
#[derive(Drop)]
pub struct JobPlan {
    pub job: Text,
    pub dest: S3Path,
    pub committer: Committer,
    pub mode: Mode,
    pub tasks: u32,
    pub retries: u32,
    pub lanes: u32,
    pub stamp: Option<u64>,
}

impl Model for JobPlan {
    ghost use Rattle.job_model.specs.Jobs.{Job};
    ghost use Rattle.job_model.specs.Plans.{IsJob};

    ghost Value = { Job };

    ghost view = { λ p. record {
      job = p.job;
      dest = p.dest;
      committer = p.committer;
      mode = p.mode;
      tasks = p.tasks;
      retries = p.retries;
      lanes = p.lanes;
      stamp = p.stamp;
    } };

    ghost invariant = { λ p. IsJob (record {
      job = p.job;
      dest = p.dest;
      committer = p.committer;
      mode = p.mode;
      tasks = p.tasks;
      retries = p.retries;
      lanes = p.lanes;
      stamp = p.stamp;
    }) };
}

/// What an attempt knows and has done: its job, its task's number and its own, its files, the sizes
/// in bytes by which files are cut into parts, and what it knows from its own requests. `block` is
/// the script's size of a part, at most 67,108,864; 0 means none. `minimum` is the store's minimum
/// size of a part, 1 to 5,242,880. `task` is below the job's number of tasks, and `attempt` is at
/// most 99. There are at most 20,000 files with 67,108,864 bytes together. Each path is one that a
/// script may give, or such a path made unique to the job, and occurs once.
#[derive(Drop)]
pub struct TaskPlan {
    pub job: JobPlan,
    pub task: u32,
    pub attempt: u32,
    pub files: FileList,
    pub block: u64,
    pub minimum: u64,
    pub known: Knowledge,
}

impl Model for TaskPlan {
    ghost use Rattle.job_model.specs.Jobs.{Task};
    ghost use Rattle.job_model.specs.Plans.{IsTask};

    ghost Value = { Task };

    ghost view = { λ p. record {
      job = p.job;
      task = p.task;
      attempt = p.attempt;
      files = p.files;
      block = p.block;
      minimum = p.minimum;
      known = p.known;
    } };

    ghost invariant = { λ p. IsTask (record {
      job = p.job;
      task = p.task;
      attempt = p.attempt;
      files = p.files;
      block = p.block;
      minimum = p.minimum;
      known = p.known;
    }) };
}

/// A set of task numbers, in rising order.
#[derive(Drop)]
pub struct TaskSet {
    held: BTreeSet<u32>,
}

impl Model for TaskSet {
    ghost use Rattle.std.specs.Prelude.{ℕ, List};

    ghost Value = { List ℕ };

    ghost view = { λ s. s.held.keys };
}

impl TaskSet {
    /// An empty set. Takes no memory.
    pub fn new(alloc: Global) -> TaskSet
        ensures { result ≡ [] }
    {
        TaskSet {
            held: BTreeSet::new(alloc),
        }
    }

    /// True if the task is in the set. Takes no memory.
    pub fn has(&self, task: u32) -> bool
        ensures { result ≡ has_task self.now task }
    {
        self.held.contains(&task)
    }

    /// Adds a task. Changes nothing if it is in the set already. If memory runs out, the set stays
    /// as it
    /// was.
    pub fn add(&mut self, task: u32) -> Result<(), AllocError>
        ensures ok { OnOk result (self.new ≡ insert_key nat_cmp self.old task) }
        ensures err { OnErr result (self.new ≡ self.old) }
    {
        self.held.insert(task)?;
        Ok(())
    }
}
