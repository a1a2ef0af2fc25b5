use crate::attempts::Attempts;
use crate::events::EventList;
use path_keys::S3Path;
use s3_types::{Committer, Fates, Mode, Text};
use std::marker::Model;

/// A job script: the job's head, its attempts with their files, and the events of its run. It keeps
/// the bounds of `IsLegal`: on its numbers, names and paths, and that each event belongs to the
/// driver or to a declared attempt.
#[derive(Drop)]
pub struct Script {
    /// The job's id.
    pub job: Text,
    /// The destination.
    pub dest: S3Path,
    pub committer: Committer,
    pub mode: Mode,
    /// True if the job's id is put into the names of the files.
    pub unique: bool,
    /// The number of tasks.
    pub tasks: u32,
    /// How often a request without an answer is sent again, 0 to 9.
    pub retries: u32,
    /// The size in bytes of an upload's parts; 0 means the store's minimum.
    pub block: u64,
    /// The number of lanes in which the job's commit completes its uploads, 1 to 8.
    pub lanes: u32,
    /// A number that `_SUCCESS` repeats.
    pub stamp: Option<u64>,
    /// The fates of the sends of the run: lost or slow, by their numbers from 1 on.
    pub fates: Fates,
    pub attempts: Attempts,
    pub events: EventList,
}

impl Model for Script {
    ghost use Rattle.job_model.specs.JobScript.{Script};
    ghost use Rattle.job_model.specs.Codes.{coded_script};
    ghost use Rattle.job_model.specs.Legal.{IsLegal};

    ghost Value = { Script };

    ghost coded = { coded_script };

    ghost view = { λ s. record {
      job = s.job;
      dest = s.dest;
      committer = s.committer;
      mode = s.mode;
      unique = s.unique;
      tasks = s.tasks;
      retries = s.retries;
      block = s.block;
      lanes = s.lanes;
      stamp = s.stamp;
      fates = s.fates;
      attempts = s.attempts;
      events = s.events;
    } };

    ghost invariant = { λ s. IsLegal (record {
      job = s.job;
      dest = s.dest;
      committer = s.committer;
      mode = s.mode;
      unique = s.unique;
      tasks = s.tasks;
      retries = s.retries;
      block = s.block;
      lanes = s.lanes;
      stamp = s.stamp;
      fates = s.fates;
      attempts = s.attempts;
      events = s.events;
    }) };
}
