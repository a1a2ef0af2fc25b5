//! Every run of a job is sound for readers, in the terms of `soundness`, which knows no committer.
//!
//! # What is proved
//!
//! `runs`: every run of a legal script in which only the job's own actors send is sound for
//! readers, at each point between two events.
//!
//! - It holds for every committer, mode and number of lanes, with lost requests and replies,
//!   retries, several attempts of a task, kills, mixes and restarts.
//! - One attempt per task explains all that readers see. At each moment they see only opening
//!   files, or opening files and whole files of these attempts. While the success marker of this
//!   run exists, they see all files of these attempts.
//! - Once the commit has chosen one attempt per task, and no two of these write one path, these are
//!   the chosen ones.
#![tactic(auto)]

ghost use Rattle.job_soundness.specs.Safe.{RunsAreSafe};

/// Every run of a job is sound for readers.
pub fn runs()
    ensures safe { RunsAreSafe }
{}
