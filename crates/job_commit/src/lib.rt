//! The commit of a job as a machine, for every committer. It reads the sets of the job's tasks,
//! deletes what the job's mode does not keep, completes the uploads in lanes, and puts the marker
//! of a committed job. If a completion exhausts its retries, it reverts. (Hadoop, S3A committer
//! architecture: job setup, job commit.)
//!
//! # What is proved
//!
//! `CommitJob` receives the outcome of each send and counts the sends of its requests itself, in
//! each lane. It asks, goes on and ends exactly as `job_protocol` defines a commit, for every list
//! of outcomes that fit:
//!
//! - Missing ends it at once.
//! - Else it reads each task's set, once, and keeps it. SamePath ends it after the last read.
//! - If the mode is replace, it deletes what does not stay.
//! - It completes the uploads in lanes, or reverts in the defined order, and puts the marker.
//! - `take` returns what the outcome means, and `picks` the attempts of the sets that were read.
//! - After memory runs out it sends nothing more, its end is NoMemory, and its chosen attempts are
//!   unchanged.
//!
//! Left open: what it does after outcomes that do not fit.
#![tactic(auto)]

mod basis;
mod commit;
mod hearing;
mod stages;
mod step;

pub use commit::CommitJob;
pub use commit_lanes::{ends_by_entries, falls};
pub use job_setup::SetupJob;
