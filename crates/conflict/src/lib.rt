//! What a job's conflict mode checks, keeps and deletes at its destination. (Hadoop, S3A
//! committers: fs.s3a.committer.staging.conflict-mode.)
//!
//! - the partitions of files, and whether a path stays;
//! - the look for a key below a partition;
//! - the check before the commit of a job at a shared destination;
//! - the deletion of what does not stay.
//!
//! # What is proved
//!
//! - `partitions`: the partitions of files are their directories below the destination, in the
//!   order of their bytes, each once.
//! - `keeps` is true exactly if a job's mode lets a path of the opening files stay.
//! - `CheckAbsent` asks for one key below each partition, in their order, and ends with the first
//!   partition that has one.
//! - `DeleteKept` deletes, page by page and in batches, all keys below the destination or below
//!   each partition, as a replace mode is defined. Keys of the magic directory stay.
//! - `Recheck`: for every committer and mode the check before a commit asks, goes on and ends
//!   exactly as `job_protocol` defines it, for every list of replies that fit. They fit if the
//!   bucket exists and a page of the destination lists keys only. After memory runs out it sends
//!   nothing more, and ends with NoMemory.
//! - The bound on the requests that it has left falls with each reply and each request that
//!   exhausts its retries. Another actor's request raises it by at most 1 (`checks_end`).
//!
//! Left open: what they do after other replies.
#![tactic(auto)]

mod absent;
mod check_plan;
mod check_state;
mod dirs;
mod displacing;
mod keeping;
mod kept;
mod laws;
mod rechecking;

pub use absent::CheckAbsent;
pub use check_plan::CheckPlan;
pub use dirs::partitions;
pub use displacing::checks_partitions;
pub use keeping::keeps;
pub use kept::DeleteKept;
pub use laws::{checks_end, checks_tell, deletions_tell, partitions_tell};
pub use rechecking::{Recheck, Rechecking};
