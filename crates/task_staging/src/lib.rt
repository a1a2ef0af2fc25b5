//! Runs the operations of a staging committer's attempt as machines, for the directory and the
//! partitioned committer: the write of its files, the commit and the abort of its task. (Hadoop,
//! S3A committer architecture: the staging committers.)
//!
//! # What is proved
//!
//! `WriteFiles`, `CommitTask` and `AbortTask` send the requests that the definitions of a staging
//! attempt's write, commit and abort name, go on as these say after every reply that fits, and end
//! as they say.
//!
//! - A write sends nothing.
//! - A commit first looks below each partition that it writes, if its job requires that. Conflict
//!   names the first partition that has a key.
//! - Then it uploads each file in the script's order, puts the set of these uploads into the
//!   attempt's temporary file in the cluster's file system, and renames that file to the task's
//!   set.
//! - A repeated rename that finds nothing counts as done. Gone names the upload or the temporary
//!   file that did not exist.
//! - An abort that does not end with Kept aborts the attempt's uploads, oldest first. It then
//!   deletes the temporary file if the attempt sent the put of it.
//!
//! Left open: what they do after other replies.
#![tactic(auto)]

mod opening;
mod requests;
mod staging;
mod undoing;
mod write;

pub use staging::{CommitTask, Staging};
pub use undoing::{AbortTask, Undoing};
pub use write::{Keeping, WriteFiles};
