//! Runs the operations of a magic committer's attempt as machines: the write of its files, the
//! commit and the abort of its task. (Hadoop, S3A committer architecture.)
//!
//! # What is proved
//!
//! `WriteFiles`, `CommitTask` and `AbortTask` send the requests that the definitions of a magic
//! attempt's write, commit and abort name, go on as these say after every reply that fits, and end
//! as they say.
//!
//! - A write creates each file's upload in the script's order and sends its parts. Then it puts the
//!   marker with the file's length, and the record with the parts' sizes.
//! - A commit lists its own directory page by page, reads each file's record in the order of the
//!   listing, and puts the set. Gone names the least record that is not listed, or the one that a
//!   read does not find.
//! - An abort of an attempt that has sent its publishing request ends with Kept and sends nothing.
//!   Any other abort aborts the attempt's uploads, oldest first, and empties its directory.
//! - `writes_end`, `commits_end` and `aborts_end`: the bound on the requests left falls with each
//!   reply that fits and with each request that exhausts its retries. Another actor's request never
//!   raises a write's bound, and raises a commit's or an abort's by at most 1.
//!
//! Left open: what they do after other replies.
#![tactic(auto)]

mod committing;
mod listing;
mod stepping;
mod undoing;
mod write;

pub use committing::{CommitTask, Committing};
pub use task_requests::WriteStage;
pub use undoing::{AbortTask, Undoing};
pub use write::{WriteFiles, Writing};
