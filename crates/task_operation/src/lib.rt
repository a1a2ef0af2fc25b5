//! Runs the operations of a task attempt as machines, whichever committer the job has. The laws of
//! each operation are written once here; a committer adds what it keeps besides the attempt's plan.
//!
//! # What is proved
//!
//! - `writes_end`, `commits_end` and `aborts_end` hold for every committer. They name the replies
//!   that fit an operation, and a bound on the requests that it has left. The bound falls with each
//!   reply that fits and with each request that exhausts its retries. A request of another actor
//!   raises it by at most 1.
//! - `TaskMachine` asks, goes on and ends as the definitions of the operation say, if what its
//!   committer keeps does so (`TaskState`).
//! - `ByCommitter` keeps this too: it uses one of two committers, by the plan's job.
#![tactic(auto)]

mod at_work;
mod by_committer;
mod laws;
mod operation;
mod task_state;

pub use at_work::{AtWork, TaskMachine};
pub use by_committer::ByCommitter;
pub use laws::{aborts_end, commits_end, writes_end};
pub use operation::{TaskOperation, TheAbort, TheCommit, TheWrite};
pub use task_state::TaskState;
