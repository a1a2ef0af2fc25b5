//! Makes large job scripts from a number, without any input, and the line that sums up the run of
//! such a job.
//!
//! # What is proved
//!
//! - `make_script`: It returns exactly the script that `made_script` defines for a seed and the
//!   numbers of tasks and of files (`exact`). The script is legal, and has the magic committer.
//!   Left open: more than 200 tasks, or more than 50 files of each.
//! - `summary_text`: It returns exactly the line that `summary` defines for the numbers of tasks
//!   and files, the status, the number of sends, the chosen attempts, the ends and the script. Left
//!   open: where that status is not the verdict of the ends.
#![tactic(auto)]

mod attempts;
mod counting;
mod events;
mod files;
mod numbers;
mod script;
mod summary;

pub use script::make_script;
pub use summary::summary_text;
