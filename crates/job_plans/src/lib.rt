//! Makes the plans of a job's actors from a script: the driver's plan, and each attempt's plan with
//! its files at their paths below the destination. It also finds the partitions of the files of
//! attempts.
//!
//! # What is proved
//!
//! - `job_plan`: the plan of a script's driver. It keeps the bounds of plans.
//! - `task_plan`: the plan of the attempt at a place of the script, with its files at their paths
//!   below the destination. It keeps the bounds of plans.
//! - `unique_name`: a path made unique to a job.
//!
//! - `reported_partitions`: the directories of the files of a script's reported attempts below the
//!   destination, rising, each once.
#![tactic(auto)]

mod files;
mod names;
mod plans;
mod reported;

pub use names::unique_name;
pub use plans::{job_plan, task_plan};
pub use reported::reported_partitions;
