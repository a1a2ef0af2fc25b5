//! Paths `s3a://BUCKET/KEY` of files and directories in a bucket.
//!
//! # What is proved
//!
//! `S3Path`: `read`, `join`, `parent` and `relative` return what their definitions say. If a text
//! has several faults, they report the first in the order of the checks.
#![tactic(auto)]

mod elements;
mod fault;
mod path;
mod relatives;
mod split;

pub use fault::PathFault;
pub use path::S3Path;
pub use split::first_element;
