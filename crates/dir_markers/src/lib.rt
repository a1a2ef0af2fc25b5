//! Directory markers: whether a path is a file or a directory, which markers must be deleted after
//! a file was made, and which must be put after something was deleted. (Hadoop, S3A: directory
//! markers.)
//!
//! # What is proved
//!
//! - `status_of`: says whether a path is a file or a directory, from what was found at it and
//!   below it.
//! - `marker_key`, `markers_above`, `after_create`, `after_delete`: return exactly the markers
//!   that their definitions say. Those above a file come from the root on.
#![tactic(auto)]

mod marker;
mod status;

pub use marker::{MarkerPolicy, after_create, after_delete, marker_key, markers_above};
pub use status::{Status, status_of};
