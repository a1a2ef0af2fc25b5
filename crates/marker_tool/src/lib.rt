//! The marker tool on the directory at a path. `AuditMarkers` lists the markers there,
//! `CleanMarkers` deletes the surplus ones, and `FillMarkers` puts the missing ones. A marker is
//! surplus if it has no bytes and other keys begin with it. `bucket_ops::perform_in` performs one
//! of them, whichever requests and replies the store loses. (Hadoop, S3A: directory markers, the
//! marker tool.)
//!
//! # What is proved
//!
//! What `perform_in` answers for each is `given`, with `performed` and `fault` as `bucket_ops` has
//! them. Each is refused, with nothing changed, with `NoSuchBucket`, with `NotDirectory` and the
//! path's key if a file exists there, and with `NotFound` if nothing does.
//!
//! - `AuditMarkers` returns exactly the markers of the directory and of those below it, each as
//!   surplus, leaf or odd, in the order of their keys. It changes nothing and only looks.
//! - `CleanMarkers` deletes exactly the surplus ones and returns their number. Every other key is
//!   as it was, and no surplus marker is left. It deletes nothing else, and sends no empty batch
//!   (`sends`).
//! - `FillMarkers` puts exactly the missing ones and returns their number. Every other key is as it
//!   was, and no marker is missing. It puts nothing else (`sends`).
//! - During both, at every point, the tree of files and directories is the same. Every key is as it
//!   was, or is such a marker and is gone, or was put.
//!
//! The look, the walk and the changes are one operation, `MarkerTool`, for any `TreePass`, which
//! says what is done below the path.
#![tactic(auto)]

mod listed;
mod tool;
mod tree_pass;
mod works;

pub use tool::{MarkerTool, ToolStage};
pub use tree_pass::{Found, TreePass};
pub use works::{Audit, AuditMarkers, Clean, CleanMarkers, Fill, FillMarkers};
