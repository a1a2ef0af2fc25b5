//! The operations of a file system on one bucket: `Stat`, `ReadFile`, `ListDir`, `MakeDirs` and
//! `DeletePath`. Each takes a path and goes through stages, with one request a stage.
//! `bucket_ops::perform_in` performs one of them, whichever requests and replies the store loses.
//! (Hadoop FileSystem specification; Hadoop, S3A: directory markers.)
//!
//! # What is proved
//!
//! What `perform_in` answers for each is stated on the tree of the bucket's objects (`given`), with
//! `performed` and `fault` as `bucket_ops` has them. A refused operation changes nothing, and
//! `NoSuchBucket` comes before all other refusals.
//!
//! - `Stat` answers the status of a path, and `NotFound` exactly if nothing exists there.
//! - `ReadFile` answers the bytes of a file, else `IsDirectory` or `NotFound`.
//! - `ListDir` answers what a directory holds, each child once, as a file if it is one, in the
//!   order of their names with a `/` after a directory's. The directory's own marker is no child.
//!   For a file the answer is its own entry, else `NotFound`.
//! - `MakeDirs` makes the path and the paths above it directories, makes no other, and leaves every
//!   file unchanged. It puts the marker exactly if nothing exists at the path, and changes nothing
//!   else. It answers `AlreadyExists` if a file exists there, and `NotDirectory` with the first
//!   file above.
//! - `DeletePath` answers `IsRoot`, `NotFound`, or `NotEmpty`, the last exactly if the deletion is
//!   not recursive and anything but the marker exists below a directory. Otherwise it removes the
//!   file, or the directory with all below it, and leaves all else unchanged. It puts the marker of
//!   the directory above exactly if that is left empty and is not the root.
//! - During `DeletePath`, at every point each key is as it was, or belongs to the path and is gone,
//!   or is that marker, put only if nothing was there.
//! - `Stat`, `ReadFile` and `ListDir` only look. `MakeDirs` puts its marker only if it must.
//!   `DeletePath` looks; if there is something to delete, it deletes the file, the marker of an
//!   empty directory, or keys below the directory in batches, and puts the marker above (`sends`).
#![tactic(auto)]

mod above;
mod at_path;
mod climb;
mod delete;
mod list;
mod make_dirs;
mod place;
mod read;
mod stat;

pub use above::keys_above;
pub use at_path::PathStage;
pub use climb::{Climb, Climbed};
pub use delete::{DeletePath, marker_above};
pub use list::{ListDir, last_element, rest_of};
pub use make_dirs::MakeDirs;
pub use place::{Place, first_key, look_at_bucket, put_empty};
pub use read::ReadFile;
pub use stat::Stat;
