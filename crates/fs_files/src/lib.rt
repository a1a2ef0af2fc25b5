//! `CreateFile` makes a file as one operation: look-ups, then its bytes by one put or the parts of
//! an upload, then the deletion of the markers above it. `operations::perform` performs it,
//! whichever requests and replies the store loses. (Hadoop FileSystem specification; Hadoop, S3A:
//! block output, directory markers.)
//!
//! # What is proved
//!
//! All this holds on a store whose least part is not longer than the block.
//!
//! - Refusals: the root and a directory are `IsDirectory`, a file that may not be replaced is
//!   `AlreadyExists`, and the first file above, from the root down, is `NotDirectory`. A refused
//!   operation changes nothing (`given` of `perform`).
//! - At `Ok` the file has exactly the bytes and no header, and the paths above it are directories.
//!   Every other file is as it was, header included (`MakesFile`). The markers above the file are
//!   gone exactly if the policy keeps none. Nothing else changed of the bucket's objects.
//! - Uploads that were begun before are as they were. Other buckets and the cluster do not change
//!   (`IsBeside`).
//! - At every point the file is as it was, or the whole new file. Only looks are sent unless the
//!   file is to be written.
//! - A file that is written is sent with exactly its bytes (`performed`). One PutObject sends it if
//!   it is shorter than a block. Otherwise part n of an upload is the n-th block, and the
//!   completion names all parts. One DeleteObjects names the markers above it that go.
//! - If each send was answered, no upload is left that the operation began (`answered`).
#![tactic(auto)]

mod create;

pub use create::{CreateFile, CreateStage, NewFile};
