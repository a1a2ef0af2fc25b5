//! The claim of a trace: the attempts of each task and their files, each with the tags of its
//! parts.
//!
//! # What is proved
//!
//! - `Claims`: attempts and files are listed one after the other. It does not add an attempt that
//!   is listed already, a path that the attempt has already, or a path that an attempt of another
//!   task has. `owner` returns the task whose attempts write a path, and `missing` the first task
//!   that has no attempt.
//! - `Directories`: a path is reached exactly if it is below a directory that some attempt writes
//!   into. It is always reached exactly if it is below one that every attempt of some task writes
//!   into.
//! - `Etags`: two are equal exactly if they have the same tags in the same order.
//! - `TagFiles`, `Attempts`, `PathTags`: a value that is added or put is found again, in the order
//!   of adding or in that of the paths.
//! - After an error all is unchanged.
//!
//! Left open: that an error comes only if memory runs out, and that `missing` checks at most one
//! number more than there are listed tasks.
#![tactic(auto)]

mod attempts;
mod claims;
mod dir_set;
mod directories;
mod etags;
mod files;
mod path_tags;
#[cfg(test)]
mod tests;

pub use attempts::Attempts;
pub use claims::{Claims, FileFit};
pub use directories::Directories;
pub use etags::Etags;
pub use files::TagFiles;
pub use path_tags::PathTags;
