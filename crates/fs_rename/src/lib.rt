//! `Rename` renames a file or a directory. It copies the keys of the source to the new place and
//! then deletes them. Wherever it stops, and whatever the store loses, each file is whole at its
//! old or at its new place. `Base`, `Copying` and `perform_between` are what other operations that
//! name two paths share with it. (Hadoop FileSystem specification, rename; Hadoop, S3A: renaming.)
//!
//! # What is proved
//!
//! `Base`, `Copying`: the new key of a key at another place, and the first of many keys whose new
//! key would be over its limit. Keys are copied one by one in their order. At every point the first
//! ones are at both places, and all else is as it was (`IsCopying`).
//!
//! `perform_between`: an operation that names two paths does what it does in one bucket. If they
//! are in two buckets, it is refused and sends nothing. It sends at most `retries + 1` requests for
//! each stage that the operation may reach, and for one more (`few`).
//!
//! `Rename`:
//!
//! - It is refused, with nothing changed, by the first that applies: `OtherBucket`, with nothing
//!   sent, `NoSuchBucket`, `SourceRoot`, `SourceMissing`, `UnderSource`, `TargetFile`,
//!   `TargetExists`, `ParentIsFile`, `ParentMissing`, `TooLong` with the first key that would be
//!   over its limit.
//! - At `Ok` the file, or the directory with all below it, is at the new place with the same bytes
//!   and headers, and no longer at the old one. Every other file and directory is as it was. The
//!   marker of the directory above the source is put exactly if that is left empty and is not the
//!   root (`renames`).
//! - At every point each file of the source is whole at its old or its new place. They come to the
//!   new place in the order of their keys, and none is deleted before all are there. Every other
//!   file is as it was, header included. So is every other marker, except that the one above the
//!   source is put if there was none.
//! - It sends only looks, and, if the source may be moved, copies of its keys to their new keys,
//!   the deletion of its keys in batches, and the put of that marker (`performed`).
//! - It sends at most `retries + 1` times as many requests as `most_moves` gives: thirteen, and
//!   four for each key below the source (`few`).
#![tactic(auto)]

mod base;
mod between;
mod copying;
mod names;
mod rename;
mod stages;

pub use base::Base;
pub use between::perform_between;
pub use copying::{CopyStep, Copying};
pub use rename::{Rename, RenameEnd};
