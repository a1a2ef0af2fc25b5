//! How the objects of a bucket form a tree of files and directories. Its `specs/` say what each
//! file operation answers, and what it leaves of the tree. Beside them are a law on listings, and
//! the plain data that operations answer. (Hadoop FileSystem specification; Hadoop, S3A: directory
//! markers.)
//!
//! # What is proved
//!
//! `listings`: if every object has a valid key, each entry of a listing is a child (`list`).
#![tactic(auto)]

ghost use Rattle.fs_tree.specs.Changes.{ListChildren};

mod answers;
mod copy;
mod markers;
mod rename;

pub use answers::{DirEntry, DirList, FsRefusal};
pub use copy::{CopyCount, CopyRefusal};
pub use markers::{MarkerEntry, MarkerKind, MarkerList};
pub use rename::RenameRefusal;

/// What a listing shows.
pub fn listings()
    ensures list { ListChildren }
{}
