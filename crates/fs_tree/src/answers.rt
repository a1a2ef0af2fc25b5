use dir_markers::Status;
use s3_types::{Sequence, Text};

/// Why a file operation is refused. A refused operation changes nothing.
#[derive(Drop)]
pub enum FsRefusal {
    /// Nothing is at the path.
    NotFound,
    /// A file is at the path.
    AlreadyExists,
    /// A directory is at the path.
    IsDirectory,
    /// A path above this one is a file: the key of the first such path, from the root down.
    NotDirectory(Text),
    /// Something is below the directory.
    NotEmpty,
    /// The path is the root of a bucket.
    IsRoot,
    /// There is no bucket of this name.
    NoSuchBucket,
}

/// A child of a directory, or a file by itself: its last element and its status.
#[derive(Drop)]
pub struct DirEntry {
    pub name: Text,
    pub status: Status,
}

/// The entries of a directory, in order.
pub type DirList = Sequence<DirEntry>;
