use crate::pending::PendingUpload;
use s3_types::{Committer, Sequence, Text, TextList};

/// A list of pending uploads.
pub type PendingList = Sequence<PendingUpload>;

/// The set that a committed task leaves for its job's commit: the job's id, the task, its attempt,
/// and its pending uploads.
#[derive(Drop)]
pub struct PendingSet {
    pub job: Text,
    pub task: u32,
    pub attempt: u32,
    pub commits: PendingList,
}

/// The contents of `_SUCCESS`: the job's id, its committer, the paths of its files below the
/// destination, and the job's stamp if it has one.
#[derive(Drop)]
pub struct SuccessMark {
    pub job: Text,
    pub committer: Committer,
    pub files: TextList,
    pub stamp: Option<u64>,
}
