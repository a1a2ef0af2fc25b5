use path_keys::S3Path;
use s3_types::{Text, TextList};
use soundness::Keeps;

/// The contents of a line of a trace, as far as an audit needs them.
#[derive(Drop)]
pub enum TraceLine {
    /// `Job`: the destination, which opening files the job keeps, and how many tasks it has.
    Job {
        dest: S3Path,
        keeps: Keeps,
        tasks: u32,
    },
    /// `Attempt`: an attempt of a task; the files that follow are its own.
    Attempt {
        task: u32,
        attempt: u32,
    },
    /// `File`: a file of the attempt, by its path below the destination and the tags of its parts.
    File {
        path: Text,
        etags: TextList,
    },
    /// `Object`: an object that existed when the run began.
    Object {
        bucket: Text,
        key: Text,
        etags: TextList,
    },
    /// `Commit`: the job's commit begins.
    Commit,
    /// `PutObject` or `CompleteMultipartUpload`, which took effect: the object at this key has these tags now.
    Put {
        bucket: Text,
        key: Text,
        etags: TextList,
    },
    /// `CopyObject`, which took effect: the object at this key has the tags of the one at its source now.
    Copy {
        bucket: Text,
        source: Text,
        key: Text,
    },
    /// `DeleteObject` or `DeleteObjects`, which took effect: no objects are at these keys now.
    Delete {
        bucket: Text,
        keys: TextList,
    },
    /// Any other line, which changes nothing.
    Still,
}
