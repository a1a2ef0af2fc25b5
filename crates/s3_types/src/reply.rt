use crate::bytes::Bytes;
use crate::limits::LengthHeader;
use crate::lists::{EntryList, PartSizes, TextList, UploadList};
use crate::names::Key;
use crate::tag::Tag;
use crate::text::Text;

/// An entry of a page: a key with the length of its object in bytes, or the common prefix of
/// several keys.
#[derive(Drop)]
pub enum PageEntry {
    Object { key: Key, length: u64 },
    Prefix(Text),
}

/// A part of an upload: its number, its length in bytes and its tag.
#[derive(Clone, Copy, PartialEq, Eq)]
pub struct PartSize {
    pub number: u32,
    pub length: u64,
    pub tag: Tag,
}

/// Why a request was refused. (Amazon S3 API, error codes; NoSuchFile is the cluster's.)
#[derive(Clone, Copy, Debug, PartialEq, Eq)]
pub enum Refusal {
    NoSuchBucket = 1,
    NoSuchKey = 2,
    NoSuchUpload = 3,
    MalformedList = 4,
    InvalidPartOrder = 5,
    InvalidPart = 6,
    EntityTooSmall = 7,
    BadPartNumber = 8,
    TooManyKeys = 9,
    BucketExists = 10,
    BadName = 11,
    NoSuchFile = 12,
}

/// The answer to a request.
#[derive(Drop)]
pub enum Reply {
    Made,
    Stored(Tag),
    Object {
        bytes: Bytes,
        header: Option<LengthHeader>,
    },
    Head {
        length: u64,
        header: Option<LengthHeader>,
    },
    Deleted,
    Copied,
    /// Some entries, and whether more remain.
    Page {
        entries: EntryList,
        more: bool,
    },
    Upload(u64),
    Part(Tag),
    Completed(Tag),
    Aborted,
    /// Some uploads, and whether more remain.
    Uploads {
        entries: UploadList,
        more: bool,
    },
    Parts(PartSizes),
    ClusterDone,
    ClusterBytes(Bytes),
    ClusterNames(TextList),
    Refused(Refusal),
}
