use s3_types::Text;

/// Why a copy of a tree is refused. A refused copy changes nothing.
#[derive(Drop)]
pub enum CopyRefusal {
    /// The source and the target are in two buckets.
    OtherBucket,
    /// There is no bucket of this name.
    NoSuchBucket,
    /// One path is the other, or below it.
    Overlap,
    /// The source is a file.
    SourceIsFile,
    /// No key is below the source.
    SourceMissing,
    /// A file is at the target or at a path above it: the first one, from the root down.
    TargetFile(Text),
    /// A key of the source would be too long at its new place: the first such key.
    TooLong(Text),
    /// A new key has an object that differs from that of its source, in its bytes or its header:
    /// the least such new key.
    Differs(Text),
}

/// How many keys a copy of a tree has copied, and how many existed already.
#[derive(Clone, Copy, PartialEq, Eq)]
pub struct CopyCount {
    pub copied: u64,
    pub skipped: u64,
}
