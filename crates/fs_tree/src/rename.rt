use s3_types::Text;

/// Why a rename is refused. A refused rename changes nothing.
#[derive(Drop)]
pub enum RenameRefusal {
    /// Nothing is at the source.
    SourceMissing,
    /// The source is the root of a bucket.
    SourceRoot,
    /// The target is the source, or below it.
    UnderSource,
    /// A file is at the target, or, if the target is a directory, at the new place inside it.
    TargetFile,
    /// The target is a directory, and the new place inside it is a directory too.
    TargetExists,
    /// Nothing is at the path above the target.
    ParentMissing,
    /// The path above the target is a file.
    ParentIsFile,
    /// The source and the target are in two buckets.
    OtherBucket,
    /// There is no bucket of this name.
    NoSuchBucket,
    /// A key of the source would be too long at its new place: the first such key.
    TooLong(Text),
}
