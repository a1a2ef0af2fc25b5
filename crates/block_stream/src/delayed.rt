use s3_types::TagList;

/// What a committer needs to complete a delayed output.
pub struct Delayed<'s> {
    pub upload: u64,
    /// The tags of the parts, from the first on.
    pub tags: &'s TagList,
    /// The number of bytes that were written.
    pub length: u64,
}
