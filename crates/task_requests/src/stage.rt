/// The next request that a write sends for its current file.
#[derive(Clone, Copy)]
pub enum WriteStage {
    /// Creates the file's upload.
    Creating,
    /// Sends the next part; this many parts have been sent.
    Sending(u64),
    /// Puts the file's marker.
    Marking,
    /// Puts the file's record.
    Recording,
}
