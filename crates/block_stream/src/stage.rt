/// What a stream does next.
#[derive(Clone, Copy)]
pub enum StreamStage {
    /// It waits for more to be written, or for the close.
    Waiting,
    /// It puts the whole output as one object.
    Putting,
    /// It begins an upload.
    Beginning,
    /// It sends a part.
    Sending,
    /// It completes the upload.
    Completing,
    /// It has ended.
    Over,
}
