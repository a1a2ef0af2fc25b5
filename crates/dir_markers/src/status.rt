ghost use Rattle.std.specs.Prelude.{◌≡◌};
ghost use Rattle.dir_markers.specs.Markers.{status_in};

/// What is at a path.
#[derive(Clone, Copy, PartialEq, Eq, Drop)]
pub enum Status {
    Directory,
    /// A file, with its length in bytes.
    File(u64),
}

/// Returns what is at a path. `object` is the length of the object with that key, if there is one;
/// `below` says whether something is below the path. An object is a file even if something is
/// below it. Takes no memory. (Hadoop FileSystem specification, getFileStatus.)
pub fn status_of(object: Option<u64>, below: bool) -> Option<Status>
    ensures { result ≡ status_in object below }
{
    match object {
        Some(length) => Some(Status::File(length)),
        None if below => Some(Status::Directory),
        None => None,
    }
}
