ghost use Rattle.std.specs.Prelude.{◌≡◌};
ghost use Rattle.trace_reader.specs.declared.fault.TraceFault.TheVariants.{NoMemory};

use std::alloc::{AllocError, AllocFailed};

/// A member of a line that is read.
#[derive(Clone, Copy, PartialEq, Eq, Debug)]
pub enum Field {
    Op,
    Dest,
    Keeps,
    Tasks,
    Task,
    Attempt,
    Path,
    Etags,
    Bucket,
    Effect,
    Key,
    Etag,
    Source,
    Keys,
    Parts,
}

/// Why a line does not belong to a trace. If several faults apply, the first of these is reported;
/// members are checked in the order in which `TraceLine` lists them.
#[derive(Clone, Copy, PartialEq, Eq, Debug)]
pub enum TraceFault {
    /// The line has more than 8,388,608 bytes, without its line feed.
    TooLong,
    /// The line is not UTF-8, not JSON (RFC 8259), nested deeper than 127, or not an object.
    NotJson,
    /// The line has no member of this name.
    MissingField(Field),
    /// The member of this name has another kind of value, or a value out of its range.
    WrongKind(Field),
    /// `op` is neither an operation of the Amazon S3 API that a trace may have nor another word of
    /// a trace.
    UnknownOp,
    /// The line may not come at this place. The job comes first, and once. Its attempts, their
    /// files and the opening objects come before the first change and before the commit, and a file
    /// comes after an attempt.
    OutOfOrder,
    /// A second commit, the same attempt again, the same path of an attempt again, or the same opening object again.
    Repeated,
    /// A file whose path an attempt of another task has.
    SamePath,
    /// A copy took effect, but there is no object at its source.
    NoSource,
    /// Memory ran out.
    NoMemory,
}

impl From<AllocError> for TraceFault {
    ghost from_gives = { λ _ e. e ≡ NoMemory };

    fn from(_e: AllocError) -> TraceFault {
        TraceFault::NoMemory
    }
}

impl<T: Drop> From<AllocFailed<T>> for TraceFault {
    ghost from_gives = { λ _ e. e ≡ NoMemory };

    fn from(_e: AllocFailed<T>) -> TraceFault {
        TraceFault::NoMemory
    }
}
