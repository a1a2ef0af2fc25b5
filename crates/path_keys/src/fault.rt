ghost use Rattle.std.specs.Prelude.{◌≡◌};
ghost use Rattle.path_keys.specs.declared.fault.PathFault.TheVariants.{NoMemory};

use std::alloc::AllocError;
use thiserror::Error;

/// Why a text is not a path, in the order of the checks.
#[derive(Clone, Copy, Debug, PartialEq, Eq, Error)]
pub enum PathFault {
    /// It does not begin with `s3a://`.
    #[error("the path does not begin with s3a://")]
    BadScheme,
    /// The text after that, up to the first `/`, is not a bucket's name.
    #[error("the path names no bucket")]
    BadBucket,
    /// The first element that may not be in a key is empty.
    #[error("the path has an empty element")]
    EmptyElement,
    /// The first element that may not be in a key is `.` or `..`.
    #[error("the path has an element . or ..")]
    DotElement,
    /// The key has more than 1,023 bytes.
    #[error("the path's key is longer than 1023 bytes")]
    TooLong,
    #[error("no memory")]
    NoMemory,
}

impl From<AllocError> for PathFault {
    ghost from_gives = { λ _ e. e ≡ NoMemory };

    fn from(_e: AllocError) -> PathFault {
        PathFault::NoMemory
    }
}
