ghost use Rattle.std.specs.Prelude.{◌≡◌};
ghost use Rattle.object_store.specs.declared.fault.CopyFault.TheVariants.{NoMemory};

use std::alloc::AllocError;
use thiserror::Error;

/// Why CopyObject failed.
#[derive(Clone, Copy, Debug, PartialEq, Eq, Error)]
pub enum CopyFault {
    /// The source does not exist. (Amazon S3 API, CopyObject: NoSuchKey.)
    #[error("nothing stands at the source")]
    NoSuchKey,
    #[error("no memory")]
    NoMemory,
}

impl From<AllocError> for CopyFault {
    ghost from_gives = { λ _ e. e ≡ NoMemory };

    fn from(_e: AllocError) -> CopyFault {
        CopyFault::NoMemory
    }
}
