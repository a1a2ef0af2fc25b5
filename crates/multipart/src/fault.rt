ghost use Rattle.std.specs.Prelude.{◌≡◌};
ghost use Rattle.multipart.specs.declared.fault.UploadFault.TheVariants.{Refused, NoMemory};

use s3_types::Refusal;
use std::alloc::AllocError;
use thiserror::Error;

/// Why a call on an upload failed.
#[derive(Clone, Copy, Debug, PartialEq, Eq, Error)]
pub enum UploadFault {
    /// S3 refuses the request.
    #[error("the request is refused: {0:?}")]
    Refused(Refusal),
    #[error("no memory")]
    NoMemory,
}

impl From<Refusal> for UploadFault {
    ghost from_gives = { λ refusal e. e ≡ Refused refusal };

    fn from(refusal: Refusal) -> UploadFault {
        UploadFault::Refused(refusal)
    }
}

impl From<AllocError> for UploadFault {
    ghost from_gives = { λ _ e. e ≡ NoMemory };

    fn from(_e: AllocError) -> UploadFault {
        UploadFault::NoMemory
    }
}
