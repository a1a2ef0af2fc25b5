ghost use Rattle.std.specs.Prelude.{◌≡◌};
ghost use Rattle.magic_paths.specs.declared.refusal.MagicRefusal.TheVariants.{NoMemory};

use std::alloc::AllocError;
use thiserror::Error;

/// Why a path has no final path, in the order of the checks.
#[derive(Clone, Copy, Debug, PartialEq, Eq, Error)]
pub enum MagicRefusal {
    /// No element of its key is `__magic`.
    #[error("the path has no element __magic")]
    NotMagic,
    /// Nothing follows the first `__magic`, or the first `__base` after it.
    #[error("the path names no file below __magic")]
    NothingAfter,
    #[error("no memory")]
    NoMemory,
}

impl From<AllocError> for MagicRefusal {
    ghost from_gives = { λ _ e. e ≡ NoMemory };

    fn from(_e: AllocError) -> MagicRefusal {
        MagicRefusal::NoMemory
    }
}
