ghost use Rattle.std.specs.Prelude.{◌≡◌};
ghost use Rattle.block_stream.specs.Stream.{is_direct};
ghost use Rattle.block_stream.specs.declared.mode.StreamFault.TheVariants.{NoMemory};

use std::alloc::AllocError;
use thiserror::Error;

/// How a stream's output is made visible.
#[derive(Clone, Copy)]
pub enum StreamMode {
    /// The stream makes the object visible at its end.
    Direct,
    /// The upload is left for a committer to complete. (Hadoop, S3A committers: delayed completion.)
    Delayed,
}

impl StreamMode {
    /// True if the stream itself makes the object visible at its end. Takes no memory.
    pub(crate) fn is_direct(self) -> bool
        ensures { result ≡ is_direct self }
    {
        matches!(self, StreamMode::Direct)
    }
}

/// How a stream ended.
#[derive(Clone, Copy, Debug)]
pub enum StreamEnd {
    /// All bytes were stored.
    Done,
    /// The store replied that the upload does not exist.
    Gone,
    /// A request exhausted its retries.
    StoreFault,
    NoMemory,
}

/// Why a piece could not be written. The stream is as before.
#[derive(Clone, Copy, Debug, Error)]
pub enum StreamFault {
    /// All that was written would be more than 10,000 blocks.
    #[error("the output is longer than 10000 blocks")]
    TooLong,
    #[error("no memory")]
    NoMemory,
}

impl From<AllocError> for StreamFault {
    ghost from_gives = { λ _ e. e ≡ NoMemory };

    fn from(_e: AllocError) -> StreamFault {
        StreamFault::NoMemory
    }
}
