ghost use Rattle.std.specs.Prelude.{◌≡◌};
ghost use Rattle.store_image.specs.Fault.{number_of, place_in};
ghost use Rattle.store_image.specs.declared.fault.ImageFault.TheVariants.{NoMemory};

use std::alloc::AllocError;
use std::fmt;
use thiserror::Error;

/// Why bytes are no image: the first fault from left to right, with its place in bytes from the
/// start.
#[derive(Clone, Copy, Debug, PartialEq, Eq, Error)]
pub enum ImageFault {
    /// The first 8 bytes are not `S3AIMG01`, or the least part size is not 1 to 5,242,880.
    BadHead,
    /// The input ends within the field that begins at this place.
    Short(u64),
    /// The name, key, id or number at this place is not greater than the one before it in its
    /// list, or the number of a part is not 1 to 10,000.
    BadOrder(u64),
    /// The name or key whose length is at this place is not valid.
    BadName(u64),
    /// The counter is not 1 to 2^62, or an upload's id is 0, or not below the counter.
    CounterTooHigh,
    /// Bytes follow the last item, from this place on.
    Trailing(u64),
    NoMemory,
}

impl ImageFault {
    /// Returns the fault's number: 1 to 6, or 7 if memory ran out.
    pub fn number(&self) -> u8
        ensures { result ≡ number_of self.now }
    {
        match self {
            ImageFault::BadHead => 1,
            ImageFault::Short(_) => 2,
            ImageFault::BadOrder(_) => 3,
            ImageFault::BadName(_) => 4,
            ImageFault::CounterTooHigh => 5,
            ImageFault::Trailing(_) => 6,
            ImageFault::NoMemory => 7,
        }
    }

    /// Returns the fault's place in bytes from the start, or 0 if it has none.
    pub fn place(&self) -> u64
        ensures { result ≡ place_in self.now }
    {
        match self {
            ImageFault::Short(place) => *place,
            ImageFault::BadOrder(place) => *place,
            ImageFault::BadName(place) => *place,
            ImageFault::Trailing(place) => *place,
            ImageFault::BadHead => 0,
            ImageFault::CounterTooHigh => 0,
            ImageFault::NoMemory => 0,
        }
    }
}

impl fmt::Display for ImageFault {
    fn fmt<W: fmt::Write>(&self, f: &mut fmt::Formatter<W>) -> fmt::Result {
        write!(f, "image fault {} at {}", self.number(), self.place())
    }
}

impl From<AllocError> for ImageFault {
    ghost from_gives = { λ _ e. e ≡ NoMemory };

    fn from(_e: AllocError) -> ImageFault {
        ImageFault::NoMemory
    }
}
