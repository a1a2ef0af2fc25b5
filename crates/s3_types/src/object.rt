use crate::bytes::Bytes;
use crate::limits::LengthHeader;

/// An object: its bytes, and the length header of its put, if it had one.
#[derive(Drop)]
pub struct Object {
    pub bytes: Bytes,
    pub header: Option<LengthHeader>,
}

/// The length of an object in bytes, and its length header.
#[derive(Clone, Copy, PartialEq, Eq)]
pub struct Head {
    pub length: u64,
    pub header: Option<LengthHeader>,
}
