ghost use Rattle.std.specs.Prelude.{◌≡◌, ℕ, ◌<◌, ◌≤◌, ◌-◌, ◌^◌};
ghost use Rattle.s3_types.specs.declared.limits.TheConstants.{MOST_ENTRIES};

use std::marker::Model;

/// The most parts that an upload may have. They are numbered from 1. (Amazon S3, multipart upload
/// limits.)
pub const MOST_PARTS: u32 = 10_000;

/// The greatest value that a store may have as its least part size: 5 MiB, in bytes. The last part
/// may be smaller. (Amazon S3, multipart upload limits.)
pub const MOST_MINIMUM: u64 = 5_242_880;

/// The most bytes that a key may have. (Amazon S3, object key names.)
pub const MOST_KEY_BYTES: usize = 1024;

/// The most entries of a page, and the most keys of a DeleteObjects. (Amazon S3, `max-keys`,
/// `max-uploads` and DeleteObjects.)
pub const MOST_ENTRIES: u16 = 1000;

/// The most bytes that a job's script, all its files together, or a block of a file may have: 64
/// MiB.
pub const MOST_SCRIPT_BYTES: u64 = 67_108_864;

/// The value of the header `x-hadoop-s3a-magic-data-length`: the number of bytes that a file will
/// have once its upload is completed, at most 2^64 - 2. (Hadoop, S3A committer architecture.)
#[derive(Clone, Copy, PartialEq, Eq)]
pub struct LengthHeader {
    length: u64,
}

impl Model for LengthHeader {
    ghost use Rattle.std.specs.Prelude.{ℕ, ◌<◌, ◌-◌, ◌^◌};

    ghost Value = { ℕ };

    ghost view = { λ h. h.length };

    ghost invariant = { λ h. h.length < 2 ^ 64 - 1 };

    ghost inverse = { λ n. record { length = n } };
}

impl LengthHeader {
    /// A header with this length in bytes.
    pub fn new(length: u64) -> LengthHeader
        requires { length < 2 ^ 64 - 1 }
        ensures { result ≡ length }
    {
        LengthHeader { length }
    }

    /// Returns the length in bytes.
    pub fn get(self) -> u64
        ensures value { result ≡ self }
        ensures bound { result < 2 ^ 64 - 1 }
    {
        self.length
    }
}

/// The most entries that a page may have: 1 to 1,000. (Amazon S3, `max-keys` and `max-uploads`.)
#[derive(Clone, Copy, PartialEq, Eq)]
pub struct PageLimit {
    entries: u16,
}

impl Model for PageLimit {
    ghost use Rattle.std.specs.Prelude.{ℕ, ◌≤◌};
    ghost use Rattle.s3_types.specs.declared.limits.TheConstants.{MOST_ENTRIES};

    ghost Value = { ℕ };

    ghost view = { λ l. l.entries };

    ghost invariant = { λ l. (1 ≤ l.entries) × (l.entries ≤ MOST_ENTRIES) };

    ghost inverse = { λ n. record { entries = n } };
}

impl PageLimit {
    /// The greatest limit of a page.
    pub const MOST: u16 = MOST_ENTRIES;

    /// A limit of this many entries, 1 to 1,000.
    pub fn new(entries: u16) -> PageLimit
        requires some { 1 ≤ entries }
        requires most { entries ≤ MOST_ENTRIES }
        ensures { result ≡ entries }
    {
        PageLimit { entries }
    }

    /// Returns the most entries of a page.
    pub fn get(self) -> u16
        ensures value { result ≡ self }
        ensures some { 1 ≤ result }
        ensures most { result ≤ MOST_ENTRIES }
    {
        self.entries
    }
}
