ghost use Rattle.std.specs.Prelude.{◌≡◌, ℕ, List, IsTrue, true, Some};
ghost use Rattle.std.specs.List.{list_all};
ghost use Rattle.s3_types.specs.Tags.{Spelled, is_hex};
ghost use Rattle.s3_types.specs.Spelling.{tag_text};

use std::fmt;
use std::marker::Model;

fn is_hex_digit(b: u8) -> bool
    ensures { result ≡ is_hex b }
{
    (48 <= b && b <= 57) || (97 <= b && b <= 102)
}

/// Whether all bytes are lower-case hex digits, as a tag's are. Takes no memory.
pub fn are_hex_digits(bytes: &[u8]) -> bool
    ensures { result ≡ list_all is_hex bytes.now }
{
    bytes.iter().all(|b| is_hex_digit(*b))
}

/// A tag, as S3's ETag: 32 lower-case hex digits and a count of parts. The count is 0 for a put or
/// a part, and the number of parts for a completed upload. It is written as the digits, followed
/// by `-` and the count if that is not 0.
#[derive(Clone, Copy, PartialEq, Eq)]
pub struct Tag {
    digits: [u8; 32],
    parts: u32,
}

impl Model for Tag {
    ghost use Rattle.std.specs.Prelude.{◌≡◌, ℕ, List, true};
    ghost use Rattle.std.specs.List.{list_all};
    ghost use Rattle.s3_types.specs.Tags.{Spelled, is_hex};

    ghost Value = { Spelled };

    ghost view = { λ t. record { digits = t.digits; parts = t.parts } };

    ghost invariant = { λ t. list_all is_hex t.digits ≡ true };

    ghost inverse = { λ s. record { digits = s.digits; parts = s.parts } };
}

impl Tag {
    /// A tag of these hex digits, for an object of this many parts, or 0 for a put or a part.
    pub fn new(digits: [u8; 32], parts: u32) -> Tag
        requires { list_all is_hex digits ≡ true }
        ensures { result ≡ record { digits = digits; parts = parts } }
    {
        Tag { digits, parts }
    }

    /// Returns the 32 hex digits of the tag.
    pub fn digits(&self) -> &[u8; 32]
        ensures digits { result.now ≡ self.now.digits }
        ensures hex { list_all is_hex result.now ≡ true }
    {
        &self.digits
    }

    /// Returns the digits as text.
    pub fn digits_text(&self) -> &str
        ensures { result.now ≡ self.now.digits }
    {
        match str::from_utf8(&self.digits) {
            Ok(text) => text,
            Err(_) => unreachable!(),
        }
    }

    /// Returns the number of parts of a completed upload, and 0 for a put or a part.
    pub fn parts(&self) -> u32
        ensures { result ≡ self.now.parts }
    {
        self.parts
    }
}

impl fmt::Display for Tag {
    ghost output = { λ tag. Some (tag_text tag) };

    fn fmt<W: fmt::Write>(&self, f: &mut fmt::Formatter<W>) -> fmt::Result {
        let digits = self.digits_text();
        if self.parts == 0 {
            return write!(f, "{digits}");
        }
        let parts = self.parts;
        write!(f, "{digits}-{parts}")
    }
}
