ghost use Rattle.std.specs.Prelude.{◌≡◌, ℕ, ◌+◌, ◌-◌, ◌*◌, ◌<◌, ◌≤◌, ◌^◌, length, take, drop, min, IfOk};
ghost use Rattle.s3_types.specs.Blocks.{quotient_up, greater, block_of};
ghost use Rattle.s3_types.specs.declared.limits.TheConstants.{MOST_PARTS};

use s3_types::{Bytes, MOST_PARTS};
use std::alloc::{AllocError, Global};

fn greater(a: u64, b: u64) -> u64
    ensures { result ≡ greater a b }
{
    if a < b { b } else { a }
}

/// Returns `n` divided by `d`, rounded up.
fn quotient_up(n: u64, d: u64) -> u64
    requires some { 1 ≤ d }
    requires fits { n + d < 2 ^ 64 }
    ensures { result ≡ quotient_up n d }
{
    (n + (d - 1)) / d
}

/// Returns the part size in bytes for a file of this length.
pub fn part_size(length: u64, block: u64, minimum: u64) -> u64
    requires { length < 2 ^ 32 }
    ensures { result ≡ block_of length block minimum }
{
    greater(
        greater(block, minimum),
        greater(1, quotient_up(length, u64::from(MOST_PARTS))),
    )
}

/// Returns how many parts of `size` bytes a file of this length has, at least 1.
pub fn part_count(length: u64, size: u64) -> u64
    requires some { 1 ≤ size }
    requires fits { length + size < 2 ^ 64 }
    ensures { result ≡ greater 1 (quotient_up length size) }
{
    greater(1, quotient_up(length, size))
}

/// Returns the part that follows `behind` parts of `size` bytes. A file of a single part shares its
/// bytes; other parts are copied.
pub fn part(alloc: Global, bytes: &Bytes, size: u64, behind: u64) -> Result<Bytes, AllocError>
    requires { behind * size < 2 ^ 63 }
    ensures { IfOk result (λ part. part ≡ take size (drop (behind * size) bytes.now)) }
{
    let whole = bytes.as_slice();
    let size = size as usize;
    let start = behind as usize * size;
    if start == 0 && whole.len() <= size {
        return bytes.clone();
    }
    if start >= whole.len() {
        return Bytes::empty(alloc);
    }
    let rest = &whole[start..];
    if rest.len() <= size {
        Bytes::from_slice(alloc, rest)
    } else {
        Bytes::from_slice(alloc, &rest[..size])
    }
}

/// Returns the length in bytes of the part that follows `behind` parts of `size` bytes.
pub fn part_length(length: u64, size: u64, behind: u64) -> u64
    requires { behind * size < 2 ^ 63 }
    ensures { result ≡ min size (length - behind * size) }
{
    let start = behind * size;
    if start >= length {
        return 0;
    }
    size.min(length - start)
}
