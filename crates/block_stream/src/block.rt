ghost use Rattle.std.specs.Prelude.{◌≡◌};
ghost use Rattle.s3_types.specs.Blocks.{block_of};

use s3_types::MOST_PARTS;

/// The length in bytes of a file's parts: the largest of `block`, `minimum`, 1 and the length with
/// which 10,000 parts hold `length` bytes. Takes no memory.
pub fn block_of(length: u64, block: u64, minimum: u64) -> u64
    ensures { result ≡ block_of length block minimum }
{
    let least = length.div_ceil(u64::from(MOST_PARTS));
    block.max(minimum).max(least.max(1))
}
