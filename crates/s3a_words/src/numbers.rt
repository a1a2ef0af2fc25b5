ghost use Rattle.std.specs.Prelude.{◌≡◌, IfOk};
ghost use Rattle.s3a_words.specs.Numbers.{number_in, minimum_in, number_within};
ghost use Rattle.s3a_words.specs.inner.Numbers.{WritesDecimals};

use s3_types::MOST_MINIMUM;
use std::alloc::{AllocError, Global};

/// The most digits of a number.
const MOST_DIGITS: usize = 18;

/// The number that a word writes, if the word is the decimal text of one with at most 18 digits.
#[tactic(auto, unfolding(crate::specs::Numbers::number_in))]
fn number_in(alloc: Global, word: &str) -> Result<Option<u64>, AllocError>
    ensures exact { IfOk result (λ o. o ≡ number_in word.now) }
    ensures decimal { WritesDecimals word.now }
{
    if word.len() > MOST_DIGITS {
        return Ok(None);
    }
    let Ok(number) = word.parse::<u64>() else {
        return Ok(None);
    };
    let written = number.to_string(alloc)?;
    if written.as_str() != word {
        return Ok(None);
    }
    Ok(Some(number))
}

/// The least size of a part in bytes that a word writes, if it is 1 to 5,242,880.
#[tactic(auto, unfolding(crate::specs::Numbers::minimum_in))]
pub fn minimum_in(alloc: Global, word: &str) -> Result<Option<u64>, AllocError>
    ensures { IfOk result (λ o. o ≡ minimum_in word.now) }
{
    match number_in(alloc, word)? {
        Some(bytes) if bytes >= 1 && bytes <= MOST_MINIMUM => { Ok(Some(bytes)) }
        _ => Ok(None),
    }
}

/// The number that a word writes, if it is from `least` to `most`.
#[tactic(auto, unfolding(crate::specs::Numbers::number_within))]
pub fn number_within(
    alloc: Global,
    word: &str,
    least: u32,
    most: u32,
) -> Result<Option<u32>, AllocError>
    ensures { IfOk result (λ o. o ≡ number_within least most word.now) }
{
    let Some(number) = number_in(alloc, word)? else {
        return Ok(None);
    };
    match u32::try_from(number) {
        Ok(number) if number >= least && number <= most => { Ok(Some(number)) }
        _ => Ok(None),
    }
}
