ghost use Rattle.std.specs.Prelude.{option_map};
ghost use Rattle.text_and_lists.specs.Reading.{GivesBy, need};
ghost use Rattle.text_and_lists.specs.Words.{words_after};
ghost use Rattle.job_script.specs.Fault.{Gives, wanting};
ghost use Rattle.job_script.specs.Content as content;
ghost use Rattle.job_script.specs.declared.fault.ScriptFault.TheVariants.{BadLine};

use crate::fault::ScriptFault;
use crate::head::one_word;
use hex::FromHexError;
use s3_types::{Bytes, MOST_SCRIPT_BYTES};
use std::alloc::Global;
use text_and_lists::{number_within, text, two};

/// The bytes of a word of hex digits, two at least; `-` means none.
fn hex_bytes(alloc: Global, line: u64, digits: &str) -> Result<Vec<u8>, ScriptFault>
    ensures { GivesBy wanting (λ v. v.items) result (need (content.hex_bytes digits.now) (BadLine line)) }
{
    if digits == "-" {
        return Ok(Vec::new(alloc));
    }
    if digits.is_empty() {
        return Err(ScriptFault::BadLine(line));
    }
    match hex::decode(alloc, digits.as_bytes()) {
        Ok(bytes) => Ok(bytes),
        Err(FromHexError::OutOfMemory) => Err(ScriptFault::NoMemory),
        Err(_) => Err(ScriptFault::BadLine(line)),
    }
}

#[tactic(auto, unfolding(crate::specs::Content::text_at))]
fn text_of(alloc: Global, line: u64, rest: Option<&str>) -> Result<Bytes, ScriptFault>
    ensures { Gives result (content.text_at line (words_after (option_map (λ r. r.now) rest.entry))) }
{
    let Some(bytes) = text(rest) else {
        return Err(ScriptFault::BadLine(line));
    };
    Ok(Bytes::from_slice(alloc, bytes.as_bytes())?)
}

#[tactic(auto, unfolding(crate::specs::Content::hex_at))]
fn hex_of(alloc: Global, line: u64, rest: Option<&str>) -> Result<Bytes, ScriptFault>
    ensures { Gives result (content.hex_at line (words_after (option_map (λ r. r.now) rest.entry))) }
{
    let digits = one_word(line, rest)?;
    let bytes = hex_bytes(alloc, line, digits)?;
    Ok(Bytes::new(alloc, bytes)?)
}

#[tactic(auto, unfolding(crate::specs::Content::fill_at))]
fn fill_of(alloc: Global, line: u64, rest: Option<&str>) -> Result<Bytes, ScriptFault>
    ensures { Gives result (content.fill_at line (words_after (option_map (λ r. r.now) rest.entry))) }
{
    let Some((count, byte)) = two(rest) else {
        return Err(ScriptFault::BadLine(line));
    };
    let Some(count) = number_within(0, MOST_SCRIPT_BYTES, count) else {
        return Err(ScriptFault::BadNumber(line));
    };
    let Some(byte) = number_within(0, 255, byte) else {
        return Err(ScriptFault::BadNumber(line));
    };
    let bytes = vec![in alloc; byte as u8; count as usize]?;
    Ok(Bytes::new(alloc, bytes)?)
}

/// The bytes of a file, by the word for their form and the rest of the line.
#[tactic(auto, unfolding(crate::specs::Content::content_at))]
pub fn content_of(
    alloc: Global,
    line: u64,
    form: &str,
    rest: Option<&str>,
) -> Result<Bytes, ScriptFault>
    ensures { Gives result (content.content_at line form.now (words_after (option_map (λ r. r.now) rest.entry))) }
{
    match form {
        "text" => text_of(alloc, line, rest),
        "hex" => hex_of(alloc, line, rest),
        "fill" => fill_of(alloc, line, rest),
        _ => Err(ScriptFault::BadLine(line)),
    }
}
