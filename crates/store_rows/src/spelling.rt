use anyhow::{Context, Result};
use std::alloc::Global;

/// The first word of a text, and the text after the blank that follows it.
pub fn cut(text: &str) -> (&str, &str) {
    match text.split_once(' ') {
        Some((word, rest)) => (word, rest),
        None => (text, ""),
    }
}

/// The text that a word stands for: `-` for the empty one.
pub fn plain(word: &str) -> &str {
    if word == "-" { "" } else { word }
}

/// Writes the bytes that a word spells: the letters after a `'`, or a number in so many bytes,
/// big-endian.
fn put_word(bytes: &mut Vec<u8>, word: &str) -> Result<()> {
    if let Some(text) = word.strip_prefix("'") {
        bytes.extend_from_slice(text.as_bytes())?;
        return Ok(());
    }
    let (width, number) = word.split_once(':').context("a width and a number")?;
    match width {
        "1" => put_slice(
            bytes,
            &number.parse::<u8>().context("a byte")?.to_be_bytes(),
        ),
        "2" => put_slice(
            bytes,
            &number.parse::<u16>().context("16 bits")?.to_be_bytes(),
        ),
        "4" => put_slice(
            bytes,
            &number.parse::<u32>().context("32 bits")?.to_be_bytes(),
        ),
        _ => put_slice(
            bytes,
            &number.parse::<u64>().context("64 bits")?.to_be_bytes(),
        ),
    }
}

fn put_slice(bytes: &mut Vec<u8>, slice: &[u8]) -> Result<()> {
    bytes.extend_from_slice(slice)?;
    Ok(())
}

/// The bytes that words spell: `'ab` the letters, and `8:4` the number 4 in 8 bytes.
pub fn spelled(alloc: Global, words: &str) -> Result<Vec<u8>> {
    let mut bytes = Vec::new(alloc);
    for word in words.split_whitespace() {
        put_word(&mut bytes, word)?;
    }
    Ok(bytes)
}
