use anyhow::{Result, bail};
use s3_types::{Tag, joined_tag, part_tag};
use std::alloc::Global;

/// Shows the tag of an upload whose parts are the words.
pub fn show_joined(rt: &impl Print, alloc: Global, words: &str) -> Result<()> {
    let mut tags: Vec<Tag> = Vec::new(alloc);
    for word in words.split_whitespace() {
        tags.push(part_tag(word.as_bytes()))?;
    }
    if tags.len() > 10_000 {
        bail!("no upload has so many parts");
    }
    print!(rt; ": {}", joined_tag(&tags))?;
    Ok(())
}
