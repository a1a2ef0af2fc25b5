use anyhow::Result;
use s3_types::{Bytes, EntryList, LengthHeader, Outcome, PageEntry, PartSizes, Reply, UploadList};
use std::io;

/// Shows bytes as text, in brackets.
pub fn show_bytes(rt: &impl Print, bytes: &Bytes) -> Result<()> {
    print!(rt; "[{}]", str::from_utf8(bytes.as_slice())?)?;
    Ok(())
}

fn show_header(rt: &impl Print, header: Option<LengthHeader>) -> Result<()> {
    match header {
        Some(length) => print!(rt; ", header {}", length.get())?,
        None => print!(rt; ", no header")?,
    }
    Ok(())
}

fn show_object(rt: &impl Print, bytes: &Bytes, header: Option<LengthHeader>) -> Result<()> {
    show_bytes(rt, bytes)?;
    show_header(rt, header)
}

fn show_head(rt: &impl Print, length: u64, header: Option<LengthHeader>) -> Result<()> {
    print!(rt; "{length} bytes")?;
    show_header(rt, header)
}

fn show_word(rt: &impl Print, reply: &Reply) -> io::Result<()> {
    match reply {
        Reply::Made => print!(rt; "made"),
        Reply::Stored(_) => print!(rt; "stored"),
        Reply::Deleted => print!(rt; "deleted"),
        Reply::Copied => print!(rt; "copied"),
        Reply::Page { entries, .. } => print!(rt; "page-of-{}", entries.len()),
        Reply::Upload(upload) => print!(rt; "{upload}"),
        Reply::Part(tag) | Reply::Completed(tag) => print!(rt; "{tag}"),
        Reply::Aborted => print!(rt; "aborted"),
        Reply::Uploads { entries, .. } => print!(rt; "uploads-of-{}", entries.len()),
        Reply::Parts(parts) => print!(rt; "parts-of-{}", parts.len()),
        Reply::Refused(refusal) => print!(rt; "{refusal:?}"),
        _ => print!(rt; "another-answer"),
    }
}

/// Shows a reply in a word, or an object with its length header.
pub fn show_reply(rt: &impl Print, reply: &Reply) -> Result<()> {
    match reply {
        Reply::Object { bytes, header } => show_object(rt, bytes, *header),
        Reply::Head { length, header } => show_head(rt, *length, *header),
        _ => Ok(show_word(rt, reply)?),
    }
}

/// Shows the outcome of a send, in a word.
pub fn show_outcome(rt: &impl Print, outcome: &Outcome) -> Result<()> {
    match outcome {
        Outcome::Answered(reply) => show_reply(rt, reply),
        Outcome::Slow => Ok(print!(rt; "slow")?),
        Outcome::RequestLost => Ok(print!(rt; "before")?),
        Outcome::ReplyLost => Ok(print!(rt; "after")?),
    }
}

/// Shows the entries of a page, each key with its object's length.
pub fn show_entries(rt: &impl Print, entries: &EntryList) -> Result<()> {
    for entry in entries.as_slice() {
        match entry {
            PageEntry::Object { key, length } => {
                print!(rt; " {} {length}", key.as_text().as_str())?
            }
            PageEntry::Prefix(text) => print!(rt; " {}", text.as_str())?,
        }
    }
    Ok(())
}

/// Shows the uploads of a page, each key with its upload's id.
fn show_uploads(rt: &impl Print, uploads: &UploadList) -> Result<()> {
    for upload in uploads.as_slice() {
        print!(rt; " {} {}", upload.key.as_text().as_str(), upload.upload)?;
    }
    Ok(())
}

/// Shows the parts of an upload, each number with its part's length.
fn show_parts(rt: &impl Print, parts: &PartSizes) -> Result<()> {
    for part in parts.as_slice() {
        print!(rt; " {} {}", part.number, part.length)?;
    }
    Ok(())
}

fn lists_more(reply: &Reply) -> bool {
    matches!(
        reply,
        Reply::Page { more: true, .. } | Reply::Uploads { more: true, .. }
    )
}

fn show_list(rt: &impl Print, reply: &Reply) -> Result<()> {
    match reply {
        Reply::Page { entries, .. } => show_entries(rt, entries),
        Reply::Uploads { entries, .. } => show_uploads(rt, entries),
        Reply::Parts(parts) => show_parts(rt, parts),
        _ => Ok(()),
    }
}

/// Shows a reply and what it lists, and a `+` if more remains.
pub fn show_answer(rt: &impl Print, reply: &Reply) -> Result<()> {
    print!(rt; ": ")?;
    show_reply(rt, reply)?;
    show_list(rt, reply)?;
    if lists_more(reply) {
        print!(rt; " +")?;
    }
    Ok(())
}
