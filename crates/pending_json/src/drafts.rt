//! A quick look at the printed texts of records, which leaves names and lists as they are spelled.
ghost use Rattle.std.specs.Prelude.{◌<◌, length, IfSome};

use crate::scanning::{behind, between, number, small_number, without_comma};

/// The contents of a pending upload's text. The sizes are empty if the text has none.
#[derive(Clone, Copy)]
pub struct UploadDraft<'a> {
    pub attempt: u32,
    pub bucket: &'a [u8],
    pub destination: &'a [u8],
    pub tags: &'a [u8],
    pub length: u64,
    pub sizes: &'a [u8],
    pub task: u32,
    pub upload: u64,
}

/// The contents of a set's text after its uploads.
#[derive(Clone, Copy)]
pub struct SetEnd<'a> {
    pub job: &'a [u8],
    pub task: u32,
}

/// The contents of a pending upload at the beginning of a text, and the rest of the text.
pub fn upload_draft(text: &[u8]) -> Option<(UploadDraft<'_>, &[u8])>
    ensures { IfSome result (λ r. length r.1.now < length text.now) }
{
    let (_, text) = text.split_first()?;
    let (attempt, text) = between(text, b"\"attempt\":", b',');
    let (bucket, text) = between(text, b"\"bucket\":\"", b'"');
    let (destination, text) = between(text, b",\"destination\":\"", b'"');
    let (tags, text) = between(text, b",\"etags\":[", b']');
    let (length, text) = between(text, b",\"kind\":\"pending\",\"length\":", b',');
    let (sizes, text) = between(text, b"\"sizes\":[", b']');
    let (task, text) = between(without_comma(text), b"\"task\":", b',');
    let (upload, text) = between(text, b"\"upload\":", b',');
    let (_, text) = between(text, b"\"version\":", b'}');
    let draft = UploadDraft {
        attempt: small_number(attempt),
        bucket,
        destination,
        tags,
        length: number(length),
        sizes,
        task: small_number(task),
        upload: number(upload),
    };
    Some((draft, text))
}

/// The attempt in a set's text, and the text from the list of its uploads on.
pub fn set_start(text: &[u8]) -> Option<(u32, &[u8])> {
    let (attempt, text) = between(text, b"{\"attempt\":", b',');
    let list = behind(text, b"\"commits\":[")?;
    Some((small_number(attempt), list))
}

/// The contents of a set's text after its uploads.
pub fn set_end(text: &[u8]) -> SetEnd<'_> {
    let (job, text) = between(text, b"],\"job\":\"", b'"');
    let (task, _) = between(text, b",\"kind\":\"pendingset\",\"task\":", b',');
    SetEnd {
        job,
        task: small_number(task),
    }
}
