ghost use Rattle.std.specs.Prelude.{◌≡◌, Decides};
ghost use Rattle.std.specs.List.{list_all};
ghost use Rattle.list_walk.specs.Fitting.{is_key, FitsPage};

use s3_types::{PageEntry, Refusal, Reply};

/// Whether an entry is a key.
fn is_key(entry: &PageEntry) -> bool
    ensures { result ≡ is_key entry.now }
{
    match entry {
        PageEntry::Object { .. } => true,
        PageEntry::Prefix(_) => false,
    }
}

/// Whether all entries are keys.
fn are_keys(entries: &[PageEntry]) -> bool
    ensures { result ≡ list_all is_key entries.now }
{
    entries.iter().all(|entry| is_key(entry))
}

/// Whether a walk over keys may receive this reply: a page has only keys, and the bucket is not
/// missing. Takes no memory.
pub fn fits_page(reply: &Reply) -> bool
    ensures { Decides result (FitsPage reply.now) }
{
    match reply {
        Reply::Page { entries, .. } => are_keys(entries.as_slice()),
        Reply::Refused(refusal) => match refusal {
            Refusal::NoSuchBucket => false,
            _ => true,
        },
        _ => true,
    }
}
