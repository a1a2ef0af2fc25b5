ghost use Rattle.std.specs.Prelude.{◌≡◌, [], ◌∷◌, true};
ghost use Rattle.std.specs.List.{AllByRecursion};
ghost use Rattle.s3_types.specs.Names.{is_key};
ghost use Rattle.s3_types.specs.Store.{Content};
ghost use Rattle.journal_log.specs.Changes.{changes};
ghost use Rattle.journal_log.specs.Made.{IsMade, KeepsImages};

use crate::changing::change_of;
use s3_types::{Entry, Journal, Key, Request};

/// Proves that a `Key` is a key.
fn key(key: &Key)
    ensures { is_key key.now ≡ true }
{
    let _ = key.as_text().as_str();
}

/// Proves of a request what its types keep: that it puts at a key, and a header that fits.
pub fn made(request: &Request)
    ensures { IsMade request.now }
{
    match request {
        Request::PutObject {
            key: at,
            header: Some(length),
            ..
        } => {
            let _ = length.get();
            key(at)
        }
        Request::PutObject { key: at, .. } => key(at),
        Request::CopyObject { target, .. } => key(target),
        Request::CreateUpload { key: at, .. } => key(at),
        _ => {}
    }
}

fn entry_made(entry: &Entry)
    ensures { AllByRecursion IsMade (changes (entry.now ∷ [])) }
{
    match change_of(entry) {
        Some(change) => made(change),
        None => {}
    }
}

/// Proves what the types of a journal's requests keep: a run from a store that can be written as an
/// image leads only through such stores, until its counter reaches its limit. In O(n); nothing is
/// done.
pub fn keeps_images(journal: &Journal)
    ensures { (opening : Content) → KeepsImages opening journal.now.entries }
{
    let entries = journal.as_slice();
    for entry in entries {
        entry_made(entry);
    }
}
