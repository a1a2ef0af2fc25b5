ghost use Rattle.std.specs.Prelude.{◌≡◌, nat_eq, codes, drop, length, option_map, Some, None, IfOk, if◌then◌else◌};
ghost use Rattle.std.specs.List.{starts_with};
ghost use Rattle.s3_types.specs.Pages.{begins, text_in};
ghost use Rattle.job_protocol.specs.View.{is_folder, is_file_path};
ghost use Rattle.job_protocol.specs.AtWork.{job_script};
ghost use Rattle.job_protocol.specs.Setup.{first_shown};
ghost use Rattle.list_walk.specs.Walks.{keys_on};
ghost use Rattle.job_setup.specs.inner.Files.{first_of, seen_at};

use job_model::JobPlan;
use magic_paths::dest_prefix;
use s3_types::{PageEntry, Text};
use std::alloc::{AllocError, Global};

/// Returns whether a path is empty or ends in `/`.
fn is_folder(path: &[u8]) -> bool
    ensures { result ≡ is_folder path.now }
{
    match path.last() {
        Some(last) => *last == b'/',
        None => true,
    }
}

/// Returns whether a path is below `__magic`.
fn is_magic(path: &[u8]) -> bool
    ensures { result ≡ begins (codes "__magic/") path.now }
{
    path.starts_with(b"__magic/")
}

/// Returns whether readers of the destination see a file at this path.
fn is_file_path(path: &[u8]) -> bool
    ensures { result ≡ is_file_path path.now }
{
    !is_folder(path) && !is_magic(path) && path != b"_SUCCESS".as_slice()
}

/// Returns the text after a prefix, if the text begins with it.
fn behind<'a>(prefix: &str, text: &'a str) -> Option<&'a str>
    ensures { option_map (λ r. r.now) result ≡ (if starts_with nat_eq text.now prefix.now then Some
        (drop (length prefix.now) text.now) else None) }
{
    text.strip_prefix(prefix)
}

/// Returns the text of an entry.
fn text_of(entry: &PageEntry) -> &Text
    ensures { result.now ≡ text_in entry.now }
{
    match entry {
        PageEntry::Object { key, .. } => key.as_text(),
        PageEntry::Prefix(text) => text,
    }
}

/// Returns the path of a key below a destination, if readers see a file there. The destination's
/// prefix ends in `/`.
fn shown<'a>(prefix: &str, text: &'a str) -> Option<&'a str>
    ensures { option_map (λ r. r.now) result ≡ seen_at prefix.now text.now }
{
    match behind(prefix, text) {
        Some(path) => {
            if is_file_path(path.as_bytes()) {
                Some(path)
            } else {
                None
            }
        }
        None => None,
    }
}

/// Returns the first path among the entries at which readers of the destination see a file. The
/// destination's prefix ends in `/`.
fn first_behind(
    alloc: Global,
    prefix: &str,
    entries: &[PageEntry],
) -> Result<Option<Text>, AllocError>
    ensures { IfOk result (λ path. path ≡ first_of prefix.now (keys_on entries.now)) }
{
    for entry in entries {
        if let Some(path) = shown(prefix, text_of(entry).as_str()) {
            return Ok(Some(Text::copied(alloc, path)?));
        }
    }
    Ok(None)
}

/// Returns the first path among the entries of a page at which readers of a job's destination see a
/// file.
pub fn first_shown(
    alloc: Global,
    plan: &JobPlan,
    entries: &[PageEntry],
) -> Result<Option<Text>, AllocError>
    ensures { IfOk result (λ path. path ≡ first_shown (job_script plan.now) (keys_on entries.now)) }
{
    let prefix = dest_prefix(alloc, &plan.dest)?;
    first_behind(alloc, prefix.as_str(), entries)
}
