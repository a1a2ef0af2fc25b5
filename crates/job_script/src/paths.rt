ghost use Rattle.std.specs.Prelude.{◌≡◌};
ghost use Rattle.std.specs.List.{list_all, list_any};
ghost use Rattle.text_and_lists.specs.Parts.{parts_of};
ghost use Rattle.job_model.specs.Paths as paths;

use text_and_lists::next_part;

fn are_full(path: &[u8]) -> bool
    ensures { result ≡ list_all paths.is_full (parts_of 47 path.now) }
{
    let mut rest = path;
    loop {
        let (element, more) = next_part(b'/', rest);
        if element.is_empty() {
            return false;
        }
        match more {
            Some(after) => rest = after,
            None => return true,
        }
    }
}

fn begins_hidden(element: &[u8]) -> bool
    ensures { result ≡ paths.begins_hidden element.now }
{
    match element.first() {
        Some(b) => *b == b'_' || *b == b'.',
        None => false,
    }
}

/// True if an element of the path begins with `_` or `.`.
pub fn is_hidden(path: &[u8]) -> bool
    ensures { result ≡ paths.is_hidden path.now }
{
    let mut rest = path;
    loop {
        let (element, more) = next_part(b'/', rest);
        if begins_hidden(element) {
            return true;
        }
        match more {
            Some(after) => rest = after,
            None => return false,
        }
    }
}

/// True if a file may have this path, except for the rule on elements that begin with `_` or `.`.
pub fn is_path(path: &[u8]) -> bool
    ensures { result ≡ paths.is_path path.now }
{
    1 <= path.len() && path.len() <= 400 && are_full(path) && !path.ends_with(b".pending")
}

fn is_reserved(element: &[u8]) -> bool
    ensures { result ≡ paths.is_reserved element.now }
{
    element == b"__magic".as_slice() || element == b"__base".as_slice()
}

fn has_reserved(key: &[u8]) -> bool
    ensures { result ≡ list_any paths.is_reserved (parts_of 47 key.now) }
{
    let mut rest = key;
    loop {
        let (element, more) = next_part(b'/', rest);
        if is_reserved(element) {
            return true;
        }
        match more {
            Some(after) => rest = after,
            None => return false,
        }
    }
}

/// True if a destination may have this key.
pub fn is_dest_key(key: &[u8]) -> bool
    ensures { result ≡ paths.is_dest_key key.now }
{
    1 <= key.len() && key.len() <= 400 && !key.ends_with(b"\r") && !has_reserved(key)
}
