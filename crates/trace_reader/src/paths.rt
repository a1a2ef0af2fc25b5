ghost use Rattle.std.specs.Prelude.{◌≡◌};
ghost use Rattle.std.specs.List.{list_all};
ghost use Rattle.text_and_lists.specs.Parts.{parts_of};
ghost use Rattle.soundness.specs.Paths.{hides, is_visible};
ghost use Rattle.trace_reader.specs.Reading.{is_file_path, is_some_text};

use text_and_lists::next_part;

fn hides(b: u8) -> bool
    ensures { result ≡ hides b }
{
    b == b'_' || b == b'.'
}

/// Returns whether readers see a file at this path below the destination: it is not empty, does not
/// end in `/`, and has no element that begins with `_` or `.` (Hadoop's hidden files).
pub fn is_visible(path: &[u8]) -> bool
    ensures { result ≡ is_visible path.now }
{
    let mut begins = true;
    for b in path {
        if begins && hides(*b) {
            return false;
        }
        begins = *b == b'/';
    }
    !begins
}

/// Returns whether no element of a path is empty.
fn are_some(path: &[u8]) -> bool
    ensures { result ≡ list_all is_some_text (parts_of 47 path.now) }
{
    let mut rest = path;
    loop {
        let (element, more) = next_part(b'/', rest);
        if element.is_empty() {
            return false;
        }
        match more {
            Some(after) => rest = after,
            None => return true,
        }
    }
}

/// Returns whether an attempt may write a file at this path below the destination.
pub fn is_file_path(path: &[u8]) -> bool
    ensures { result ≡ is_file_path path.now }
{
    is_visible(path) && are_some(path)
}
