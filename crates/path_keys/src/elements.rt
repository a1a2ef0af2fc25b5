ghost use Rattle.std.specs.Prelude.{◌≡◌, Some, None, length, nat_lt, if◌then◌else◌};
ghost use Rattle.text_and_lists.specs.Parts.{parts_of};
ghost use Rattle.path_keys.specs.Paths.{element_fault, first_fault, checked};

use crate::fault::PathFault;
use s3_types::is_element;
use text_and_lists::next_part;

fn element_fault(element: &[u8]) -> Option<PathFault>
    ensures { result ≡ element_fault element.now }
{
    if element.is_empty() {
        Some(PathFault::EmptyElement)
    } else if is_element(element) {
        None
    } else {
        Some(PathFault::DotElement)
    }
}

/// Returns the fault of the first element of a text that may not be in a key.
pub fn first_fault(path: &[u8]) -> Option<PathFault>
    ensures { result ≡ first_fault (parts_of 47 path.now) }
{
    let mut rest = path;
    loop {
        let (element, more) = next_part(b'/', rest);
        if let Some(fault) = element_fault(element) {
            return Some(fault);
        }
        match more {
            Some(after) => rest = after,
            None => return None,
        }
    }
}
