ghost use Rattle.std.specs.Prelude.{◌≡◌, ◌≤◌, ℕ, length, IfOk, Ok};
ghost use Rattle.std.specs.FinMap as map;
ghost use Rattle.job_script.specs.Print.{script_text};
ghost use Rattle.job_script.specs.Script.{script_of, script_within};
ghost use Rattle.s3_types.specs.declared.limits.TheConstants.{MOST_SCRIPT_BYTES};

use crate::head::put_head;
use crate::print_events::put_events;
use crate::print_files::put_attempts;
use job_model::Script;
use s3_types::Bytes;
use std::alloc::{AllocError, Global};

/// Returns the text of a script, in this order:
///
/// 1. every head line in the format's order; `block` is left out if it is 0, and `stamp` if there
///    is none
/// 2. a `loss` line for each send that has a fate, by rising number
/// 3. each attempt with its files in hex
/// 4. the events
///
/// One blank separates two words, and LF ends each line. If the text has at most 67,108,864 bytes
/// and names at most 10,000 sends, reading it gives the script again. A larger text is beyond the
/// reader's limits; the definition of reading with larger limits gives its script too.
///
/// The only error is out of memory: the call needs memory for the text and for one file's digits.
/// It takes one pass over the script, and O(log f) for each send that has a fate, where f is the
/// number of rows of fates.
pub fn print_script(alloc: Global, script: &Script) -> Result<Bytes, AllocError>
    // The text is the one that `Print.antt` defines.
    ensures text { IfOk result (λ bytes. bytes ≡ script_text script.now) }
    // If it is within the reader's limits, reading it gives the script again.
    ensures again { IfOk result (λ bytes. map.len script.now.fates ≤ 10000 → length bytes ≤ MOST_SCRIPT_BYTES
        → script_of bytes ≡ Ok script.now) }
    // Whatever its size, it means the script, if the reader's two limits are large enough.
    ensures any_size { IfOk result (λ bytes. (losses size : ℕ) → map.len script.now.fates ≤ losses → length bytes ≤ size
        → script_within losses size bytes ≡ Ok script.now) }
{
    let mut out = String::new(alloc);
    put_head(&mut out, script)?;
    put_attempts(alloc, &mut out, &script.attempts)?;
    put_events(&mut out, script.events.as_slice())?;
    Bytes::new(alloc, out.into_bytes())
}
