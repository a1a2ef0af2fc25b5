ghost use Rattle.std.specs.Prelude.{◌≡◌, IfOk};
ghost use Rattle.cleanup.specs.inner.Places.{behind};

use s3_types::{Sequence, Text, TextList, let_go};
use std::alloc::{AllocError, Global};

/// Returns these texts, shared with the argument.
pub fn shared_texts(alloc: Global, texts: &[Text]) -> Result<TextList, AllocError>
    ensures { IfOk result (λ copy. copy ≡ texts.now) }
{
    let mut copy = Sequence::new(alloc);
    for text in texts {
        let Ok(text) = text.clone() else {
            let_go(copy);
            return Err(AllocError);
        };
        let Ok(()) = copy.push(text) else {
            let_go(copy);
            return Err(AllocError);
        };
    }
    Ok(copy)
}

/// Returns the place `step` places after `at`, but at most `len`.
pub fn next_place(at: usize, step: usize, len: usize) -> usize
    ensures { result ≡ behind at step len }
{
    if step < len.saturating_sub(at) {
        at + step
    } else {
        len
    }
}
