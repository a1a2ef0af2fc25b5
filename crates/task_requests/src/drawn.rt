ghost use Rattle.std.specs.Prelude.{◌≡◌, ◌++◌, ◌∷◌, [], IfOk, slice_get};
ghost use Rattle.std.specs.Option.{option_copied};
ghost use Rattle.job_protocol.specs.Knowledge.{as_made};

use job_model::{DrawnPart, DrawnUpload, Knowledge};
use s3_types::{Sequence, SizeList, TagList, let_go};
use std::alloc::{AllocError, Global};

/// Returns the uploads that the attempt created, oldest first. Takes no memory.
pub fn made(known: &Knowledge) -> &[DrawnUpload]
    ensures { result.now ≡ as_made known.now.drawn }
{
    known.as_made()
}

/// Returns upload number `at`, counted from 0 with the oldest first. Takes no memory.
pub fn made_at(known: &Knowledge, at: usize) -> Option<&DrawnUpload>
    ensures { option_copied result ≡ slice_get (as_made known.now.drawn) at }
{
    made(known).get(at)
}

/// Returns the newest upload, if there is one. Takes no memory.
pub fn last_drawn(known: &Knowledge) -> Option<&DrawnUpload>
    ensures { option_copied result ≡ slice_get known.now.drawn 0 }
{
    known.as_made().last()
}

/// Returns the tags of an upload's parts.
pub fn tags_of(alloc: Global, drawn: &DrawnUpload) -> Result<TagList, AllocError>
    ensures { IfOk result (λ tags. tags ≡ drawn.now.tags) }
{
    let mut tags = Sequence::new(alloc);
    let parts = drawn.parts.as_slice();
    for part in parts {
        let Ok(()) = tags.push(part.tag) else {
            let_go(tags);
            return Err(AllocError);
        };
    }
    Ok(tags)
}

/// Returns the sizes in bytes of an upload's parts.
pub fn sizes_of(alloc: Global, drawn: &DrawnUpload) -> Result<SizeList, AllocError>
    ensures { IfOk result (λ sizes. sizes ≡ drawn.now.sizes) }
{
    let mut sizes = Sequence::new(alloc);
    let parts = drawn.parts.as_slice();
    for part in parts {
        let Ok(()) = sizes.push(part.size) else {
            let_go(sizes);
            return Err(AllocError);
        };
    }
    Ok(sizes)
}

/// Returns the tags of an upload's parts, followed by that of one more part.
pub fn tags_with(
    alloc: Global,
    drawn: &DrawnUpload,
    part: &DrawnPart,
) -> Result<TagList, AllocError>
    ensures { IfOk result (λ tags. tags ≡ drawn.now.tags ++ part.now.tag ∷ []) }
{
    let mut tags = tags_of(alloc, drawn)?;
    tags.push(part.tag)?;
    Ok(tags)
}

/// Returns the sizes in bytes of an upload's parts, followed by that of one more part.
pub fn sizes_with(
    alloc: Global,
    drawn: &DrawnUpload,
    part: &DrawnPart,
) -> Result<SizeList, AllocError>
    ensures { IfOk result (λ sizes. sizes ≡ drawn.now.sizes ++ part.now.size ∷ []) }
{
    let mut sizes = sizes_of(alloc, drawn)?;
    sizes.push(part.size)?;
    Ok(sizes)
}
