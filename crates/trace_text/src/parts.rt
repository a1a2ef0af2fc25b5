ghost use Rattle.std.specs.Prelude.{◌≡◌, ◌≤◌, ◌++◌, map, IfOk, OnOk};
ghost use Rattle.s3_types.specs.Blocks.{parts_of};
ghost use Rattle.s3_types.specs.Tags.{plain_tag};

use s3_types::{Tag, part_tag};
use std::alloc::{AllocError, Global};

/// Adds the MD5 tags of the parts of `size` bytes that a file is cut into. An empty file has one
/// empty part.
fn add_tags(tags: &mut Vec<Tag>, bytes: &[u8], size: usize) -> Result<(), AllocError>
    requires { 1 ≤ size }
    ensures { OnOk result (tags.new.items ≡ tags.old.items ++ map plain_tag (parts_of size bytes.now)) }
{
    let mut rest = bytes;
    'parts: while rest.len() > size {
        let (part, others) = rest.split_at(size);
        tags.push(part_tag(part))?;
        rest = others;
    }
    tags.push(part_tag(rest))?;
    Ok(())
}

/// Returns the MD5 tags of the parts of `size` bytes that a file is cut into. An empty file has one
/// empty part.
pub fn part_tags(alloc: Global, bytes: &[u8], size: usize) -> Result<Vec<Tag>, AllocError>
    requires { 1 ≤ size }
    ensures { IfOk result (λ tags. tags.items ≡ map plain_tag (parts_of size bytes.now)) }
{
    let mut tags = Vec::new(alloc);
    add_tags(&mut tags, bytes, size)?;
    Ok(tags)
}
