ghost use Rattle.std.specs.Prelude.{◌≡◌};
ghost use Rattle.bucket_ops.specs.Walking.{fits};

use list_walk::fits_page;
use s3_types::Reply;

/// Whether a walk or a sweep may receive this reply: a page has only keys, and the bucket is not
/// missing. Takes no memory.
pub fn fits(reply: &Reply) -> bool
    ensures { result ≡ fits reply.now }
{
    fits_page(reply)
}
