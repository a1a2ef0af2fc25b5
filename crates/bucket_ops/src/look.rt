ghost use Rattle.std.specs.Prelude.{◌≡◌};
ghost use Rattle.bucket_ops.specs.Looks.{look_of};

use s3_types::{Refusal, Reply};

/// What a look at a key, or below a prefix, found.
#[derive(Clone, Copy, PartialEq, Eq)]
pub enum Look {
    There,
    Nothing,
    NoBucket,
    /// The reply does not answer a look.
    Other,
}

/// Returns what the reply to a look says. Takes no memory.
pub fn seen_in(reply: &Reply) -> Look
    ensures { result ≡ look_of reply.now }
{
    match reply {
        Reply::Head { .. } => Look::There,
        Reply::Object { .. } => Look::There,
        Reply::Page { entries, .. } => {
            if entries.len() == 0 {
                Look::Nothing
            } else {
                Look::There
            }
        }
        Reply::Refused(Refusal::NoSuchKey) => Look::Nothing,
        Reply::Refused(Refusal::NoSuchBucket) => Look::NoBucket,
        _ => Look::Other,
    }
}
