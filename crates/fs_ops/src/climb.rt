ghost use Rattle.std.specs.Prelude.{◌≡◌, IfOk};
ghost use Rattle.bucket_ops.specs.Asks.{request_of, Head};
ghost use Rattle.fs_ops.specs.code.Climbs.{climbing, climbed};

use bucket_ops::Look;
use s3_types::{Bucket, Key, KeyList, Request, Sequence, Text};
use std::alloc::AllocError;

/// The directories above a path at which a file is still to be looked for, the next one first.
#[derive(Drop)]
pub struct Climb {
    pub first: Key,
    pub rest: KeyList,
}

/// The result of one step of a climb.
#[derive(Drop)]
pub enum Climbed {
    /// A file exists at this key.
    File(Text),
    /// More directories are to be looked at.
    On(Climb),
    /// No file exists at any of them.
    Free,
}

impl Climb {
    /// Starts a climb over these keys. Takes no memory.
    pub fn over(keys: KeyList) -> Climbed
        ensures { result ≡ climbing keys }
    {
        let mut items = keys.into_vec();
        if items.is_empty() {
            return Climbed::Free;
        }
        let first = items.remove(0);
        Climbed::On(Climb {
            first,
            rest: Sequence::from_vec(items),
        })
    }

    /// The request that looks at the next directory.
    pub fn request(&self, bucket: &Bucket) -> Result<Request, AllocError>
        ensures { IfOk result (λ request. request ≡ request_of bucket.now (Head self.now.first)) }
    {
        Request::head_object(bucket, &self.first)
    }

    /// The result after this look at the next directory.
    pub fn hear(self, seen: Look) -> Result<Climbed, AllocError>
        ensures { IfOk result (λ led. led ≡ climbed self seen) }
    {
        let Climb { first, rest } = self;
        match seen {
            Look::There => Ok(Climbed::File(first.as_text().clone()?)),
            _ => Ok(Climb::over(rest)),
        }
    }
}
