ghost use Rattle.std.specs.Prelude.{◌≡◌};

use crate::objects::{Held, Objects};
use s3_types::Object;
use std::alloc::AllocError;

impl Clone for Held {
    ghost is_clone = { λ h copy. copy ≡ h };

    fn clone(&self) -> Result<Held, AllocError> {
        let key = self.key.clone()?;
        let bytes = self.object.bytes.clone()?;
        let header = self.object.header;
        Ok(Held {
            key,
            object: Object { bytes, header },
        })
    }
}

/// Copies the objects, in O(n). The two share the bytes and the texts of the keys.
impl Clone for Objects {
    ghost is_clone = { λ o copy. copy ≡ o };

    fn clone(&self) -> Result<Objects, AllocError> {
        Ok(Objects {
            alloc: self.alloc,
            held: self.held.clone()?,
        })
    }
}
