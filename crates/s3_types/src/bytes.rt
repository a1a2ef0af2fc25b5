ghost use Rattle.std.specs.Prelude.{◌≡◌, [], IfOk};

use std::alloc::{AllocError, Global};
use std::marker::Model;
use std::rc::Rc;

/// Bytes that never change. A clone shares them and copies none.
#[derive(Drop)]
pub struct Bytes {
    shared: Rc<Vec<u8>>,
}

impl Model for Bytes {
    ghost use Rattle.std.specs.Prelude.{ℕ, List};

    ghost Value = { List ℕ };

    ghost view = { λ b. b.shared.value.items };
}

impl Bytes {
    /// No bytes.
    pub fn empty(alloc: Global) -> Result<Bytes, AllocError>
        ensures { IfOk result (λ b. b ≡ []) }
    {
        Bytes::new(alloc, Vec::new(alloc))
    }

    /// The bytes of a vector. Keeps the vector and copies nothing.
    pub fn new(alloc: Global, bytes: Vec<u8>) -> Result<Bytes, AllocError>
        ensures { IfOk result (λ b. b ≡ bytes.items) }
    {
        Ok(Bytes {
            shared: Rc::new(alloc, bytes)?,
        })
    }

    /// A copy of a slice.
    pub fn from_slice(alloc: Global, bytes: &[u8]) -> Result<Bytes, AllocError>
        ensures { IfOk result (λ b. b ≡ bytes.now) }
    {
        Bytes::new(alloc, Vec::from_slice(alloc, bytes)?)
    }

    /// Returns the bytes.
    pub fn as_slice(&self) -> &[u8]
        ensures { result.now ≡ self.now }
    {
        self.shared.as_slice()
    }
}

impl Clone for Bytes {
    ghost is_clone = { λ b copy. copy ≡ b };

    fn clone(&self) -> Result<Bytes, AllocError> {
        Ok(Bytes {
            shared: self.shared.clone()?,
        })
    }
}
