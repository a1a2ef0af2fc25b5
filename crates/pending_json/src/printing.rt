ghost use Rattle.std.specs.Prelude.{◌≡◌, true, Some, [], IfOk};
ghost use Rattle.serde.specs.Event.{Log};
ghost use Rattle.serde_json.specs.Sent.{IsTextOf};
ghost use Rattle.serde_json.specs.Written.{compact_text};
ghost use Rattle.pending_json.specs.Trees.{pending_tree, set_tree, success_tree};

use crate::pending::PendingUpload;
use crate::records::{PendingSet, SuccessMark};
use s3_types::Bytes;
use serde::Serialize;
use std::alloc::{AllocError, Global};

/// True if the record prints as this text. False also if memory runs out.
pub fn prints<T: Serialize>(alloc: Global, item: &T, bytes: &[u8]) -> bool
    ensures { result ≡ true → (log : Log) × T.writes item.now (Some []) log × IsTextOf log bytes.now }
{
    match serde_json::to_vec(alloc, item) {
        Ok(text) => text.as_slice() == bytes,
        Err(_) => false,
    }
}

/// The text of the record. It uses no more memory than it needs, since stores and journals keep it.
fn written<T: Serialize>(alloc: Global, value: &T) -> Result<Bytes, AllocError>
    ensures { IfOk result (λ b. (log : Log) × T.writes value.now (Some []) log × IsTextOf log b) }
{
    match serde_json::to_vec(alloc, value) {
        Ok(mut text) => {
            text.shrink_to_fit();
            Bytes::new(alloc, text)
        }
        Err(_) => Err(AllocError),
    }
}

impl PendingUpload {
    /// The one text of the record: JSON without blanks, its members in the byte order of their
    /// names.
    pub fn print(&self, alloc: Global) -> Result<Bytes, AllocError>
        ensures { IfOk result (λ b. b ≡ compact_text (pending_tree self.now)) }
    {
        written(alloc, self)
    }
}

impl PendingSet {
    /// The one text of the record: JSON without blanks, its members in the byte order of their
    /// names.
    pub fn print(&self, alloc: Global) -> Result<Bytes, AllocError>
        ensures { IfOk result (λ b. b ≡ compact_text (set_tree self.now)) }
    {
        written(alloc, self)
    }
}

impl SuccessMark {
    /// The one text of the record: JSON without blanks, its members in the byte order of their
    /// names.
    pub fn print(&self, alloc: Global) -> Result<Bytes, AllocError>
        ensures { IfOk result (λ b. b ≡ compact_text (success_tree self.now)) }
    {
        written(alloc, self)
    }
}
