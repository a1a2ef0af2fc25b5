ghost use Rattle.std.specs.Prelude.{◌≡◌, ℕ, List, Result, IfOk};
ghost use Rattle.s3_types.specs.Store.{Objects};
ghost use Rattle.s3_types.specs.declared.reply.PageEntry.{PageEntry};
ghost use Rattle.bucket_ops.specs.Asks.{Ask, request_of};
ghost use Rattle.fs_tree.specs.declared.answers.FsRefusal.{FsRefusal};
ghost use Rattle.marker_tool.specs.code.Work.{IsWork};

use s3_types::{Bucket, Key, KeyList, PageEntry, Request, Text};
use std::alloc::{AllocError, Global};

/// The work found to do below a directory: the keys to change, and the answer to give then.
#[derive(Drop)]
pub struct Found<A> {
    pub keys: KeyList,
    pub answer: A,
}

/// What the marker tool does below a directory after all keys there were listed: it changes some
/// keys, the first ones first, and then it answers.
pub trait TreePass: Drop {
    type Answer: Drop;

    /// The keys to change, from the prefix of the keys below the path and all entries there.
    ghost keys: { List ℕ → List PageEntry → List (List ℕ) };

    /// The answer, from the same.
    ghost answer: { List ℕ → List PageEntry → Self.Answer };

    /// The most keys that one request changes.
    ghost batch: { ℕ };

    /// The request that changes the first of the keys that are left.
    ghost changes: { List (List ℕ) → Ask };

    /// The objects after these keys were changed.
    ghost changed: { Objects → List (List ℕ) → Objects };

    /// Holds if the work, begun with the first objects, may give this answer and leave the second.
    ghost gives: { List ℕ → Objects → Result Self.Answer FsRefusal → Objects → Type 0 };

    /// Holds if the work, begun with the first objects, may leave the second at any point.
    ghost always: { List ℕ → Objects → Objects → Type 0 };

    /// Holds if the work, begun with these objects, may send this request.
    ghost sends: { List ℕ → Objects → Ask → Type 0 };

    /// Makes the work. Takes no memory.
    fn of() -> Self;

    /// The most keys that one request changes. Takes no memory.
    fn batch(&self) -> usize
        ensures { result ≡ batch };

    /// Finds the work to do below a path with this prefix, given all entries there.
    fn find(
        &self,
        alloc: Global,
        prefix: &Text,
        entries: &[PageEntry],
    ) -> Result<Found<Self::Answer>, AllocError>
        ensures keys { IfOk result (λ found. found.keys ≡ keys prefix.now entries.now) }
        ensures answer { IfOk result (λ found. found.answer ≡ answer prefix.now entries.now) };

    /// The request that changes the first of the keys that are left.
    fn change(&self, alloc: Global, bucket: &Bucket, left: &[Key]) -> Result<Request, AllocError>
        ensures { IfOk result (λ request. request ≡ request_of bucket.now (changes left.now)) };

    /// Proves what the work must fulfil. Does nothing.
    fn laws()
        ensures { IsWork keys answer batch changes changed gives always sends };
}
