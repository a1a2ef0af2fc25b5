ghost use Rattle.std.specs.Prelude.{◌≡◌, ℕ, ◌+◌, ◌*◌, ◌<◌, ◌≤◌, List, ◌++◌, length, IfOk, IsErrOf};
ghost use Rattle.s3_types.specs.declared.journal.Entry.{Entry};
ghost use Rattle.operations.specs.Performed.{Performed, seen};
ghost use Rattle.copy_tree.specs.Public.{CopiesIn, StandsCopied, CopySends, most_copies};

use crate::names::CopyNames;
use fs_rename::perform_between;
use fs_tree::{CopyCount, CopyRefusal};
use machine::DriveStop;
use path_keys::S3Path;
use s3_types::{Actor, Bucket, Journal, ObjectStore, both};
use std::alloc::{AllocError, Global};
use std::marker::Model;

/// How a copy of a tree ends: each key of the source has its copy, with the number of keys that
/// were copied and of those that were there already; or the copy is refused, or a request ran out
/// of retries, or memory ran out.
pub type CopyEnd = Result<Result<CopyCount, CopyRefusal>, DriveStop>;

/// The copy of all that is below a source to a target.
#[derive(Drop)]
pub struct CopyTree {
    bucket: Bucket,
    to_bucket: Bucket,
    names: CopyNames,
}

impl Model for CopyTree {
    ghost use Rattle.fs_rename.specs.Between.{Route};

    ghost Value = { Route };

    ghost view = { λ r. record {
      bucket = r.bucket;
      source = r.names.source;
      to_bucket = r.to_bucket;
      target = r.names.target;
    } };
}

impl CopyTree {
    /// The copy of all that is below a directory to a target in the same bucket.
    pub fn new(alloc: Global, source: &S3Path, target: &S3Path) -> Result<CopyTree, AllocError>
        ensures { IfOk result (λ copy. copy ≡ record {
          bucket = source.now.bucket;
          source = source.now.key;
          to_bucket = target.now.bucket;
          target = target.now.key;
        }) }
    {
        let buckets = both(source.bucket().clone(), target.bucket().clone());
        let ((bucket, to_bucket), names) = both(buckets, CopyNames::of(alloc, source, target))?;
        Ok(CopyTree {
            bucket,
            to_bucket,
            names,
        })
    }

    /// Copies all keys below the source, header included, with its own marker and the markers below
    /// it. The new key of a key has the same rest after the target's marker as the key has after
    /// the source's. Keys are copied one by one, in order. A new key that exists with the same
    /// bytes and header is left as it is. Returns how many keys were copied, and how many existed.
    /// (Hadoop FileSystem shell, cp.)
    ///
    /// The copy is refused, with nothing changed, by the first that applies:
    ///
    /// - `OtherBucket` if the target is in another bucket.
    /// - `NoSuchBucket`.
    /// - `Overlap` if one path is the other or below it.
    /// - `SourceIsFile`, and `SourceMissing` if no key is below the source.
    /// - `TargetFile` with the first path from the root down, of those above the target and its
    ///   own, at which a file exists.
    /// - `TooLong` with the first key of the source whose new key would be over its limit, which is
    ///   1,024 bytes for a marker and otherwise 1,023.
    /// - `Differs` with the least new key that exists with other bytes or another header than its
    ///   source.
    ///
    /// All of this is decided before anything is copied.
    ///
    /// At every point, whatever the store loses and wherever it stops, each new key that was absent
    /// is still absent or is the whole copy of its source, and all else is as it was. So the same
    /// copy can be made again, and ends as one that was never stopped.
    ///
    /// It sends a look at the source, a page for each 1,000 keys below both paths, a look at each
    /// path above the target and at its own, two reads for each new key that existed, and a copy
    /// for each other. The bound that is proved, `most_copies`, is looser. It takes memory for the
    /// keys and the new keys, and copies no bytes itself.
    pub fn perform<S: ObjectStore>(
        self,
        alloc: Global,
        retries: u32,
        store: &mut S,
        actor: Actor,
        event: u32,
        journal: &mut Journal,
    ) -> CopyEnd
        requires counted { S.requests store.old ≤ length journal.old.entries }
        ensures copies { IfOk result (λ answer. CopiesIn self (S.scene store.old) answer (S.scene store.new)) }
        ensures performed { Performed actor event retries (StandsCopied self (S.scene store.old))
            (CopySends self (S.scene store.old))
            (seen S.scene S.requests S.losses S.foretold store.old journal.old.entries)
            (seen S.scene S.requests S.losses S.foretold store.new journal.new.entries) result }
        ensures fault { IsErrOf result DriveStop.StoreFault → S.losses store.old < S.losses store.new }
        ensures few { (part : List Entry) → journal.new.entries ≡ journal.old.entries ++ part
            → length part ≤ most_copies self (S.scene store.old) * (retries + 1) }
        ensures unsent { (self.bucket ≡ self.to_bucket → ⊥) → journal.new.entries ≡ journal.old.entries }
    {
        let CopyTree {
            bucket,
            to_bucket,
            names,
        } = self;
        let refused = Err(CopyRefusal::OtherBucket);
        perform_between(
            alloc, bucket, to_bucket, names, refused, retries, store, actor, event, journal,
        )
    }
}
