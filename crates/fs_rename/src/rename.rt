ghost use Rattle.std.specs.Prelude.{◌≡◌, ℕ, ◌+◌, ◌*◌, ◌<◌, ◌≤◌, List, ◌++◌, length, IfOk, IsErrOf};
ghost use Rattle.s3_types.specs.declared.journal.Entry.{Entry};
ghost use Rattle.operations.specs.Performed.{Performed, seen};
ghost use Rattle.fs_rename.specs.Public.{RenamesIn, StandsWhole, RenameSends, most_moves};

use crate::names::RenameNames;
use crate::perform_between;
use fs_tree::RenameRefusal;
use machine::DriveStop;
use path_keys::S3Path;
use s3_types::{Actor, Bucket, Journal, ObjectStore, both};
use std::alloc::{AllocError, Global};
use std::marker::Model;

/// How a rename ends: the source is at its new place, or the rename is refused, or a request ran
/// out of retries, or memory ran out.
pub type RenameEnd = Result<Result<(), RenameRefusal>, DriveStop>;

/// The rename of a source to a target.
#[derive(Drop)]
pub struct Rename {
    bucket: Bucket,
    to_bucket: Bucket,
    names: RenameNames,
}

impl Model for Rename {
    ghost use Rattle.std.specs.Prelude.{◌≡◌, true};
    ghost use Rattle.path_keys.specs.Paths.{is_key};
    ghost use Rattle.fs_rename.specs.Between.{Route};

    ghost Value = { Route };

    ghost view = { λ r. record {
      bucket = r.bucket;
      source = r.names.source;
      to_bucket = r.to_bucket;
      target = r.names.target;
    } };

    ghost invariant = { λ r. (is_key r.names.source ≡ true) × (is_key r.names.target ≡ true) };
}

impl Rename {
    /// The rename of a file, or of a directory with all that is below it, to a target, or into the
    /// target if that is a directory.
    pub fn new(alloc: Global, source: &S3Path, target: &S3Path) -> Result<Rename, AllocError>
        ensures { IfOk result (λ rename. rename ≡ record {
          bucket = source.now.bucket;
          source = source.now.key;
          to_bucket = target.now.bucket;
          target = target.now.key;
        }) }
    {
        let buckets = both(source.bucket().clone(), target.bucket().clone());
        let ((bucket, to_bucket), names) = both(buckets, RenameNames::of(alloc, source, target))?;
        Ok(Rename {
            bucket,
            to_bucket,
            names,
        })
    }

    /// Renames the source. The new place is the target, or, if a directory exists there, the path
    /// inside it that has the source's last element. The keys of the source are that of its file,
    /// or all below its directory with its marker. They are copied to the new place one by one in
    /// their order, and then deleted. Then the marker of the directory above is put, if that is
    /// left empty and is not the root. (Hadoop FileSystem specification, rename.)
    ///
    /// The rename is refused, with nothing changed, by the first that applies:
    ///
    /// - `OtherBucket` if the target is in another bucket.
    /// - `NoSuchBucket`, `SourceRoot`, `SourceMissing`.
    /// - `UnderSource` if the target is the source or below it.
    /// - `TargetFile` if a file exists at the target, or at the place inside it.
    /// - `TargetExists` if a directory exists at the place inside the target.
    /// - `ParentIsFile` and `ParentMissing`, if nothing exists at the target, for what exists above
    ///   it.
    /// - `TooLong` with the first key of the source whose new key would be over its limit, which is
    ///   1,024 bytes for a marker and otherwise 1,023.
    ///
    /// At every point, whatever the store loses and wherever it stops, each file of the source is
    /// whole at its old or at its new place, and each other file is as it was.
    ///
    /// It sends at most six looks, a page and a batch for each 1,000 keys, a copy for each key, and
    /// two requests more. The bound that is proved, `most_moves`, is looser. It takes memory for
    /// the keys and the new keys.
    pub fn perform<S: ObjectStore>(
        self,
        alloc: Global,
        retries: u32,
        store: &mut S,
        actor: Actor,
        event: u32,
        journal: &mut Journal,
    ) -> RenameEnd
        requires counted { S.requests store.old ≤ length journal.old.entries }
        ensures renames { IfOk result (λ answer. RenamesIn self (S.scene store.old) answer (S.scene store.new)) }
        ensures performed { Performed actor event retries (StandsWhole self (S.scene store.old))
            (RenameSends self (S.scene store.old))
            (seen S.scene S.requests S.losses S.foretold store.old journal.old.entries)
            (seen S.scene S.requests S.losses S.foretold store.new journal.new.entries) result }
        ensures fault { IsErrOf result DriveStop.StoreFault → S.losses store.old < S.losses store.new }
        ensures few { (part : List Entry) → journal.new.entries ≡ journal.old.entries ++ part
            → length part ≤ most_moves self (S.scene store.old) * (retries + 1) }
        ensures unsent { (self.bucket ≡ self.to_bucket → ⊥) → journal.new.entries ≡ journal.old.entries }
    {
        let Rename {
            bucket,
            to_bucket,
            names,
        } = self;
        let refused = Err(RenameRefusal::OtherBucket);
        perform_between(
            alloc, bucket, to_bucket, names, refused, retries, store, actor, event, journal,
        )
    }
}
