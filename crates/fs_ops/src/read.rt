ghost use Rattle.std.specs.Prelude.{◌≡◌, IfOk, Err};
ghost use Rattle.fs_tree.specs.Answers.{Reads};
ghost use Rattle.fs_tree.specs.declared.answers.FsRefusal.TheVariants.{NoSuchBucket};
ghost use Rattle.fs_ops.specs.code.AtPath as path;
ghost use Rattle.fs_ops.specs.code.Read as read;
ghost use Rattle.fs_ops.specs.code.Steps.{goes_by, IsStill, OnlyLooks};

use crate::at_path::{PathStage, heard};
use crate::place::Place;
use bucket_ops::{Phases, seen_in};
use fs_tree::FsRefusal;
use operations::Step;
use path_keys::S3Path;
use s3_types::{Bucket, Bytes, PageLimit, Reply, Request};
use std::alloc::{AllocError, Global};
use std::marker::Model;

/// Reads the bytes of a file, with at most two requests. (Hadoop FileSystem specification, open.)
///
/// The answer is refused with `NoSuchBucket` if there is no bucket, with `IsDirectory` if a
/// directory exists at the path, and with `NotFound` if nothing does. Nothing changes. The bytes
/// are shared and not copied.
#[derive(Drop)]
pub struct ReadFile {
    place: Place,
}

impl Model for ReadFile {
    ghost use Rattle.std.specs.Prelude.{ℕ, List};

    ghost Value = { List ℕ };

    ghost view = { λ o. o.place };
}

type Answer = Result<Bytes, FsRefusal>;

/// The bytes in a reply, if it has any.
fn bytes_in(reply: &Reply) -> Result<Option<Bytes>, AllocError>
    ensures { IfOk result (λ bytes. bytes ≡ read.bytes_in reply.now) }
{
    match reply {
        Reply::Object { bytes, .. } => Ok(Some(bytes.clone()?)),
        _ => Ok(None),
    }
}

impl ReadFile {
    /// The operation that reads the file at a path of a bucket.
    pub fn new(alloc: Global, path: &S3Path) -> Result<ReadFile, AllocError>
        ensures { IfOk result (λ file. file ≡ path.now.key) }
    {
        let place = Place::of(alloc, path)?;
        Ok(ReadFile { place })
    }
}

impl Phases for ReadFile {
    type Stage = PathStage;

    type Answer = Result<Bytes, FsRefusal>;

    ghost first = { path.first };

    ghost asks = { read.asks };

    ghost goes = { goes_by read.on };

    ghost holds = { path.holds };

    ghost gives = { Reads };

    ghost always = { IsStill };

    ghost sends = { OnlyLooks };

    ghost left = { path.left };

    ghost absent = { Err NoSuchBucket };

    fn start(&self) -> PathStage {
        PathStage::Here
    }

    fn ask(&self, bucket: &Bucket, stage: &PathStage) -> Result<Request, AllocError> {
        match stage {
            PathStage::Here => self.place.get(bucket),
            PathStage::Below => self.place.below(bucket, PageLimit::new(1)),
        }
    }

    fn next(&self, stage: PathStage, reply: &Reply) -> Result<Step<PathStage, Answer>, AllocError> {
        let bytes = bytes_in(reply)?;
        Ok(heard(
            &self.place,
            stage,
            seen_in(reply),
            bytes,
            Err(FsRefusal::IsDirectory),
        ))
    }

    #[tactic(auto, using(crate::proofs::ReadLaws::read_laws, crate::proofs::ReadLaws::read_asked))]
    fn laws() {}
}
