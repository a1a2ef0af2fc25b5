ghost use Rattle.std.specs.Prelude.{◌≡◌, IfOk, Err};
ghost use Rattle.fs_tree.specs.Answers.{Stats};
ghost use Rattle.fs_tree.specs.declared.answers.FsRefusal.TheVariants.{NoSuchBucket};
ghost use Rattle.fs_ops.specs.code.AtPath as path;
ghost use Rattle.fs_ops.specs.code.Stat as stat;
ghost use Rattle.fs_ops.specs.code.Steps.{goes_by, IsStill, OnlyLooks};

use crate::at_path::{PathStage, heard};
use crate::place::Place;
use bucket_ops::{Phases, seen_in};
use dir_markers::Status;
use fs_tree::FsRefusal;
use operations::Step;
use path_keys::S3Path;
use s3_types::{Bucket, PageLimit, Reply, Request};
use std::alloc::{AllocError, Global};
use std::marker::Model;

/// Looks up the status of a path, with at most two requests. It is refused with `NoSuchBucket` if
/// there is no bucket, and with `NotFound` if nothing exists at the path. Nothing changes. (Hadoop
/// FileSystem specification, getFileStatus.)
#[derive(Drop)]
pub struct Stat {
    place: Place,
}

impl Model for Stat {
    ghost use Rattle.std.specs.Prelude.{ℕ, List};

    ghost Value = { List ℕ };

    ghost view = { λ o. o.place };
}

type Answer = Result<Status, FsRefusal>;

/// The status of the file that a reply shows, if it shows one.
fn status_in(reply: &Reply) -> Option<Status>
    ensures { result ≡ stat.status_in reply.now }
{
    match reply {
        Reply::Head { length, .. } => Some(Status::File(*length)),
        _ => None,
    }
}

impl Stat {
    /// The operation that looks up the status of a path of a bucket.
    pub fn new(alloc: Global, path: &S3Path) -> Result<Stat, AllocError>
        ensures { IfOk result (λ stat. stat ≡ path.now.key) }
    {
        let place = Place::of(alloc, path)?;
        Ok(Stat { place })
    }
}

impl Phases for Stat {
    type Stage = PathStage;

    type Answer = Result<Status, FsRefusal>;

    ghost first = { path.first };

    ghost asks = { stat.asks };

    ghost goes = { goes_by stat.on };

    ghost holds = { path.holds };

    ghost gives = { Stats };

    ghost always = { IsStill };

    ghost sends = { OnlyLooks };

    ghost left = { path.left };

    ghost absent = { Err NoSuchBucket };

    fn start(&self) -> PathStage {
        PathStage::Here
    }

    fn ask(&self, bucket: &Bucket, stage: &PathStage) -> Result<Request, AllocError> {
        match stage {
            PathStage::Here => self.place.look(bucket),
            PathStage::Below => self.place.below(bucket, PageLimit::new(1)),
        }
    }

    fn next(&self, stage: PathStage, reply: &Reply) -> Result<Step<PathStage, Answer>, AllocError> {
        let status = status_in(reply);
        Ok(heard(
            &self.place,
            stage,
            seen_in(reply),
            status,
            Ok(Status::Directory),
        ))
    }

    #[tactic(auto, using(crate::proofs::StatLaws::stat_laws, crate::proofs::StatLaws::stat_asked))]
    fn laws() {}
}
