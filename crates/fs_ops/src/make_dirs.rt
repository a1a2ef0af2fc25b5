ghost use Rattle.std.specs.Prelude.{◌≡◌, IfOk, Err};
ghost use Rattle.fs_tree.specs.Answers.{Makes};
ghost use Rattle.fs_tree.specs.declared.answers.FsRefusal.TheVariants.{NoSuchBucket};
ghost use Rattle.fs_ops.specs.code.Make as make;
ghost use Rattle.fs_ops.specs.code.Make.{on_climb, on_here, on_below};
ghost use Rattle.fs_ops.specs.code.Steps.{goes_by};

use crate::above::keys_above;
use crate::climb::{Climb, Climbed};
use crate::place::Place;
use bucket_ops::{Look, Phases, seen_in};
use fs_tree::FsRefusal;
use operations::Step;
use path_keys::S3Path;
use s3_types::{Bucket, KeyList, PageLimit, Reply, Request, copied_keys, let_go};
use std::alloc::{AllocError, Global};
use std::marker::Model;

/// The stage of making a directory.
#[derive(Drop)]
pub enum MakeStage {
    /// Asks whether a file exists at the path.
    Here,
    /// Asks whether anything exists below it.
    Below,
    /// Asks whether a file exists at one of the directories above.
    Up(Climb),
    /// Puts the marker.
    PutMarker,
}

/// Makes a directory: puts its marker if nothing exists at the path, and changes nothing if a
/// directory exists. (Hadoop FileSystem specification, mkdirs.)
///
/// The answer is refused with `NoSuchBucket` if there is no bucket, and with `AlreadyExists` if a
/// file exists at the path. It is refused with `NotDirectory` and the key of the first directory
/// above, from the root down, at which a file exists. Nothing has changed then. It sends one
/// request for each directory above, and three more.
#[derive(Drop)]
pub struct MakeDirs {
    alloc: Global,
    place: Place,
    above: KeyList,
}

impl Model for MakeDirs {
    ghost use Rattle.std.specs.Prelude.{◌≡◌, ℕ, List};
    ghost use Rattle.dir_markers.specs.Markers.{keys_above};

    ghost Value = { List ℕ };

    ghost view = { λ o. o.place };

    ghost invariant = { λ o. o.above ≡ keys_above o.place };
}

type Answer = Result<(), FsRefusal>;

fn on_climb(climbed: Climbed) -> Step<MakeStage, Answer>
    ensures { result ≡ on_climb climbed }
{
    match climbed {
        Climbed::File(key) => Step::End(Err(FsRefusal::NotDirectory(key))),
        Climbed::On(climb) => Step::Next(MakeStage::Up(climb)),
        Climbed::Free => Step::Next(MakeStage::PutMarker),
    }
}

impl MakeDirs {
    /// The operation that makes the directory at a path of a bucket.
    pub fn new(alloc: Global, path: &S3Path) -> Result<MakeDirs, AllocError>
        ensures { IfOk result (λ dirs. dirs ≡ path.now.key) }
    {
        let place = Place::of(alloc, path)?;
        let Ok(above) = keys_above(alloc, path.key().as_str()) else {
            let_go(place);
            return Err(AllocError);
        };
        Ok(MakeDirs {
            alloc,
            place,
            above,
        })
    }

    fn on_here(&self, seen: Look) -> Step<MakeStage, Answer>
        ensures { result ≡ on_here self.now seen }
    {
        if self.place.is_root() {
            return Step::End(Ok(()));
        }
        match seen {
            Look::There => Step::End(Err(FsRefusal::AlreadyExists)),
            _ => Step::Next(MakeStage::Below),
        }
    }

    fn on_below(&self, seen: Look) -> Result<Step<MakeStage, Answer>, AllocError>
        ensures { IfOk result (λ step. step ≡ on_below self.now seen) }
    {
        match seen {
            Look::There => Ok(Step::End(Ok(()))),
            _ => Ok(on_climb(Climb::over(copied_keys(self.alloc, &self.above)?))),
        }
    }
}

impl Phases for MakeDirs {
    type Stage = MakeStage;

    type Answer = Result<(), FsRefusal>;

    ghost first = { make.first };

    ghost asks = { make.asks };

    ghost goes = { goes_by make.on };

    ghost holds = { make.holds };

    ghost gives = { Makes };

    ghost always = { make.always };

    ghost sends = { make.sends };

    ghost left = { make.left };

    ghost absent = { Err NoSuchBucket };

    fn start(&self) -> MakeStage {
        MakeStage::Here
    }

    fn ask(&self, bucket: &Bucket, stage: &MakeStage) -> Result<Request, AllocError> {
        match stage {
            MakeStage::Here => self.place.look(bucket),
            MakeStage::Below => self.place.below(bucket, PageLimit::new(1)),
            MakeStage::Up(climb) => climb.request(bucket),
            MakeStage::PutMarker => self.place.put_marker(bucket),
        }
    }

    fn next(&self, stage: MakeStage, reply: &Reply) -> Result<Step<MakeStage, Answer>, AllocError> {
        let seen = seen_in(reply);
        if let Look::NoBucket = seen {
            return Ok(Step::End(Err(FsRefusal::NoSuchBucket)));
        }
        match stage {
            MakeStage::Here => Ok(self.on_here(seen)),
            MakeStage::Below => self.on_below(seen),
            MakeStage::Up(climb) => Ok(on_climb(climb.hear(seen)?)),
            MakeStage::PutMarker => Ok(Step::End(Ok(()))),
        }
    }

    #[tactic(auto, using(crate::proofs::MakeLaws::make_laws, crate::proofs::MakeLaws::make_asked))]
    fn laws() {}
}
