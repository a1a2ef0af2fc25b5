ghost use Rattle.std.specs.Prelude.{◌≡◌, true, IfOk, Err};
ghost use Rattle.path_keys.specs.Paths.{is_key};
ghost use Rattle.list_walk.specs.Walks as walks;
ghost use Rattle.bucket_ops.specs.Asks.{request_of};
ghost use Rattle.fs_tree.specs.Changes.{parent, marker_if};
ghost use Rattle.fs_tree.specs.declared.answers.FsRefusal.TheVariants.{NoSuchBucket};
ghost use Rattle.fs_ops.specs.code.Delete as delete;
ghost use Rattle.fs_ops.specs.code.Delete.{on_here, inside, on_inside, on_below, on_sweep, on_parent, up};
ghost use Rattle.bucket_ops.specs.Walking.{fits};
ghost use Rattle.bucket_ops.specs.Sweeping.{sweep_asks};
ghost use Rattle.fs_ops.specs.code.Steps.{goes_by};

use crate::place::{Place, first_key, put_empty};
use bucket_ops::{Look, Phases, fits, seen_in};
use dir_markers::after_delete;
use fs_tree::FsRefusal;
use list_walk::{AllKeys, text_of};
use operations::Step;
use path_keys::S3Path;
use s3_types::{Bucket, Key, PageEntry, PageLimit, Reply, Request, Text, let_go};
use std::alloc::{AllocError, Global};
use std::marker::Model;

/// What exists below a path.
#[derive(Clone, Copy)]
pub enum Inside {
    Empty,
    /// The directory's marker, and nothing else.
    MarkerAlone,
    Children,
}

/// The stage of a deletion.
#[derive(Drop)]
pub enum DeleteStage {
    /// Asks whether a file exists at the path.
    Here,
    /// Deletes the file.
    DropFile,
    /// Asks what exists below the path.
    Below,
    /// Deletes the marker of an empty directory.
    DropMarker,
    /// Lists and deletes all keys below the path.
    Sweep(list_walk::Sweep),
    /// Asks whether anything is left below the directory above, which has this marker.
    Parent(Key),
    /// Puts this marker of the directory above.
    PutMarker(Key),
}

/// Deletes a path: a file, an empty directory, or, if `recursive` is set, a directory with all that
/// is below it. Then it puts the marker of the directory above, if that is left empty and is not
/// the root. (Hadoop FileSystem specification, delete.)
///
/// The answer is one of these refusals, after which nothing has changed:
///
/// - `NoSuchBucket`, before all others, if there is no bucket.
/// - `IsRoot` for the root.
/// - `NotFound` if nothing exists at the path.
/// - `NotEmpty` if the deletion is not recursive and anything but the directory's marker exists
///   below it.
///
/// It sends at most five requests, and for a recursive deletion one page and one batch more for
/// each 1,000 keys.
#[derive(Drop)]
pub struct DeletePath {
    alloc: Global,
    place: Place,
    above: Option<Key>,
    recursive: bool,
}

impl Model for DeletePath {
    ghost use Rattle.std.specs.Prelude.{◌≡◌};
    ghost use Rattle.fs_tree.specs.Changes.{parent, marker_if};
    ghost use Rattle.fs_ops.specs.code.Delete.{Deletion};

    ghost Value = { Deletion };

    ghost view = { λ o. record { path = o.place; recursive = o.recursive } };

    ghost invariant = { λ o. o.above ≡ marker_if (parent o.place) };
}

type Answer = Result<(), FsRefusal>;

/// What the first two entries below a path show.
fn first_below(prefix: &Text, entries: &[PageEntry]) -> Inside
    ensures { result ≡ inside prefix.now entries.now }
{
    match entries.first() {
        None => Inside::Empty,
        Some(entry) => {
            if entries.len() == 1 && text_of(entry) == prefix {
                Inside::MarkerAlone
            } else {
                Inside::Children
            }
        }
    }
}

fn on_parent(marker: Key, seen: Look) -> Step<DeleteStage, Answer>
    ensures { result ≡ on_parent marker seen }
{
    match seen {
        Look::There => Step::End(Ok(())),
        _ => Step::Next(DeleteStage::PutMarker(marker)),
    }
}

impl DeletePath {
    /// The deletion of a path of a bucket; if `recursive` is set, with all that is below it.
    pub fn new(alloc: Global, path: &S3Path, recursive: bool) -> Result<DeletePath, AllocError>
        ensures deletion { IfOk result (λ deletion. deletion ≡ record { path = path.now.key; recursive = recursive }) }
        ensures key { IfOk result (λ deletion. is_key deletion.path ≡ true) }
    {
        let place = Place::of(alloc, path)?;
        let Ok(above) = marker_above(alloc, path) else {
            let_go(place);
            return Err(AllocError);
        };
        Ok(DeletePath {
            alloc,
            place,
            above,
            recursive,
        })
    }

    fn up(&self) -> Result<Step<DeleteStage, Answer>, AllocError>
        ensures { IfOk result (λ step. step ≡ up self.now) }
    {
        match &self.above {
            Some(marker) => Ok(Step::Next(DeleteStage::Parent(marker.clone()?))),
            None => Ok(Step::End(Ok(()))),
        }
    }

    fn on_here(&self, seen: Look) -> Step<DeleteStage, Answer>
        ensures { result ≡ on_here self.now.path seen }
    {
        if self.place.is_root() {
            return Step::End(Err(FsRefusal::IsRoot));
        }
        match seen {
            Look::There => Step::Next(DeleteStage::DropFile),
            _ => Step::Next(DeleteStage::Below),
        }
    }

    fn on_inside(&self, inside: Inside) -> Step<DeleteStage, Answer>
        ensures { result ≡ on_inside self.now.recursive inside }
    {
        match inside {
            Inside::Empty => Step::End(Err(FsRefusal::NotFound)),
            Inside::MarkerAlone => Step::Next(DeleteStage::DropMarker),
            Inside::Children => {
                if self.recursive {
                    Step::Next(DeleteStage::Sweep(list_walk::Sweep::new(self.alloc)))
                } else {
                    Step::End(Err(FsRefusal::NotEmpty))
                }
            }
        }
    }

    fn on_below(&self, reply: &Reply) -> Step<DeleteStage, Answer>
        ensures { result ≡ on_below self.now reply.now }
    {
        match reply {
            Reply::Page { entries, .. } => {
                self.on_inside(first_below(self.place.prefix(), entries.as_slice()))
            }
            _ => self.on_inside(Inside::Empty),
        }
    }

    fn on_sweep(
        &self,
        sweep: list_walk::Sweep,
        reply: &Reply,
    ) -> Result<Step<DeleteStage, Answer>, AllocError>
        ensures { IfOk result (λ step. step ≡ on_sweep self.now sweep reply.now (fits reply.now)) }
    {
        let mut sweep = sweep;
        if !fits(reply) {
            return Ok(Step::Next(DeleteStage::Sweep(sweep)));
        }
        let Ok(more) = sweep.hear(self.alloc, &AllKeys, reply) else {
            let_go(sweep);
            return Err(AllocError);
        };
        if more {
            return Ok(Step::Next(DeleteStage::Sweep(sweep)));
        }
        let_go(sweep);
        self.up()
    }
}

impl Phases for DeletePath {
    type Stage = DeleteStage;

    type Answer = Result<(), FsRefusal>;

    ghost first = { delete.first };

    ghost asks = { delete.asks };

    ghost goes = { goes_by delete.on };

    ghost holds = { delete.holds };

    ghost gives = { delete.gives };

    ghost always = { delete.always };

    ghost sends = { delete.sends };

    ghost left = { delete.left };

    ghost absent = { Err NoSuchBucket };

    fn start(&self) -> DeleteStage {
        DeleteStage::Here
    }

    fn ask(&self, bucket: &Bucket, stage: &DeleteStage) -> Result<Request, AllocError> {
        match stage {
            DeleteStage::Here => self.place.look(bucket),
            DeleteStage::DropFile => self.place.drop_file(bucket),
            DeleteStage::Below => self.place.below(bucket, PageLimit::new(2)),
            DeleteStage::DropMarker => self.place.drop_marker(bucket),
            DeleteStage::Sweep(sweep) => sweep.request(self.alloc, bucket, self.place.prefix()),
            DeleteStage::Parent(marker) => first_key(self.alloc, bucket, marker.as_text()),
            DeleteStage::PutMarker(marker) => put_empty(self.alloc, bucket, marker),
        }
    }

    fn next(
        &self,
        stage: DeleteStage,
        reply: &Reply,
    ) -> Result<Step<DeleteStage, Answer>, AllocError> {
        let seen = seen_in(reply);
        if let Look::NoBucket = seen {
            let_go(stage);
            return Ok(Step::End(Err(FsRefusal::NoSuchBucket)));
        }
        match stage {
            DeleteStage::Here => Ok(self.on_here(seen)),
            DeleteStage::DropFile => self.up(),
            DeleteStage::Below => Ok(self.on_below(reply)),
            DeleteStage::DropMarker => self.up(),
            DeleteStage::Sweep(sweep) => self.on_sweep(sweep, reply),
            DeleteStage::Parent(marker) => Ok(on_parent(marker, seen)),
            DeleteStage::PutMarker(_) => Ok(Step::End(Ok(()))),
        }
    }

    #[tactic(auto, using(crate::proofs::DeleteLaws::delete_laws))]
    fn laws() {}
}

/// The marker of the directory above a path, unless that directory is the root.
pub fn marker_above(alloc: Global, path: &S3Path) -> Result<Option<Key>, AllocError>
    ensures { IfOk result (λ marker. marker ≡ marker_if (parent path.now.key)) }
{
    match path.parent(alloc)? {
        Some(parent) => after_delete(alloc, &parent, false),
        None => Ok(None),
    }
}
