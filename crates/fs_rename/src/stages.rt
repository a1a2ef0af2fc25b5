ghost use Rattle.std.specs.Prelude.{◌≡◌, ◌∷◌, [], false, Some, IfOk, Ok, Err};
ghost use Rattle.std.specs.Option.{option_copied};
ghost use Rattle.bucket_ops.specs.Asks.{request_of};
ghost use Rattle.bucket_ops.specs.Looks.{look_of};
ghost use Rattle.list_walk.specs.Walks.{deleting};
ghost use Rattle.fs_tree.specs.declared.rename.RenameRefusal.TheVariants.{NoSuchBucket, TooLong};
ghost use Rattle.operations.specs.declared.plan.Step.TheVariants.{End};
ghost use Rattle.fs_ops.specs.code.Delete.{entries_in};
ghost use Rattle.fs_ops.specs.Places.{key_if};
ghost use Rattle.bucket_ops.specs.Walking.{fits};
ghost use Rattle.fs_rename.specs.Keys.{fitting};
ghost use Rattle.fs_rename.specs.inner.Rename.{first_is, seen_inside, seen_at, kind_of, looked, with_places, listed_to, on_walked, on_walk, up, swept, on_copied, on_batch, on_parent, on, goes, is_root_at};
ghost use Rattle.fs_rename.specs.code.Rename.{one_copy, file_to, place_at, go, begun, on_kind, on_source, on_target, on_inside, on_above, found, first, asks, is_root};
ghost use Rattle.fs_rename.specs.inner.Meaning.{holds, gives, always, sends, left};

use crate::names::RenameNames;
use crate::{Base, CopyStep, Copying};
use bucket_ops::{Look, Phases, fits, seen_in};
use fs_ops::{first_key, put_empty};
use fs_tree::RenameRefusal;
use list_walk::{AllKeys, KeyWalk, Sweep, text_of};
use operations::Step;
use s3_types::{Bucket, Key, KeyList, PageEntry, Reply, Request, Text, both, let_go};
use std::alloc::{AllocError, Global};

/// The paths at which a rename looks: the source, the target, the new place inside the target, and
/// the path above the target.
#[derive(Clone, Copy)]
pub enum Spot {
    Source,
    Target,
    Inside,
    Above,
}

/// What exists at a path.
#[derive(Clone, Copy)]
pub enum Kind {
    File,
    Directory,
    Nothing,
}

/// The stage of a rename.
#[derive(Drop)]
pub enum RenameStage {
    /// Asks whether a file exists at `spot`, or, if `below`, whether anything exists below it.
    /// `directory` is true if the source is known to be a directory.
    Look {
        spot: Spot,
        below: bool,
        directory: bool,
    },
    /// Lists the keys below the source, for a new place inside the target or at it.
    Walk {
        inside: bool,
        walk: KeyWalk,
    },
    /// Copies the keys to their new keys.
    Copy(Copying),
    /// Deletes the old keys.
    Batch(Sweep),
    /// Asks whether anything is left below the directory above the source, which has this marker.
    Parent(Key),
    /// Puts the marker of the directory above the source.
    PutMarker(Key),
}

type Answer = Result<(), RenameRefusal>;

/// Shows whether the first of these entries is the path itself.
fn first_is(path: &Text, entries: &[PageEntry]) -> Look
    ensures { result ≡ first_is path.now entries.now }
{
    match entries.first() {
        Some(entry) => {
            if text_of(entry) == path {
                Look::There
            } else {
                Look::Nothing
            }
        }
        None => Look::Nothing,
    }
}

/// What a reply shows of the new place inside the target.
fn seen_inside(base: &Base, below: bool, reply: &Reply, seen: Look) -> Look
    requires { seen ≡ look_of reply.now }
    ensures { result ≡ seen_inside (Some base.now) below reply.now }
{
    if below {
        return seen;
    }
    match reply {
        Reply::Page { entries, .. } => first_is(base.path(), entries.as_slice()),
        _ => Look::Nothing,
    }
}

/// What exists at a path, if that is known after this look.
fn kind_of(root: bool, below: bool, seen: Look) -> Option<Kind>
    ensures { result ≡ kind_of root below seen }
{
    if root {
        return Some(Kind::Directory);
    }
    match (below, seen) {
        (false, Look::There) => Some(Kind::File),
        (false, _) => None,
        (true, Look::There) => Some(Kind::Directory),
        (true, _) => Some(Kind::Nothing),
    }
}

fn begun(under: bool, directory: bool) -> Step<RenameStage, Answer>
    ensures { result ≡ begun under directory }
{
    if under {
        Step::End(Err(RenameRefusal::UnderSource))
    } else {
        Step::Next(RenameStage::Look {
            spot: Spot::Target,
            below: false,
            directory,
        })
    }
}

fn on_kind(under: bool, kind: Kind) -> Step<RenameStage, Answer>
    ensures { result ≡ on_kind under kind }
{
    match kind {
        Kind::File => begun(under, false),
        Kind::Directory => begun(under, true),
        Kind::Nothing => Step::End(Err(RenameRefusal::SourceMissing)),
    }
}

fn on_target(directory: bool, kind: Kind) -> Step<RenameStage, Answer>
    ensures { result ≡ on_target directory kind }
{
    let spot = match kind {
        Kind::File => return Step::End(Err(RenameRefusal::TargetFile)),
        Kind::Directory => Spot::Inside,
        Kind::Nothing => Spot::Above,
    };
    Step::Next(RenameStage::Look {
        spot,
        below: false,
        directory,
    })
}

fn with_places(keys: KeyList, places: KeyList) -> Step<RenameStage, Answer>
    ensures { result ≡ with_places keys (Ok places) }
{
    if keys.len() == 0 {
        return Step::End(Err(RenameRefusal::SourceMissing));
    }
    Step::Next(RenameStage::Copy(Copying::new(keys, places)))
}

fn too_long(key: &Key) -> Result<Step<RenameStage, Answer>, AllocError>
    ensures { IfOk result (λ step. step ≡ End (Err (TooLong key.now))) }
{
    Ok(Step::End(Err(RenameRefusal::TooLong(key.as_text().clone()?))))
}

/// The list of one key.
fn one_key(alloc: Global, key: Key) -> Result<KeyList, AllocError>
    ensures { IfOk result (λ keys. keys ≡ key ∷ []) }
{
    let mut keys = KeyList::new(alloc);
    keys.push(key)?;
    Ok(keys)
}

fn on_parent(marker: Key, seen: Look) -> Step<RenameStage, Answer>
    ensures { result ≡ on_parent marker seen }
{
    match seen {
        Look::There => Step::End(Ok(())),
        _ => Step::Next(RenameStage::PutMarker(marker)),
    }
}

impl RenameNames {
    fn seen_at(&self, spot: Spot, below: bool, reply: &Reply, seen: Look) -> Look
        requires { seen ≡ look_of reply.now }
        ensures { result ≡ seen_at self.now spot below reply.now }
    {
        match spot {
            Spot::Inside => match self.place(true) {
                Some(base) => seen_inside(base, below, reply, seen),
                None => Look::Nothing,
            },
            _ => seen,
        }
    }

    /// The step that copies only the source's own key.
    fn one_copy(&self, base: &Base) -> Result<Step<RenameStage, Answer>, AllocError>
        ensures { IfOk result (λ step. step ≡ one_copy (key_if self.now.source) (fitting base.now)) }
    {
        let Some(key) = self.source.key() else {
            return Ok(Step::End(Err(RenameRefusal::SourceMissing)));
        };
        let Some(place) = base.key()? else {
            return too_long(key);
        };
        let (keys, places) = both(
            one_key(self.alloc, key.clone()?),
            one_key(self.alloc, place),
        )?;
        Ok(Step::Next(RenameStage::Copy(Copying::new(keys, places))))
    }

    fn file_to(&self, place: Option<&Base>) -> Result<Step<RenameStage, Answer>, AllocError>
        ensures { IfOk result (λ step. step ≡ file_to self.now (option_copied place.entry)) }
    {
        match place {
            Some(base) => self.one_copy(base),
            None => Ok(Step::End(Err(RenameRefusal::SourceMissing))),
        }
    }

    fn go(&self, directory: bool, inside: bool) -> Result<Step<RenameStage, Answer>, AllocError>
        ensures { IfOk result (λ step. step ≡ go self.now directory inside) }
    {
        if directory {
            return Ok(Step::Next(RenameStage::Walk {
                inside,
                walk: KeyWalk::new(self.alloc),
            }));
        }
        self.file_to(self.place(inside))
    }

    fn on_source(&self, root: bool, kind: Kind) -> Step<RenameStage, Answer>
        ensures { result ≡ on_source self.now root kind }
    {
        if root {
            return Step::End(Err(RenameRefusal::SourceRoot));
        }
        on_kind(self.under, kind)
    }

    fn on_inside(
        &self,
        directory: bool,
        kind: Kind,
    ) -> Result<Step<RenameStage, Answer>, AllocError>
        ensures { IfOk result (λ step. step ≡ on_inside self.now directory kind) }
    {
        match kind {
            Kind::File => Ok(Step::End(Err(RenameRefusal::TargetFile))),
            Kind::Directory => Ok(Step::End(Err(RenameRefusal::TargetExists))),
            Kind::Nothing => self.go(directory, true),
        }
    }

    fn on_above(&self, directory: bool, kind: Kind) -> Result<Step<RenameStage, Answer>, AllocError>
        ensures { IfOk result (λ step. step ≡ on_above self.now directory kind) }
    {
        match kind {
            Kind::File => Ok(Step::End(Err(RenameRefusal::ParentIsFile))),
            Kind::Directory => self.go(directory, false),
            Kind::Nothing => Ok(Step::End(Err(RenameRefusal::ParentMissing))),
        }
    }

    fn found(
        &self,
        spot: Spot,
        directory: bool,
        kind: Kind,
    ) -> Result<Step<RenameStage, Answer>, AllocError>
        ensures { IfOk result (λ step. step ≡ found self.now spot directory kind) }
    {
        match spot {
            Spot::Source => Ok(self.on_source(self.source.is_root(), kind)),
            Spot::Target => Ok(on_target(directory, kind)),
            Spot::Inside => self.on_inside(directory, kind),
            Spot::Above => self.on_above(directory, kind),
        }
    }

    fn on_look(
        &self,
        spot: Spot,
        below: bool,
        directory: bool,
        seen: Look,
    ) -> Result<Step<RenameStage, Answer>, AllocError>
        ensures { IfOk result (λ step. step ≡ looked self.now spot directory (kind_of (is_root_at self.now spot) below
            seen)) }
    {
        match kind_of(self.is_root(spot), below, seen) {
            Some(kind) => self.found(spot, directory, kind),
            None => Ok(Step::Next(RenameStage::Look {
                spot,
                below: true,
                directory,
            })),
        }
    }

    /// The step after all keys below the source were listed.
    fn listed_to(
        &self,
        inside: bool,
        keys: KeyList,
    ) -> Result<Step<RenameStage, Answer>, AllocError>
        ensures { IfOk result (λ step. step ≡ listed_to self.now (place_at self.now inside) keys) }
    {
        let Some(base) = self.place(inside) else {
            let_go(keys);
            return Ok(Step::End(Err(RenameRefusal::SourceMissing)));
        };
        match base.new_keys(self.alloc, self.source.prefix(), keys.as_slice()) {
            Ok(Ok(places)) => Ok(with_places(keys, places)),
            Ok(Err(key)) => {
                let_go(keys);
                too_long(&key)
            }
            Err(fault) => {
                let_go(keys);
                Err(fault)
            }
        }
    }

    fn on_walk(
        &self,
        inside: bool,
        walk: KeyWalk,
        reply: &Reply,
    ) -> Result<Step<RenameStage, Answer>, AllocError>
        ensures { IfOk result (λ step. step ≡ on_walk self.now inside walk reply.now (fits reply.now)) }
    {
        let mut walk = walk;
        if !fits(reply) {
            return Ok(Step::Next(RenameStage::Walk { inside, walk }));
        }
        let Ok(more) = walk.hear(reply) else {
            let_go(walk);
            return Err(AllocError);
        };
        if more {
            return Ok(Step::Next(RenameStage::Walk { inside, walk }));
        }
        let keys = walk.keys(self.alloc);
        let_go(walk);
        self.listed_to(inside, keys?)
    }

    fn up(&self) -> Result<Step<RenameStage, Answer>, AllocError>
        ensures { IfOk result (λ step. step ≡ up self.now) }
    {
        match &self.marker {
            Some(marker) => Ok(Step::Next(RenameStage::Parent(marker.clone()?))),
            None => Ok(Step::End(Ok(()))),
        }
    }

    fn on_copied(&self, step: CopyStep) -> Result<Step<RenameStage, Answer>, AllocError>
        ensures { IfOk result (λ next. next ≡ on_copied self.now step) }
    {
        match step {
            CopyStep::Next(copying) => Ok(Step::Next(RenameStage::Copy(copying))),
            CopyStep::All(keys) => match Sweep::of(self.alloc, keys) {
                Some(sweep) => Ok(Step::Next(RenameStage::Batch(sweep))),
                None => self.up(),
            },
        }
    }

    fn on_batch(&self, sweep: Sweep, reply: &Reply) -> Result<Step<RenameStage, Answer>, AllocError>
        ensures { IfOk result (λ step. step ≡ on_batch self.now sweep reply.now (fits reply.now)) }
    {
        let mut sweep = sweep;
        if !fits(reply) {
            return Ok(Step::Next(RenameStage::Batch(sweep)));
        }
        let Ok(more) = sweep.hear(self.alloc, &AllKeys, reply) else {
            let_go(sweep);
            return Err(AllocError);
        };
        if more {
            return Ok(Step::Next(RenameStage::Batch(sweep)));
        }
        let_go(sweep);
        self.up()
    }
}

impl Phases for RenameNames {
    type Stage = RenameStage;

    type Answer = Result<(), RenameRefusal>;

    ghost first = { first };

    ghost asks = { asks };

    ghost goes = { goes };

    ghost holds = { holds };

    ghost gives = { gives };

    ghost always = { always };

    ghost sends = { sends };

    ghost left = { left };

    ghost absent = { Err NoSuchBucket };

    fn start(&self) -> RenameStage {
        RenameStage::Look {
            spot: Spot::Source,
            below: false,
            directory: false,
        }
    }

    fn ask(&self, bucket: &Bucket, stage: &RenameStage) -> Result<Request, AllocError> {
        match stage {
            RenameStage::Look { spot, below, .. } => self.look(bucket, *spot, *below),
            RenameStage::Walk { walk, .. } => walk.request(bucket, self.source.prefix()),
            RenameStage::Copy(copying) => copying.request(self.alloc, bucket),
            RenameStage::Batch(sweep) => sweep.request(self.alloc, bucket, self.source.prefix()),
            RenameStage::Parent(marker) => first_key(self.alloc, bucket, marker.as_text()),
            RenameStage::PutMarker(marker) => put_empty(self.alloc, bucket, marker),
        }
    }

    fn next(
        &self,
        stage: RenameStage,
        reply: &Reply,
    ) -> Result<Step<RenameStage, Answer>, AllocError> {
        let seen = seen_in(reply);
        if let Look::NoBucket = seen {
            let_go(stage);
            return Ok(Step::End(Err(RenameRefusal::NoSuchBucket)));
        }
        match stage {
            RenameStage::Look {
                spot,
                below,
                directory,
            } => {
                let seen = self.seen_at(spot, below, reply, seen);
                self.on_look(spot, below, directory, seen)
            }
            RenameStage::Walk { inside, walk } => self.on_walk(inside, walk, reply),
            RenameStage::Copy(copying) => self.on_copied(copying.next()),
            RenameStage::Batch(sweep) => self.on_batch(sweep, reply),
            RenameStage::Parent(marker) => Ok(on_parent(marker, seen)),
            RenameStage::PutMarker(_) => Ok(Step::End(Ok(()))),
        }
    }

    #[tactic(auto, using(crate::proofs::RenameLaws::rename_laws, crate::proofs::RenameLaws::rename_asked))]
    fn laws() {}
}
