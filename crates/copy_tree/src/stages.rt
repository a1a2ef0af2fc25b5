ghost use Rattle.std.specs.Prelude.{◌≡◌, IfOk, Err, drop};
ghost use Rattle.bucket_ops.specs.Asks.{request_of};
ghost use Rattle.fs_tree.specs.declared.copy.CopyRefusal.TheVariants.{NoSuchBucket, TooLong};
ghost use Rattle.operations.specs.declared.plan.Step.TheVariants.{End};
ghost use Rattle.bucket_ops.specs.Walking.{fits};
ghost use Rattle.copy_tree.specs.code.Copy as copy;
ghost use Rattle.copy_tree.specs.inner.Copy as copy_inner;
ghost use Rattle.fs_rename.specs.Keys.{place_of};
ghost use Rattle.copy_tree.specs.code.Copy.{read_of};
ghost use Rattle.copy_tree.specs.inner.Copy.{same_header};
ghost use Rattle.copy_tree.specs.code.Meaning as meaning;
ghost use Rattle.copy_tree.specs.inner.Meaning as meaning_inner;

use crate::names::CopyNames;
use crate::parts::chosen;
use bucket_ops::{Look, Phases, fits, seen_in};
use fs_ops::{Climb, Climbed, look_at_bucket};
use fs_rename::{CopyStep, Copying};
use fs_tree::{CopyCount, CopyRefusal};
use list_walk::{KeyWalk, keys_behind};
use operations::Step;
use s3_types::{
    Bucket, Bytes, Key, KeyList, LengthHeader, PageEntry, Reply, Request, both, copied_keys, let_go,
};
use std::alloc::{AllocError, Global};

/// The keys of a source and their new keys: `stood` and `stood_at` if the new key exists, `keys`
/// and `places` if it is absent.
#[derive(Drop)]
pub struct Parts {
    pub stood: KeyList,
    pub stood_at: KeyList,
    pub keys: KeyList,
    pub places: KeyList,
}

/// The stage of a copy.
#[derive(Drop)]
pub enum CopyStage {
    /// Asks whether a file exists at the source.
    Here,
    /// Lists the keys below the source.
    Walk(KeyWalk),
    /// Asks whether a file exists at one of the paths above the target, or at its own.
    Up {
        keys: KeyList,
        climb: Climb,
    },
    /// Lists the keys below the target.
    WalkTarget {
        keys: KeyList,
        places: KeyList,
        walk: KeyWalk,
    },
    /// Reads the next key to compare; `done` keys agree with their new keys.
    Source {
        parts: Parts,
        done: usize,
    },
    /// Reads its new key, to compare it with what was read.
    Target {
        parts: Parts,
        done: usize,
        bytes: Bytes,
        header: Option<LengthHeader>,
    },
    /// Copies the keys whose new key is absent.
    Copy {
        copying: Copying,
        count: CopyCount,
    },
}

type Answer = Result<CopyCount, CopyRefusal>;

/// The request that reads the first of these keys. If there is none, it looks at the bucket.
fn read_of(alloc: Global, bucket: &Bucket, keys: &[Key]) -> Result<Request, AllocError>
    ensures { IfOk result (λ request. request ≡ request_of bucket.now (read_of keys.now)) }
{
    match keys.first() {
        Some(key) => Request::get_object(bucket, key),
        None => look_at_bucket(alloc, bucket),
    }
}

fn here(alloc: Global, overlap: bool, seen: Look) -> Step<CopyStage, Answer>
    ensures { result ≡ copy_inner.here overlap seen }
{
    if overlap {
        return Step::End(Err(CopyRefusal::Overlap));
    }
    match seen {
        Look::There => Step::End(Err(CopyRefusal::SourceIsFile)),
        _ => Step::Next(CopyStage::Walk(KeyWalk::new(alloc))),
    }
}

fn count_of(parts: &Parts) -> CopyCount
    ensures { result ≡ copy_inner.count_of parts.now }
{
    CopyCount {
        copied: parts.places.len() as u64,
        skipped: parts.stood_at.len() as u64,
    }
}

fn copies(count: CopyCount, keys: KeyList, places: KeyList) -> Step<CopyStage, Answer>
    ensures { result ≡ copy_inner.copies count keys places }
{
    if keys.len() == 0 {
        return Step::End(Ok(count));
    }
    Step::Next(CopyStage::Copy {
        copying: Copying::new(keys, places),
        count,
    })
}

/// The step after all new keys that exist were found to agree.
fn begun(parts: Parts) -> Step<CopyStage, Answer>
    ensures { result ≡ copy_inner.begun parts }
{
    let count = count_of(&parts);
    let Parts { keys, places, .. } = parts;
    copies(count, keys, places)
}

fn on_copied(count: CopyCount, step: CopyStep) -> Step<CopyStage, Answer>
    ensures { result ≡ copy_inner.on_copied count step }
{
    match step {
        CopyStep::Next(copying) => Step::Next(CopyStage::Copy { copying, count }),
        CopyStep::All(_) => Step::End(Ok(count)),
    }
}

fn parts_of(
    alloc: Global,
    keys: &[Key],
    places: &[Key],
    entries: &[PageEntry],
) -> Result<Parts, AllocError>
    ensures { IfOk result (λ parts. parts ≡ copy_inner.parts_of keys.now places.now entries.now) }
{
    let standing = both(
        chosen(alloc, true, keys, places, entries),
        chosen(alloc, true, places, places, entries),
    );
    let absent = both(
        chosen(alloc, false, keys, places, entries),
        chosen(alloc, false, places, places, entries),
    );
    let ((stood, stood_at), (keys, places)) = both(standing, absent)?;
    Ok(Parts {
        stood,
        stood_at,
        keys,
        places,
    })
}

fn parted(parts: Parts) -> Step<CopyStage, Answer>
    ensures { result ≡ copy_inner.parted parts }
{
    if parts.stood.len() == 0 {
        return begun(parts);
    }
    Step::Next(CopyStage::Source { parts, done: 0 })
}

fn on_read(parts: Parts, done: usize, reply: &Reply) -> Result<Step<CopyStage, Answer>, AllocError>
    ensures { IfOk result (λ step. step ≡ copy_inner.on_read parts done reply.now) }
{
    match reply {
        Reply::Object { bytes, header } => {
            let Ok(bytes) = bytes.clone() else {
                let_go(parts);
                return Err(AllocError);
            };
            Ok(Step::Next(CopyStage::Target {
                parts,
                done,
                bytes,
                header: *header,
            }))
        }
        _ => {
            let_go(parts);
            Ok(Step::End(Err(CopyRefusal::SourceMissing)))
        }
    }
}

fn same_header(one: Option<LengthHeader>, other: Option<LengthHeader>) -> bool
    ensures { result ≡ same_header one other }
{
    match (one, other) {
        (None, None) => true,
        (Some(one), Some(other)) => one.get() == other.get(),
        _ => false,
    }
}

fn differ(places: &[Key]) -> Result<Step<CopyStage, Answer>, AllocError>
    ensures { IfOk result (λ step. step ≡ copy_inner.differ places.now) }
{
    match places.first() {
        Some(key) => Ok(Step::End(Err(CopyRefusal::Differs(key.as_text().clone()?)))),
        None => Ok(Step::End(Err(CopyRefusal::SourceMissing))),
    }
}

fn agreed(parts: Parts, done: usize) -> Step<CopyStage, Answer>
    ensures { result ≡ copy_inner.agreed parts done }
{
    if 1 < keys_behind(parts.stood.as_slice(), done).len() {
        Step::Next(CopyStage::Source {
            parts,
            done: done + 1,
        })
    } else {
        begun(parts)
    }
}

fn compared(parts: Parts, done: usize, same: bool) -> Result<Step<CopyStage, Answer>, AllocError>
    ensures { IfOk result (λ step. step ≡ copy_inner.compared parts done same) }
{
    if same {
        return Ok(agreed(parts, done));
    }
    let refused = differ(keys_behind(parts.stood_at.as_slice(), done));
    let_go(parts);
    refused
}

fn on_compare(
    parts: Parts,
    done: usize,
    read: &Bytes,
    read_header: Option<LengthHeader>,
    reply: &Reply,
) -> Result<Step<CopyStage, Answer>, AllocError>
    ensures { IfOk result (λ step. step ≡ copy_inner.on_compare parts done read.now read_header reply.now) }
{
    match reply {
        Reply::Object { bytes, header } => {
            let same = read.as_slice() == bytes.as_slice() && same_header(read_header, *header);
            compared(parts, done, same)
        }
        _ => {
            let_go(parts);
            Ok(Step::End(Err(CopyRefusal::SourceMissing)))
        }
    }
}

fn too_long(key: &Key) -> Result<Step<CopyStage, Answer>, AllocError>
    ensures { IfOk result (λ step. step ≡ End (Err (TooLong key.now))) }
{
    Ok(Step::End(Err(CopyRefusal::TooLong(key.as_text().clone()?))))
}

impl CopyNames {
    /// The step after no file was found at the target or above it.
    fn placed(&self, keys: KeyList) -> Result<Step<CopyStage, Answer>, AllocError>
        ensures { IfOk result (λ step. step ≡ copy_inner.placed self.now (place_of self.now.source self.now.target) keys) }
    {
        let Some(base) = self.place() else {
            let_go(keys);
            return Ok(Step::End(Err(CopyRefusal::SourceMissing)));
        };
        match base.new_keys(self.alloc, self.source.prefix(), keys.as_slice()) {
            Ok(Ok(places)) => Ok(Step::Next(CopyStage::WalkTarget {
                keys,
                places,
                walk: KeyWalk::new(self.alloc),
            })),
            Ok(Err(key)) => {
                let_go(keys);
                too_long(&key)
            }
            Err(fault) => {
                let_go(keys);
                Err(fault)
            }
        }
    }

    fn on_climb(
        &self,
        keys: KeyList,
        climbed: Climbed,
    ) -> Result<Step<CopyStage, Answer>, AllocError>
        ensures { IfOk result (λ step. step ≡ copy_inner.on_climb self.now keys climbed) }
    {
        match climbed {
            Climbed::File(key) => {
                let_go(keys);
                Ok(Step::End(Err(CopyRefusal::TargetFile(key))))
            }
            Climbed::On(climb) => Ok(Step::Next(CopyStage::Up { keys, climb })),
            Climbed::Free => self.placed(keys),
        }
    }

    /// The step after all keys below the source were listed.
    fn listed(&self, keys: KeyList) -> Result<Step<CopyStage, Answer>, AllocError>
        ensures { IfOk result (λ step. step ≡ copy_inner.listed self.now keys) }
    {
        if keys.len() == 0 {
            let_go(keys);
            return Ok(Step::End(Err(CopyRefusal::SourceMissing)));
        }
        let Ok(above) = copied_keys(self.alloc, &self.above) else {
            let_go(keys);
            return Err(AllocError);
        };
        self.on_climb(keys, Climb::over(above))
    }

    fn on_walk(&self, walk: KeyWalk, reply: &Reply) -> Result<Step<CopyStage, Answer>, AllocError>
        ensures { IfOk result (λ step. step ≡ copy_inner.on_walk self.now walk reply.now (fits reply.now)) }
    {
        let mut walk = walk;
        if !fits(reply) {
            return Ok(Step::Next(CopyStage::Walk(walk)));
        }
        let Ok(more) = walk.hear(reply) else {
            let_go(walk);
            return Err(AllocError);
        };
        if more {
            return Ok(Step::Next(CopyStage::Walk(walk)));
        }
        let keys = walk.keys(self.alloc);
        let_go(walk);
        self.listed(keys?)
    }

    fn on_show(
        &self,
        keys: KeyList,
        places: KeyList,
        walk: KeyWalk,
        reply: &Reply,
    ) -> Result<Step<CopyStage, Answer>, AllocError>
        ensures { IfOk result (λ step. step ≡ copy_inner.on_show keys places walk reply.now (fits reply.now)) }
    {
        let mut walk = walk;
        if !fits(reply) {
            return Ok(Step::Next(CopyStage::WalkTarget { keys, places, walk }));
        }
        let Ok(more) = walk.hear(reply) else {
            let_go((keys, places, walk));
            return Err(AllocError);
        };
        if more {
            return Ok(Step::Next(CopyStage::WalkTarget { keys, places, walk }));
        }
        let entries = walk.entries().as_slice();
        let parts = parts_of(self.alloc, keys.as_slice(), places.as_slice(), entries);
        let_go((keys, places, walk));
        Ok(parted(parts?))
    }
}

impl Phases for CopyNames {
    type Stage = CopyStage;

    type Answer = Result<CopyCount, CopyRefusal>;

    ghost first = { copy.first };

    ghost asks = { copy.asks };

    ghost goes = { copy_inner.goes };

    ghost holds = { meaning_inner.holds };

    ghost gives = { meaning_inner.gives };

    ghost always = { meaning_inner.always };

    ghost sends = { meaning.sends };

    ghost left = { meaning_inner.left };

    ghost absent = { Err NoSuchBucket };

    fn start(&self) -> CopyStage {
        CopyStage::Here
    }

    fn ask(&self, bucket: &Bucket, stage: &CopyStage) -> Result<Request, AllocError> {
        match stage {
            CopyStage::Here => self.source.look(bucket),
            CopyStage::Walk(walk) => walk.request(bucket, self.source.prefix()),
            CopyStage::Up { climb, .. } => climb.request(bucket),
            CopyStage::WalkTarget { walk, .. } => walk.request(bucket, self.target.prefix()),
            CopyStage::Source { parts, done } => {
                read_of(
                    self.alloc,
                    bucket,
                    keys_behind(parts.stood.as_slice(), *done),
                )
            }
            CopyStage::Target { parts, done, .. } => {
                read_of(
                    self.alloc,
                    bucket,
                    keys_behind(parts.stood_at.as_slice(), *done),
                )
            }
            CopyStage::Copy { copying, .. } => copying.request(self.alloc, bucket),
        }
    }

    fn next(&self, stage: CopyStage, reply: &Reply) -> Result<Step<CopyStage, Answer>, AllocError> {
        let seen = seen_in(reply);
        if let Look::NoBucket = seen {
            let_go(stage);
            return Ok(Step::End(Err(CopyRefusal::NoSuchBucket)));
        }
        match stage {
            CopyStage::Here => Ok(here(self.alloc, self.overlap, seen)),
            CopyStage::Walk(walk) => self.on_walk(walk, reply),
            CopyStage::Up { keys, climb } => {
                let Ok(climbed) = climb.hear(seen) else {
                    let_go(keys);
                    return Err(AllocError);
                };
                self.on_climb(keys, climbed)
            }
            CopyStage::WalkTarget { keys, places, walk } => {
                self.on_show(keys, places, walk, reply)
            }
            CopyStage::Source { parts, done } => on_read(parts, done, reply),
            CopyStage::Target {
                parts,
                done,
                bytes,
                header,
            } => on_compare(parts, done, &bytes, header, reply),
            CopyStage::Copy { copying, count } => Ok(on_copied(count, copying.next())),
        }
    }

    #[tactic(auto, using(crate::proofs::CopyLaws::copy_laws, crate::proofs::CopyLaws::copy_asked))]
    fn laws() {}
}
