ghost use Rattle.std.specs.Prelude.{◌≡◌, IfOk, Err};
ghost use Rattle.std.specs.Option.{option_copied};
ghost use Rattle.fs_tree.specs.declared.answers.FsRefusal.TheVariants.{NoSuchBucket};
ghost use Rattle.bucket_ops.specs.Walking.{fits};
ghost use Rattle.fs_ops.specs.Places.{key_if};
ghost use Rattle.fs_ops.specs.code.Steps.{goes_by};
ghost use Rattle.marker_tool.specs.code.Tool as tool;
ghost use Rattle.marker_tool.specs.code.Tool.{begun, on_key, whole, on_walk, on_change};

use crate::tree_pass::{Found, TreePass};
use bucket_ops::{Look, Phases, fits, seen_in};
use fs_ops::Place;
use fs_tree::FsRefusal;
use list_walk::{KeyWalk, keys_behind};
use operations::Step;
use path_keys::S3Path;
use s3_types::{Bucket, Key, KeyList, PageEntry, Reply, Request};
use std::alloc::{AllocError, Global};
use std::marker::Model;

/// The stage of the marker tool.
#[derive(Drop)]
pub enum ToolStage<A> {
    /// Asks whether a file exists at the path.
    Here,
    /// Lists all keys below the path.
    Walk(KeyWalk),
    /// Changes these keys, of which `done` are changed already, and then answers.
    Change {
        keys: KeyList,
        done: usize,
        answer: A,
    },
}

/// The marker tool at a path, with the work that it does there.
#[derive(Drop)]
pub struct MarkerTool<W> {
    alloc: Global,
    place: Place,
    work: W,
}

impl<W> Model for MarkerTool<W> {
    ghost use Rattle.std.specs.Prelude.{ℕ, List};

    ghost Value = { List ℕ };

    ghost view = { λ o. o.place };
}

/// The step that begins the changes, or the answer if there is nothing to change.
fn begun<A: Drop>(found: Found<A>) -> Step<ToolStage<A>, Result<A, FsRefusal>>
    ensures { result ≡ begun found.keys found.answer }
{
    let Found { keys, answer } = found;
    if keys.len() == 0 {
        return Step::End(Ok(answer));
    }
    Step::Next(ToolStage::Change {
        keys,
        done: 0,
        answer,
    })
}

/// The step after a change.
fn on_change<A: Drop>(
    batch: usize,
    keys: KeyList,
    done: usize,
    answer: A,
) -> Step<ToolStage<A>, Result<A, FsRefusal>>
    ensures { result ≡ on_change batch keys done answer }
{
    if batch < keys_behind(keys.as_slice(), done).len() {
        Step::Next(ToolStage::Change {
            keys,
            done: done + batch,
            answer,
        })
    } else {
        Step::End(Ok(answer))
    }
}

fn on_key<A: Drop>(
    alloc: Global,
    key: Option<&Key>,
    seen: Look,
) -> Result<Step<ToolStage<A>, Result<A, FsRefusal>>, AllocError>
    ensures { IfOk result (λ step. step ≡ on_key (option_copied key.entry) seen) }
{
    let Some(key) = key else {
        return Ok(Step::Next(ToolStage::Walk(KeyWalk::new(alloc))));
    };
    match seen {
        Look::There => Ok(Step::End(Err(FsRefusal::NotDirectory(key.as_text().clone()?)))),
        _ => Ok(Step::Next(ToolStage::Walk(KeyWalk::new(alloc)))),
    }
}

impl<W: TreePass> MarkerTool<W> {
    /// The tool at a path of a bucket.
    pub fn new(alloc: Global, path: &S3Path) -> Result<MarkerTool<W>, AllocError>
        ensures { IfOk result (λ tool. tool ≡ path.now.key) }
    {
        let place = Place::of(alloc, path)?;
        Ok(MarkerTool {
            alloc,
            place,
            work: W::of(),
        })
    }

    /// The step after all keys were listed.
    fn whole(
        &self,
        entries: &[PageEntry],
    ) -> Result<Step<ToolStage<W::Answer>, Result<W::Answer, FsRefusal>>, AllocError>
        ensures { IfOk result (λ step. step ≡ whole W.keys W.answer self.now entries.now) }
    {
        if !self.place.is_root() && entries.is_empty() {
            return Ok(Step::End(Err(FsRefusal::NotFound)));
        }
        Ok(begun(self.work.find(self.alloc, self.place.prefix(), entries)?))
    }

    fn on_walk(
        &self,
        walk: KeyWalk,
        reply: &Reply,
    ) -> Result<Step<ToolStage<W::Answer>, Result<W::Answer, FsRefusal>>, AllocError>
        ensures { IfOk result (λ step. step ≡ on_walk W.keys W.answer self.now walk reply.now (fits reply.now)) }
    {
        let mut walk = walk;
        if !fits(reply) {
            return Ok(Step::Next(ToolStage::Walk(walk)));
        }
        if walk.hear(reply)? {
            Ok(Step::Next(ToolStage::Walk(walk)))
        } else {
            self.whole(walk.entries().as_slice())
        }
    }
}

impl<W: TreePass> Phases for MarkerTool<W> {
    type Stage = ToolStage<W::Answer>;

    type Answer = Result<W::Answer, FsRefusal>;

    ghost first = { tool.first };

    ghost asks = { tool.asks W.changes };

    ghost goes = { goes_by (tool.on W.keys W.answer W.batch) };

    ghost holds = { tool.holds W.keys W.answer W.changed };

    ghost gives = { W.gives };

    ghost always = { W.always };

    ghost sends = { W.sends };

    ghost left = { tool.left W.keys };

    ghost absent = { Err NoSuchBucket };

    fn start(&self) -> ToolStage<W::Answer> {
        ToolStage::Here
    }

    fn ask(&self, bucket: &Bucket, stage: &ToolStage<W::Answer>) -> Result<Request, AllocError> {
        match stage {
            ToolStage::Here => self.place.look(bucket),
            ToolStage::Walk(walk) => walk.request(bucket, self.place.prefix()),
            ToolStage::Change { keys, done, .. } => {
                self.work
                    .change(self.alloc, bucket, keys_behind(keys.as_slice(), *done))
            }
        }
    }

    fn next(
        &self,
        stage: ToolStage<W::Answer>,
        reply: &Reply,
    ) -> Result<Step<ToolStage<W::Answer>, Result<W::Answer, FsRefusal>>, AllocError> {
        let seen = seen_in(reply);
        if let Look::NoBucket = seen {
            return Ok(Step::End(Err(FsRefusal::NoSuchBucket)));
        }
        match stage {
            ToolStage::Here => on_key(self.alloc, self.place.key(), seen),
            ToolStage::Walk(walk) => self.on_walk(walk, reply),
            ToolStage::Change { keys, done, answer } => {
                Ok(on_change(self.work.batch(), keys, done, answer))
            }
        }
    }

    fn laws() {
        W::laws();
    }
}
