ghost use Rattle.std.specs.Prelude.{◌≡◌, ◌++◌, ◌∷◌, [], codes, map, IfOk, OnOk};
ghost use Rattle.list_walk.specs.Walks.{sweep_start};
ghost use Rattle.job_protocol.specs.Conflicts.{prefix_below};
ghost use Rattle.conflict.specs.Deletions.{deleted, spared, FitsDeletion, deletion_asks, deletion_hears};

use crate::absent::partition_prefix;
use crate::displacing::displaced;
use job_model::Displaced;
use list_walk::{AllBut, Sweep};
use magic_paths::dest_prefix;
use path_keys::S3Path;
use s3_types::{Bucket, Committer, Mode, Reply, Request, Sequence, Text, TextList, put};
use std::alloc::{AllocError, Global};
use std::marker::Model;

/// Returns the prefix of the keys below the magic directories of a destination.
fn magic_prefix(alloc: Global, dest: &S3Path) -> Result<Text, AllocError>
    ensures { IfOk result (λ prefix. prefix ≡ spared dest.now) }
{
    let prefix = dest_prefix(alloc, dest)?;
    let prefix = prefix.as_str();
    Text::new(alloc, format!(in alloc; "{prefix}__magic/")?)
}

fn partition_prefixes(
    alloc: Global,
    dest: &S3Path,
    partitions: &[Text],
) -> Result<TextList, AllocError>
    ensures { IfOk result (λ prefixes. prefixes ≡ map (prefix_below dest.now) partitions.now) }
{
    let mut prefixes = Sequence::new(alloc);
    for partition in partitions {
        let prefix = partition_prefix(alloc, dest, partition)?;
        prefixes.push(prefix)?;
    }
    Ok(prefixes)
}

/// Returns the prefix of the keys below a whole destination, as a list.
fn whole(alloc: Global, dest: &S3Path) -> Result<TextList, AllocError>
    ensures { IfOk result (λ prefixes. prefixes ≡ (dest.now.key ++ codes "/") ∷ []) }
{
    let prefix = dest_prefix(alloc, dest)?;
    let mut prefixes = Sequence::new(alloc);
    prefixes.push(prefix)?;
    Ok(prefixes)
}

/// Returns the prefixes below which a replace mode of a committer deletes, if the job writes these
/// partitions.
fn prefixes(
    alloc: Global,
    dest: &S3Path,
    committer: Committer,
    partitions: &[Text],
) -> Result<TextList, AllocError>
    ensures { IfOk result (λ prefixes. prefixes ≡ deleted committer dest.now partitions.now) }
{
    match displaced(committer, Mode::Replace) {
        Displaced::Nothing => Ok(Sequence::new(alloc)),
        Displaced::Everything => whole(alloc, dest),
        Displaced::Partitions => partition_prefixes(alloc, dest, partitions),
    }
}

/// The deletion of what a replace mode does not keep: all keys below the destination, or below each
/// partition that the job writes. Keys below the destination's magic directories stay. Contracts
/// see it as the prefixes below which it still deletes, and the sweep below the first of them.
#[derive(Drop)]
pub struct DeleteKept {
    prefixes: TextList,
    at: usize,
    sweep: Sweep,
    test: AllBut,
}

impl Model for DeleteKept {
    ghost use Rattle.std.specs.Prelude.{drop};
    ghost use Rattle.conflict.specs.Deletions.{Deletion};

    ghost Value = { Deletion };

    ghost view = { λ d. record { prefixes = drop d.at d.prefixes; sweep = d.sweep; spared = d.test.prefix } };
}

impl DeleteKept {
    /// Returns the deletion of a committer's replace mode for these partitions, which has sent
    /// nothing yet.
    pub fn new(
        alloc: Global,
        dest: &S3Path,
        committer: Committer,
        partitions: &[Text],
    ) -> Result<DeleteKept, AllocError>
        ensures { IfOk result (λ d. d ≡ record {
          prefixes = deleted committer dest.now partitions.now;
          sweep = sweep_start;
          spared = spared dest.now;
        }) }
    {
        let prefixes = prefixes(alloc, dest, committer, partitions)?;
        let prefix = magic_prefix(alloc, dest)?;
        Ok(DeleteKept {
            prefixes,
            at: 0,
            sweep: Sweep::new(alloc),
            test: AllBut { prefix },
        })
    }

    /// Returns the next request, or None if all is deleted.
    pub fn request(&self, alloc: Global, bucket: &Bucket) -> Result<Option<Request>, AllocError>
        ensures { IfOk result (λ request. request ≡ deletion_asks bucket.now self.now) }
    {
        let Some(prefix) = self.prefixes.as_slice().get(self.at) else {
            return Ok(None);
        };
        self.sweep.ask(alloc, bucket, prefix)
    }

    /// Takes the reply to the current request. If memory runs out, the deletion can no longer be
    /// used.
    pub fn hear(&mut self, alloc: Global, reply: &Reply) -> Result<(), AllocError>
        requires { FitsDeletion self.old reply.now }
        ensures { OnOk result (self.new ≡ deletion_hears self.old reply.now) }
    {
        if self.at >= self.prefixes.len() {
            return Ok(());
        }
        if self.sweep.hear(alloc, &self.test, reply)? {
            return Ok(());
        }
        put(&mut self.sweep, Sweep::new(alloc));
        self.at += 1;
        Ok(())
    }
}
