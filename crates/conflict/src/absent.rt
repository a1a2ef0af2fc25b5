ghost use Rattle.std.specs.Prelude.{◌≡◌, ◌++◌, [], false, codes, IfOk, OnOk, Some};
ghost use Rattle.s3_types.specs.declared.request.Request.TheVariants.{ListPage};
ghost use Rattle.path_keys.specs.Paths.{below};
ghost use Rattle.conflict.specs.Checks.{check_asks, found_below, is_none, left_after};

use path_keys::S3Path;
use s3_types::{PageLimit, Reply, Request, Text, TextList};
use std::alloc::{AllocError, Global};
use std::marker::Model;

/// Returns the prefix of the keys below a partition of a destination.
pub fn partition_prefix(alloc: Global, dest: &S3Path, partition: &Text) -> Result<Text, AllocError>
    ensures { IfOk result (λ prefix. prefix ≡ below dest.now.key (partition.now ++ codes "/")) }
{
    let partition = partition.as_str();
    let folder = format!(in alloc; "{partition}/")?;
    Text::new(alloc, dest.text_below(alloc, folder.as_str())?)
}

/// Returns the request for one key below a partition.
fn key_request(
    alloc: Global,
    dest: &S3Path,
    partition: &Text,
) -> Result<Option<Request>, AllocError>
    ensures { IfOk result (λ request. request ≡ Some (ListPage dest.now.bucket
        (below dest.now.key (partition.now ++ codes "/")) false [] 1)) }
{
    let prefix = partition_prefix(alloc, dest, partition)?;
    let after = Text::empty(alloc)?;
    match Request::list_page(dest.bucket(), &prefix, false, &after, PageLimit::new(1)) {
        Ok(request) => Ok(Some(request)),
        Err(error) => Err(error),
    }
}

/// A look for a key below each of some partitions in order. Contracts see it as the list of the
/// partitions left to check.
#[derive(Drop)]
pub struct CheckAbsent {
    partitions: TextList,
    at: usize,
}

impl Model for CheckAbsent {
    ghost use Rattle.std.specs.Prelude.{ℕ, List, drop};

    ghost Value = { List (List ℕ) };

    ghost view = { λ c. drop c.at c.partitions };
}

impl CheckAbsent {
    /// Returns a look below these partitions that has checked none yet. Takes no memory.
    pub fn new(partitions: TextList) -> CheckAbsent
        ensures { result ≡ partitions }
    {
        CheckAbsent { partitions, at: 0 }
    }

    /// Returns whether no partition is left to check. Takes no memory.
    pub fn is_over(&self) -> bool
        ensures { result ≡ is_none self.now }
    {
        self.at >= self.partitions.len()
    }

    /// Returns the request for a key below the next partition of a destination, or None if none is
    /// left.
    pub fn request(&self, alloc: Global, dest: &S3Path) -> Result<Option<Request>, AllocError>
        ensures { IfOk result (λ request. request ≡ check_asks dest.now self.now) }
    {
        match self.partitions.as_slice().get(self.at) {
            Some(partition) => key_request(alloc, dest, partition),
            None => Ok(None),
        }
    }

    /// Takes the reply to the current request. Returns the partition if a key is below it; else
    /// goes on to the next partition.
    pub fn hear(&mut self, reply: &Reply) -> Result<Option<Text>, AllocError>
        ensures found { IfOk result (λ found. found ≡ found_below self.old reply.now) }
        ensures left { OnOk result (self.new ≡ left_after self.old reply.now) }
    {
        let Reply::Page { entries, .. } = reply else {
            return Ok(None);
        };
        let Some(partition) = self.partitions.as_slice().get(self.at) else {
            return Ok(None);
        };
        if entries.len() == 0 {
            self.at += 1;
            return Ok(None);
        }
        Ok(Some(partition.clone()?))
    }
}
