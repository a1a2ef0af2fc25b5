ghost use Rattle.std.specs.Option.{option_copied};
ghost use Rattle.std.specs.Prelude.{◌≡◌, ℕ, Option, Some, None, true, IfOk, OnOk, OnErr, IsSome};
ghost use Rattle.std.specs.FinMap as map;
ghost use Rattle.std.specs.List.{filter};
ghost use Rattle.std.specs.Map.{keys_of};
ghost use Rattle.s3_types.specs.Pages.{begins};
ghost use Rattle.s3_types.specs.Store.{Content};
ghost use Rattle.s3_types.specs.Answer.{answer, apply, renamed, rename_answer, read_answer};
ghost use Rattle.s3_types.specs.Requests.{is_cluster};
ghost use Rattle.cluster_fs.specs.Cluster.{beside};
ghost use Rattle.cluster_fs.specs.inner.Cluster.{Follows};

use s3_types::{Bytes, Refusal, Reply, Request, Text, TextList};
use std::alloc::{AllocError, Global};
use std::collections::BTreeMap;
use std::collections::btree_map::Range;
use std::marker::Model;
use std::ops::Bound;

/// The files of a cluster by their paths. Contracts see them as a finite map. The paths are
/// ordered by their bytes. In the costs below, n is the number of files. No call copies the bytes
/// of a file.
#[derive(Drop)]
pub struct Cluster {
    alloc: Global,
    held: BTreeMap<Text, Bytes>,
}

impl Model for Cluster {
    ghost use Rattle.std.specs.FinMap as map;
    ghost use Rattle.s3_types.specs.Store.{Files};
    ghost use Rattle.s3_types.specs.Coded.{coded_files};

    ghost Value = { Files };

    ghost coded = { coded_files };

    ghost view = { λ c. map.from_entries c.held.entries };
}

/// Returns those of the remaining paths that begin with a prefix. They come first.
fn paths_of(
    alloc: Global,
    rest: Range<'_, Text, Bytes>,
    prefix: &Text,
) -> Result<TextList, AllocError>
    requires { Follows prefix.now (keys_of rest) }
    ensures { IfOk result (λ paths. paths ≡ filter (begins prefix.now) (keys_of rest.entry)) }
{
    let mut rest = rest;
    let mut paths = Vec::new(alloc);
    while let Some((path, _)) = rest.next() {
        if !path.starts_with(prefix) {
            return Ok(TextList::from_vec(paths));
        }
        paths.push(path.clone()?)?;
    }
    Ok(TextList::from_vec(paths))
}

impl Cluster {
    /// No files. Takes no memory.
    pub fn new(alloc: Global) -> Cluster
        ensures { result ≡ map.empty }
    {
        Cluster {
            alloc,
            held: BTreeMap::new(alloc),
        }
    }

    fn get(&self, path: &Text) -> Option<&Bytes>
        ensures { option_copied result ≡ map.get self.now path.now }
    {
        self.held.get(path)
    }

    fn put(&mut self, path: &Text, bytes: &Bytes) -> Result<(), AllocError>
        ensures ok { OnOk result (self.new ≡ map.insert self.old path.now bytes.now) }
        ensures err { OnErr result (self.new ≡ self.old) }
    {
        let path = path.clone()?;
        let bytes = bytes.clone()?;
        self.held.insert(path, bytes)?;
        Ok(())
    }

    fn delete(&mut self, path: &Text)
        ensures { self.new ≡ map.remove self.old path.now }
    {
        let _ = self.held.remove(path);
    }

    fn rename(&mut self, source: &Text, target: &Text) -> Result<Reply, AllocError>
        ensures reply { IfOk result (λ r. r ≡ rename_answer (map.get self.old source.now)) }
        ensures ok { OnOk result (self.new ≡ renamed self.old source.now target.now (map.get self.old source.now)) }
        ensures err { OnErr result (self.new ≡ self.old) }
    {
        let Some(bytes) = self.get(source) else {
            return Ok(Reply::Refused(Refusal::NoSuchFile));
        };
        let bytes = bytes.clone()?;
        self.put(target, &bytes)?;
        if source != target {
            self.delete(source);
        }
        Ok(Reply::ClusterDone)
    }

    fn read(&self, path: &Text) -> Result<Reply, AllocError>
        ensures { IfOk result (λ r. r ≡ read_answer (map.get self.now path.now)) }
    {
        match self.get(path) {
            Some(bytes) => Ok(Reply::ClusterBytes(bytes.clone()?)),
            None => Ok(Reply::Refused(Refusal::NoSuchFile)),
        }
    }

    /// Returns the paths that begin with a prefix, in O(log n + k) for k of them.
    fn list(&self, prefix: &Text) -> Result<TextList, AllocError>
        ensures { IfOk result (λ paths. paths ≡ filter (begins prefix.now) (map.keys self.now)) }
    {
        let rest = self.held.range((Bound::Included(prefix), Bound::Unbounded));
        paths_of(self.alloc, rest, prefix)
    }

    /// Does a request to the cluster and returns the answer, in O(log n), and for a listing of k
    /// paths in O(log n + k). If memory runs out, everything is as before. A rename replaces the
    /// file at the target in one step.
    pub fn apply(&mut self, request: &Request) -> Result<Reply, AllocError>
        requires { is_cluster request.now ≡ true }
        ensures reply { (content : Content) → IfOk result (λ r. r ≡ answer (beside content self.old) request.now) }
        ensures files { (content : Content) → OnOk result (beside content self.new
            ≡ apply (beside content self.old) request.now) }
        ensures err { OnErr result (self.new ≡ self.old) }
    {
        match request {
            Request::ClusterPut { path, bytes } => {
                self.put(path, bytes)?;
                Ok(Reply::ClusterDone)
            }
            Request::ClusterRename { source, target } => self.rename(source, target),
            Request::ClusterGet { path } => self.read(path),
            Request::ClusterDelete { path } => {
                self.delete(path);
                Ok(Reply::ClusterDone)
            }
            Request::ClusterList { prefix } => Ok(Reply::ClusterNames(self.list(prefix)?)),
            _ => unreachable!(),
        }
    }
}
