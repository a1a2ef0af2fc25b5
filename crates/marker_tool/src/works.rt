ghost use Rattle.std.specs.Prelude.{◌≡◌, [], length, IfOk};
ghost use Rattle.s3_types.specs.Answer.{without};
ghost use Rattle.bucket_ops.specs.Asks.{request_of};
ghost use Rattle.fs_tree.specs.MarkerTool.{Audits, Cleans, Fills, IsCleaning, IsFilling};
ghost use Rattle.fs_ops.specs.code.Steps.{IsStill, OnlyLooks};
ghost use Rattle.marker_tool.specs.Markers.{markers_in, surplus_in, missing_in};
ghost use Rattle.fs_ops.specs.Places.{bucket_asks};
ghost use Rattle.marker_tool.specs.Works.{drops, puts, CleanSends, FillSends, with_markers};

use crate::listed::{markers_in, missing_in, surplus_in};
use crate::tool::MarkerTool;
use crate::tree_pass::{Found, TreePass};
use fs_ops::{look_at_bucket, put_empty};
use fs_tree::MarkerList;
use list_walk::batch_request;
use s3_types::{Bucket, Key, KeyList, PageEntry, Request, Text};
use std::alloc::{AllocError, Global};

/// The work of an audit: it lists the markers.
#[derive(Drop)]
pub struct Audit;

/// The work of a cleaning: it deletes surplus markers.
#[derive(Drop)]
pub struct Clean;

/// The work of a filling: it puts missing markers.
#[derive(Drop)]
pub struct Fill;

/// Lists the markers of a directory and of those below it, each with its kind, in the order of
/// their keys. (Hadoop, S3A: the marker tool, audit.)
///
/// It is refused with `NoSuchBucket`, then with `NotDirectory` and the path's key if a file exists
/// there, then with `NotFound` if nothing exists there; the root always exists. Nothing changes. It
/// sends one look, and a page for each 1,000 keys, and takes memory for all keys below the path.
pub type AuditMarkers = MarkerTool<Audit>;

/// Deletes the surplus markers of a directory and of those below it, and returns their number. A
/// marker is surplus if it has no bytes and another key begins with it. (Hadoop, S3A: the marker
/// tool, clean.)
///
/// It is refused as `AuditMarkers` is, with nothing changed. Nothing is deleted before all keys are
/// listed. It takes the same requests and memory, and a batch for each 1,000 surplus markers.
pub type CleanMarkers = MarkerTool<Clean>;

/// Puts the missing markers of a directory and of those below it, and returns their number. A
/// marker is missing if nothing exists at its key and another key begins with it. (Hadoop, S3A:
/// directory markers, keeping them.)
///
/// It is refused as `AuditMarkers` is, with nothing changed. Nothing is put before all keys are
/// listed. It sends the same requests, and one for each missing marker. It takes memory for all
/// keys, and for all missing markers.
pub type FillMarkers = MarkerTool<Fill>;

/// These keys, with their number as the answer.
fn counted(keys: KeyList) -> Found<u64>
    ensures { result ≡ record { keys = keys; answer = length keys } }
{
    let answer = keys.len() as u64;
    Found { keys, answer }
}

impl TreePass for Audit {
    type Answer = MarkerList;

    ghost keys = { λ q es. [] };

    ghost answer = { λ q es. markers_in es };

    ghost batch = { 1 };

    ghost changes = { λ ks. bucket_asks };

    ghost changed = { λ z ks. z };

    ghost gives = { Audits };

    ghost always = { IsStill };

    ghost sends = { OnlyLooks };

    fn of() -> Audit {
        Audit
    }

    fn batch(&self) -> usize {
        1
    }

    fn find(
        &self,
        alloc: Global,
        _prefix: &Text,
        entries: &[PageEntry],
    ) -> Result<Found<MarkerList>, AllocError> {
        let answer = markers_in(alloc, entries)?;
        Ok(Found {
            keys: KeyList::new(alloc),
            answer,
        })
    }

    fn change(&self, alloc: Global, bucket: &Bucket, _left: &[Key]) -> Result<Request, AllocError> {
        look_at_bucket(alloc, bucket)
    }

    #[tactic(auto, using(crate::proofs::WorkLaws::audit_laws))]
    fn laws() {}
}

impl TreePass for Clean {
    type Answer = u64;

    ghost keys = { λ q es. surplus_in es };

    ghost answer = { λ q es. length (surplus_in es) };

    ghost batch = { 1000 };

    ghost changes = { drops };

    ghost changed = { without };

    ghost gives = { Cleans };

    ghost always = { IsCleaning };

    ghost sends = { CleanSends };

    fn of() -> Clean {
        Clean
    }

    fn batch(&self) -> usize {
        1000
    }

    fn find(
        &self,
        alloc: Global,
        _prefix: &Text,
        entries: &[PageEntry],
    ) -> Result<Found<u64>, AllocError> {
        Ok(counted(surplus_in(alloc, entries)?))
    }

    fn change(&self, alloc: Global, bucket: &Bucket, left: &[Key]) -> Result<Request, AllocError> {
        batch_request(alloc, bucket, left)
    }

    #[tactic(auto, using(crate::proofs::WorkLaws::clean_laws))]
    fn laws() {}
}

impl TreePass for Fill {
    type Answer = u64;

    ghost keys = { missing_in };

    ghost answer = { λ q es. length (missing_in q es) };

    ghost batch = { 1 };

    ghost changes = { puts };

    ghost changed = { with_markers };

    ghost gives = { Fills };

    ghost always = { IsFilling };

    ghost sends = { FillSends };

    fn of() -> Fill {
        Fill
    }

    fn batch(&self) -> usize {
        1
    }

    fn find(
        &self,
        alloc: Global,
        prefix: &Text,
        entries: &[PageEntry],
    ) -> Result<Found<u64>, AllocError> {
        Ok(counted(missing_in(alloc, prefix, entries)?))
    }

    fn change(&self, alloc: Global, bucket: &Bucket, left: &[Key]) -> Result<Request, AllocError> {
        match left.first() {
            Some(key) => put_empty(alloc, bucket, key),
            None => look_at_bucket(alloc, bucket),
        }
    }

    #[tactic(auto, using(crate::proofs::WorkLaws::fill_laws))]
    fn laws() {}
}
