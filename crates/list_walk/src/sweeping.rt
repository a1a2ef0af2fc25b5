ghost use Rattle.std.specs.Prelude.{◌≡◌, ℕ, List, take, drop, length, IfOk, Some, None};
ghost use Rattle.std.specs.List.{filter};
ghost use Rattle.s3_types.specs.declared.request.Request.TheVariants.{DeleteObjects};
ghost use Rattle.list_walk.specs.Walks.{sweep_start, sweep_asks, sweep_hears, deleting, keys_on};
ghost use Rattle.list_walk.specs.Fitting.{AreKeys, FitsSweep};
ghost use Rattle.list_walk.specs.Kept.{kept};
ghost use Rattle.list_walk.specs.inner.Kept.{next_from};

use crate::key_test::KeyTest;
use crate::key_walk::{KeyWalk, key_of};
use s3_types::{Bucket, Key, KeyList, PageEntry, Reply, Request, Sequence, Text, put};
use std::alloc::{AllocError, Global};
use std::marker::Model;

/// The most keys of a batch. (Amazon S3 API: DeleteObjects.)
const BATCH: usize = 1000;

/// Returns the first keys, at most `most` of them.
fn first_keys(keys: &[Key], most: usize) -> &[Key]
    ensures { result.now ≡ take most keys.now }
{
    if most < keys.len() {
        &keys[..most]
    } else {
        keys
    }
}

/// Returns the keys after the first `from`. Takes no memory.
pub fn keys_behind(keys: &[Key], from: usize) -> &[Key]
    ensures { result.now ≡ drop from keys.now }
{
    if from < keys.len() {
        &keys[from..]
    } else {
        &keys[..0]
    }
}

/// Returns a copy of the keys that shares their texts.
fn shared(alloc: Global, keys: &[Key]) -> Result<KeyList, AllocError>
    ensures { IfOk result (λ copy. copy ≡ keys.now) }
{
    let mut copy = Vec::with_capacity(alloc, keys.len())?;
    for key in keys {
        copy.push(key.clone()?)?;
    }
    Ok(Sequence::from_vec(copy))
}

/// Returns the request that deletes the first of these keys, at most one batch.
pub fn batch_request(alloc: Global, bucket: &Bucket, keys: &[Key]) -> Result<Request, AllocError>
    ensures { IfOk result (λ request. request ≡ DeleteObjects bucket.now (take 1000 keys.now)) }
{
    let keys = shared(alloc, first_keys(keys, BATCH))?;
    Ok(Request::DeleteObjects {
        bucket: bucket.clone()?,
        keys,
    })
}

/// Returns the keys of these entries that pass a test.
fn chosen<T: KeyTest>(alloc: Global, test: &T, entries: &[PageEntry]) -> Result<KeyList, AllocError>
    requires { AreKeys entries.now }
    ensures { IfOk result (λ chosen. chosen ≡ filter (T.goes test.now) (keys_on entries.now)) }
{
    let mut chosen = KeyList::new(alloc);
    for entry in entries {
        let key = key_of(entry);
        if test.takes(key.as_text()) {
            chosen.push(key.clone()?)?;
        }
    }
    Ok(chosen)
}

/// Returns the place of the batch after the present one, if there is one.
fn next_batch(from: usize, len: usize) -> Option<usize>
    ensures { result ≡ next_from from len }
{
    if from < len && BATCH < len - from {
        Some(from + BATCH)
    } else {
        None
    }
}

/// A sweep: it lists all keys below a prefix page by page, and then deletes those that pass a
/// test, in batches of at most 1,000. Keys are shared and not copied.
#[derive(Drop)]
pub struct Sweep {
    listing: bool,
    walk: KeyWalk,
    keys: KeyList,
    from: usize,
}

impl Model for Sweep {
    ghost use Rattle.std.specs.Prelude.{◌≡◌, ◌<◌, false, length};
    ghost use Rattle.list_walk.specs.Walks.{keys_on};
    ghost use Rattle.list_walk.specs.Kept.{Swept, sweep_at};

    ghost Value = { Swept };

    ghost view = { λ s. sweep_at s.listing (keys_on s.walk) s.keys s.from };

    ghost invariant = { λ s. s.listing ≡ false → s.from < length s.keys };
}

impl Sweep {
    /// A sweep before its first page. Takes no memory.
    pub fn new(alloc: Global) -> Sweep
        ensures { result ≡ sweep_start }
    {
        Sweep {
            listing: true,
            walk: KeyWalk::new(alloc),
            keys: KeyList::new(alloc),
            from: 0,
        }
    }

    /// A sweep that only deletes these keys, or None if there are none. Takes no memory.
    pub fn of(alloc: Global, keys: KeyList) -> Option<Sweep>
        ensures { result ≡ deleting keys }
    {
        if keys.len() == 0 {
            return None;
        }
        Some(Sweep {
            listing: false,
            walk: KeyWalk::new(alloc),
            keys,
            from: 0,
        })
    }

    /// Returns the next request: a page of at most 1,000 keys below the prefix, or a DeleteObjects
    /// of at most 1,000.
    pub fn request(
        &self,
        alloc: Global,
        bucket: &Bucket,
        prefix: &Text,
    ) -> Result<Request, AllocError>
        ensures { IfOk result (λ request. request ≡ sweep_asks bucket.now prefix.now self.now) }
    {
        if self.listing {
            self.walk.request(bucket, prefix)
        } else {
            batch_request(alloc, bucket, keys_behind(self.keys.as_slice(), self.from))
        }
    }

    /// Returns the same request, as a machine's answer.
    pub fn ask(
        &self,
        alloc: Global,
        bucket: &Bucket,
        prefix: &Text,
    ) -> Result<Option<Request>, AllocError>
        ensures { IfOk result (λ request. request ≡ Some (sweep_asks bucket.now prefix.now self.now)) }
    {
        match self.request(alloc, bucket, prefix) {
            Ok(request) => Ok(Some(request)),
            Err(error) => Err(error),
        }
    }

    /// Takes a reply, and returns whether there is a next request. Of the listed keys, those that
    /// pass the test will be deleted. If memory runs out, the sweep cannot be used any more.
    pub fn hear<T: KeyTest>(
        &mut self,
        alloc: Global,
        test: &T,
        reply: &Reply,
    ) -> Result<bool, AllocError>
        requires { FitsSweep self.old reply.now }
        ensures { IfOk result (λ more. sweep_hears (T.goes test.now) self.old reply.now ≡ kept more self.new) }
    {
        if !self.listing {
            return match next_batch(self.from, self.keys.len()) {
                Some(from) => {
                    self.from = from;
                    Ok(true)
                }
                None => Ok(false),
            };
        }
        if self.walk.hear(reply)? {
            return Ok(true);
        }
        let keys = chosen(alloc, test, self.walk.entries().as_slice())?;
        Ok(self.delete(keys))
    }

    /// Starts to delete these keys, and returns whether there are any.
    fn delete(&mut self, keys: KeyList) -> bool
        ensures { deleting keys ≡ kept result self.new }
    {
        if keys.len() == 0 {
            return false;
        }
        put(&mut self.keys, keys);
        self.from = 0;
        self.listing = false;
        true
    }
}
