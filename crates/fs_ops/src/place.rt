ghost use Rattle.std.specs.Prelude.{◌≡◌, ◌==◌, [], false, length, IfOk};
ghost use Rattle.std.specs.Option.{option_copied};
ghost use Rattle.bucket_ops.specs.Asks.{request_of, Page, Put};
ghost use Rattle.fs_ops.specs.Places.{key_if, bucket_asks, look_asks, get_asks, below_asks, drop_asks, drop_marker_asks, put_marker_asks, prefix_of};

use dir_markers::marker_key;
use path_keys::S3Path;
use s3_types::{Bucket, Bytes, Key, PageLimit, Request, Text, let_go};
use std::alloc::{AllocError, Global};
use std::marker::Model;

/// A path, its key and the key of its marker. The root has neither key.
#[derive(Drop)]
pub struct Place {
    path: Text,
    key: Option<Key>,
    marker: Option<Key>,
    alloc: Global,
}

impl Model for Place {
    ghost use Rattle.std.specs.Prelude.{◌≡◌, ℕ, List, true};
    ghost use Rattle.path_keys.specs.Paths.{is_key};
    ghost use Rattle.fs_tree.specs.Changes.{marker_if};
    ghost use Rattle.fs_ops.specs.Places.{key_if};

    ghost Value = { List ℕ };

    ghost view = { λ p. p.path };

    ghost invariant = { λ p. (p.key ≡ key_if p.path) × (p.marker ≡ marker_if p.path) × (is_key p.path ≡ true) };
}

/// The request for the first key that begins with this prefix. With the empty prefix it asks for
/// the bucket.
pub fn first_key(alloc: Global, bucket: &Bucket, prefix: &Text) -> Result<Request, AllocError>
    ensures { IfOk result (λ request. request ≡ request_of bucket.now (Page prefix.now false [] 1)) }
{
    let after = Text::empty(alloc)?;
    Request::list_page(bucket, prefix, false, &after, PageLimit::new(1))
}

/// The request that looks whether the bucket exists.
pub fn look_at_bucket(alloc: Global, bucket: &Bucket) -> Result<Request, AllocError>
    ensures { IfOk result (λ request. request ≡ request_of bucket.now bucket_asks) }
{
    first_key(alloc, bucket, &Text::empty(alloc)?)
}

/// The request that puts a marker, which has no bytes.
pub fn put_empty(alloc: Global, bucket: &Bucket, marker: &Key) -> Result<Request, AllocError>
    ensures { IfOk result (λ request. request ≡ request_of bucket.now (Put marker.now [])) }
{
    let bytes = Bytes::empty(alloc)?;
    Request::put_object(bucket, marker, &bytes, None)
}

impl Place {
    /// The place of a path.
    pub fn of(alloc: Global, path: &S3Path) -> Result<Place, AllocError>
        ensures { IfOk result (λ place. place ≡ path.now.key) }
    {
        let text = path.key().clone()?;
        if path.is_root() {
            return Ok(Place {
                path: text,
                key: None,
                marker: None,
                alloc,
            });
        }
        let Ok(key) = text.clone() else {
            let_go(text);
            return Err(AllocError);
        };
        let Ok(marker) = marker_key(alloc, path) else {
            let_go(text);
            let_go(key);
            return Err(AllocError);
        };
        Ok(Place {
            path: text,
            key: Some(Key::new(key)),
            marker: Some(marker),
            alloc,
        })
    }

    /// True for the root. Takes no memory.
    pub fn is_root(&self) -> bool
        ensures { result ≡ (length self.now == 0) }
    {
        self.path.as_bytes().is_empty()
    }

    /// The key of the path, or None for the root. Takes no memory.
    pub fn key(&self) -> Option<&Key>
        ensures { option_copied result ≡ key_if self.now }
    {
        self.key.as_ref()
    }

    /// The prefix of all keys below the path: its marker, or nothing at the root. Takes no memory.
    #[tactic(auto, using(crate::proofs::Names::prefix_marked, crate::proofs::Names::prefix_root))]
    pub fn prefix(&self) -> &Text
        ensures { result.now ≡ prefix_of self.now }
    {
        match &self.marker {
            Some(marker) => marker.as_text(),
            None => &self.path,
        }
    }

    /// The request for the first keys below the path, up to the limit. The path's marker counts as
    /// one.
    pub fn below(&self, bucket: &Bucket, limit: PageLimit) -> Result<Request, AllocError>
        ensures { IfOk result (λ request. request ≡ request_of bucket.now (below_asks self.now limit)) }
    {
        let after = Text::empty(self.alloc)?;
        Request::list_page(bucket, self.prefix(), false, &after, limit)
    }

    /// The request that looks for a file at the path; at the root, for the bucket.
    pub fn look(&self, bucket: &Bucket) -> Result<Request, AllocError>
        ensures { IfOk result (λ request. request ≡ request_of bucket.now (look_asks self.now)) }
    {
        match &self.key {
            Some(key) => Request::head_object(bucket, key),
            None => self.below(bucket, PageLimit::new(1)),
        }
    }

    /// The request for the bytes of the path's file.
    pub fn get(&self, bucket: &Bucket) -> Result<Request, AllocError>
        ensures { IfOk result (λ request. request ≡ request_of bucket.now (get_asks self.now)) }
    {
        match &self.key {
            Some(key) => Request::get_object(bucket, key),
            None => self.below(bucket, PageLimit::new(1)),
        }
    }

    /// The request that deletes the path's file.
    pub fn drop_file(&self, bucket: &Bucket) -> Result<Request, AllocError>
        ensures { IfOk result (λ request. request ≡ request_of bucket.now (drop_asks self.now)) }
    {
        match &self.key {
            Some(key) => Request::delete_object(bucket, key),
            None => self.below(bucket, PageLimit::new(1)),
        }
    }

    /// The request that deletes the path's marker.
    pub fn drop_marker(&self, bucket: &Bucket) -> Result<Request, AllocError>
        ensures { IfOk result (λ request. request ≡ request_of bucket.now (drop_marker_asks self.now)) }
    {
        match &self.marker {
            Some(marker) => Request::delete_object(bucket, marker),
            None => self.below(bucket, PageLimit::new(1)),
        }
    }

    /// The request that puts the path's marker.
    pub fn put_marker(&self, bucket: &Bucket) -> Result<Request, AllocError>
        ensures { IfOk result (λ request. request ≡ request_of bucket.now (put_marker_asks self.now)) }
    {
        match &self.marker {
            Some(marker) => put_empty(self.alloc, bucket, marker),
            None => self.below(bucket, PageLimit::new(1)),
        }
    }
}
