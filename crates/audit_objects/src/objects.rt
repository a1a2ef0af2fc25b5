ghost use Rattle.std.specs.FinMap as map;
ghost use Rattle.std.specs.List.{list_any};
ghost use Rattle.std.specs.Option.{option_copied};
ghost use Rattle.std.specs.Prelude.{◌≡◌, [], ◌∷◌, ℕ, List, None, cond, OnOk, OnErr};
ghost use Rattle.std.specs.Str.{bytes_eq};
ghost use Rattle.audit_objects.specs.Objects.{at, delete, put};

use audit_claims::{Etags, PathTags};
use s3_types::Text;
use std::alloc::{AllocError, Global};
use std::collections::BTreeMap;
use std::marker::Model;

/// The objects of all buckets, each with the tags of its parts. Contracts see a finite map from
/// buckets to finite maps from keys to tags. Each call costs O(log b + log n) for b buckets and n
/// keys of one, and `remove_all` O(log n) for each key.
#[derive(Drop)]
pub struct Objects {
    alloc: Global,
    buckets: BTreeMap<Text, PathTags>,
}

impl Model for Objects {
    ghost use Rattle.std.specs.FinMap as map;
    ghost use Rattle.audit_objects.specs.Objects.{ObjectMap, coded_objects};

    ghost Value = { ObjectMap };

    ghost coded = { coded_objects };

    ghost view = { λ o. map.from_entries o.buckets.entries };
}

/// Deletes the objects at these keys.
fn remove_keys(held: &mut PathTags, keys: &[Text])
    ensures gone { (k : List ℕ) → map.get held.new k ≡ cond (list_any (λ key. bytes_eq key k) keys.now) None (map.get held.old k) }
{
    for key in keys {
        held.remove(key);
    }
}

impl Objects {
    /// Returns a map without objects. Takes no memory.
    pub fn new(alloc: Global) -> Objects
        ensures none { (b k : List ℕ) → at result b k ≡ None }
    {
        Objects {
            alloc,
            buckets: BTreeMap::new(alloc),
        }
    }

    /// Returns the tags of the object at a key of a bucket, if there is one.
    pub fn get(&self, bucket: &Text, key: &Text) -> Option<&Etags>
        ensures found { option_copied result ≡ at self.now bucket.now key.now }
    {
        let Some(tags) = self.buckets.get(bucket) else {
            return None;
        };
        tags.get(key)
    }

    /// Adds a bucket with one object. Fails only if memory runs out; all is then unchanged.
    fn add_bucket(&mut self, bucket: Text, key: Text, etags: Etags) -> Result<(), AllocError>
        requires other { map.get self.old bucket ≡ None }
        ensures ok { OnOk result ((b k : List ℕ) → at self.new b k ≡ put bucket key etags (at self.old) b k) }
        ensures err { OnErr result (self.new ≡ self.old) }
    {
        let mut tags = PathTags::new(self.alloc);
        tags.put(key, etags)?;
        self.buckets.insert(bucket, tags)?;
        Ok(())
    }

    /// Puts an object with these tags at a key, in place of the one there. Fails only if memory
    /// runs out; all is then unchanged.
    pub fn put(&mut self, bucket: Text, key: Text, etags: Etags) -> Result<(), AllocError>
        ensures put { OnOk result ((b k : List ℕ) → at self.new b k ≡ put bucket key etags (at self.old) b k) }
        ensures err { OnErr result (self.new ≡ self.old) }
    {
        let Some(tags) = self.buckets.get_mut(&bucket) else {
            return self.add_bucket(bucket, key, etags);
        };
        match tags.put(key, etags) {
            Ok(()) => return Ok(()),
            Err(error) => return Err(error),
        }
    }

    /// Deletes the object at a key of a bucket, if there is one.
    pub fn remove(&mut self, bucket: &Text, key: &Text)
        ensures gone { (b k : List ℕ) → at self.new b k ≡ delete bucket.now (key.now ∷ []) (at self.old) b k }
    {
        let Some(tags) = self.buckets.get_mut(bucket) else {
            return;
        };
        tags.remove(key);
    }

    /// Deletes the objects at these keys of a bucket, if they exist.
    pub fn remove_all(&mut self, bucket: &Text, keys: &[Text])
        ensures gone { (b k : List ℕ) → at self.new b k ≡ delete bucket.now keys.now (at self.old) b k }
    {
        let Some(tags) = self.buckets.get_mut(bucket) else {
            return;
        };
        remove_keys(tags, keys);
    }
}
