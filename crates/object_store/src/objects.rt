ghost use Rattle.std.specs.Option.{option_copied, option_map};
ghost use Rattle.std.specs.Prelude.{◌≡◌, ℕ, List, ◌<◌, ◌↔◌, length, take, nat_lt, IfOk, OnOk, OnErr, IsOkUnless, IsErrOf, IsSome, Some, None, slice_get};
ghost use Rattle.std.specs.FinMap as map;
ghost use Rattle.std.specs.Range.Bound.{bound_map};
ghost use Rattle.std.specs.BTreeMap.Range.{entries_between};
ghost use Rattle.std.specs.declared.ops.Bound.TheVariants.{Unbounded};
ghost use Rattle.text_and_lists.specs.Order.{text_cmp};
ghost use Rattle.s3_types.specs.Answer.{without, copied};
ghost use Rattle.s3_types.specs.Pages.{listed};
ghost use Rattle.object_store.specs.Objects.{head_of, next_of, IsNext};

use crate::entries::Entries;
use crate::fault::CopyFault;
use crate::page::Page;
use s3_types::{Bytes, Head, Key, LengthHeader, MOST_ENTRIES, Object, PageLimit, Refusal, Text};
use std::alloc::{AllocError, Global};
use std::collections::BTreeMap;
use std::marker::Model;
use std::ops::Bound;

/// What the tree stores at the text of a key.
#[derive(Drop)]
pub(crate) struct Held {
    pub(crate) key: Key,
    pub(crate) object: Object,
}

/// The objects of a bucket by their keys. Contracts see them as a finite map. The keys are ordered
/// by their bytes. In the costs below, n is the number of objects. No call copies the bytes of an
/// object.
#[derive(Drop)]
pub struct Objects {
    pub(crate) alloc: Global,
    pub(crate) held: BTreeMap<Text, Held>,
}

impl Model for Objects {
    ghost use Rattle.std.specs.FinMap as map;
    ghost use Rattle.s3_types.specs.Store.{Objects as Content};
    ghost use Rattle.s3_types.specs.Coded.{coded_objects};
    ghost use Rattle.object_store.specs.Held.{contents};
    ghost use Rattle.object_store.specs.inner.Held.{AreOwn};

    ghost Value = { Content };

    ghost coded = { coded_objects };

    ghost view = { λ o. map.from_entries (contents o.held.entries) };

    ghost invariant = { λ o. AreOwn o.held.entries };
}

impl Objects {
    /// No objects. Takes no memory.
    pub fn new(alloc: Global) -> Objects
        ensures { result ≡ map.empty }
    {
        Objects {
            alloc,
            held: BTreeMap::new(alloc),
        }
    }

    /// Puts an object at a key, replacing the one that is there, in O(log n). After an error
    /// everything is as before. (Amazon S3 API, PutObject.)
    pub fn put(
        &mut self,
        key: Key,
        bytes: Bytes,
        header: Option<LengthHeader>,
    ) -> Result<(), AllocError>
        ensures ok { OnOk result (self.new ≡ map.insert self.old key (record { bytes = bytes; header = header })) }
        ensures err { OnErr result (self.new ≡ self.old) }
    {
        let text = key.as_text().clone()?;
        let object = Object { bytes, header };
        self.held.insert(text, Held { key, object })?;
        Ok(())
    }

    /// Returns the object at a key, in O(log n). (Amazon S3 API, GetObject.)
    pub fn get(&self, key: &Key) -> Option<&Object>
        ensures { option_copied result ≡ map.get self.now key.now }
    {
        match self.held.get(key.as_text()) {
            Some(held) => Some(&held.object),
            None => None,
        }
    }

    /// Returns the length in bytes and the length header of the object at a key, in O(log n).
    /// (Amazon S3 API, HeadObject.)
    pub fn head(&self, key: &Key) -> Option<Head>
        ensures { result ≡ option_map head_of (map.get self.now key.now) }
    {
        match self.get(key) {
            Some(object) => Some(Head {
                length: object.bytes.as_slice().len() as u64,
                header: object.header,
            }),
            None => None,
        }
    }

    /// Removes the object at a key, if there is one, in O(log n). (Amazon S3 API, DeleteObject.)
    pub fn delete(&mut self, key: &Key)
        ensures { self.new ≡ map.remove self.old key.now }
    {
        let _ = self.held.remove(key.as_text());
    }

    /// Removes the objects at these keys, in O(log n) for each. If there are more than 1,000 keys,
    /// fails with TooManyKeys and removes nothing. (Amazon S3 API, DeleteObjects.)
    pub fn delete_many(&mut self, keys: &[Key]) -> Result<(), Refusal>
        ensures many { IsErrOf result Refusal.TooManyKeys ↔ (MOST_ENTRIES < length keys.now) }
        ensures only { IsOkUnless result Refusal.TooManyKeys }
        ensures ok { OnOk result (self.new ≡ without self.old keys.now) }
        ensures err { OnErr result (self.new ≡ self.old) }
    {
        if keys.len() > MOST_ENTRIES as usize {
            return Err(Refusal::TooManyKeys);
        }
        for key in keys {
            self.delete(key);
        }
        Ok(())
    }

    /// Copies the source's object to the target, bytes and header, in O(log n). The two share the
    /// bytes. Fails with NoSuchKey if the source does not exist. After an error everything is as
    /// before. (Amazon S3 API, CopyObject.)
    pub fn copy(&mut self, source: &Key, target: &Key) -> Result<(), CopyFault>
        ensures ok { OnOk result (self.new ≡ copied self.old target.now (map.get self.old source.now)) }
        ensures there { OnOk result (IsSome (map.get self.old source.now)) }
        ensures missing { IsErrOf result CopyFault.NoSuchKey ↔ (map.get self.old source.now ≡ None) }
        ensures err { OnErr result (self.new ≡ self.old) }
    {
        let Some(object) = self.get(source) else {
            return Err(CopyFault::NoSuchKey);
        };
        let header = object.header;
        let bytes = object.bytes.clone()?;
        self.put(target.clone()?, bytes, header)?;
        Ok(())
    }

    /// Returns the number of objects.
    pub fn count(&self) -> u64
        ensures { result ≡ map.len self.now }
    {
        self.held.len() as u64
    }

    /// Returns a page of the entries whose keys begin with the prefix: the first `limit` that are
    /// greater than `after`, in the order of their bytes, and whether more remain. If `delimited`
    /// is true, keys with the same text up to the first `/` after the prefix are one entry, which
    /// is that text. A page of k entries then takes O((k + 1) log n), else O(k + log n). (Amazon
    /// S3 API, ListObjectsV2.)
    pub fn list_page(
        &self,
        prefix: &Text,
        delimited: bool,
        after: &Text,
        limit: PageLimit,
    ) -> Result<Page, AllocError>
        ensures entries { IfOk result (λ page. page.entries
            ≡ take limit (listed prefix.now delimited after.now self.now)) }
        ensures more { IfOk result (λ page. page.more
            ≡ nat_lt limit (length (listed prefix.now delimited after.now self.now))) }
    {
        let limit = limit.get();
        if delimited {
            return self.walk(prefix, after, limit);
        }
        self.list_flat(prefix, after, limit)
    }

    /// Returns the first entry from a bound on.
    pub(crate) fn first_from(&self, start: Bound<&Text>) -> Option<(&Key, &Object)>
        ensures { option_map (λ p. (p.0.now, p.1.now)) result ≡ slice_get
            (entries_between text_cmp (bound_map (λ x. x.now) start.entry) Unbounded (map.entries self.now)) 0 }
    {
        match self.held.range((start, Bound::Unbounded)).next() {
            Some((_, held)) => Some((&held.key, &held.object)),
            None => None,
        }
    }

    /// Returns the entry with the least key that is greater than `after`, or the first entry if
    /// `after` is None, in O(log n).
    pub fn next(&self, after: Option<&Key>) -> Option<(&Key, &Object)>
        ensures next { option_map (λ p. (p.0.now, p.1.now)) result ≡ next_of (option_copied after.entry) self.now }
        ensures rest { IsNext (option_copied after.entry) self.now (option_map (λ p. (p.0.now, p.1.now)) result) }
    {
        match after {
            Some(key) => self.first_from(Bound::Excluded(key.as_text())),
            None => self.first_from(Bound::Unbounded),
        }
    }

    /// Returns all entries in the order of their keys.
    pub fn iter(&self) -> Entries<'_>
        ensures { result ≡ map.entries self.now }
    {
        Entries::new(self.held.iter())
    }
}
