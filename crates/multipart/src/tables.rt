ghost use Rattle.std.specs.Option.{option_copied, option_map, IsSomeAnd};
ghost use Rattle.std.specs.Prelude.{◌≡◌, ℕ, List, IfOk, OnOk, OnErr, IsSome, true};
ghost use Rattle.std.specs.FinMap as fin;
ghost use Rattle.std.specs.Range.Bound.{bound_map};
ghost use Rattle.std.specs.BTreeMap.Range.{entries_between};
ghost use Rattle.std.specs.declared.ops.Bound.TheVariants.{Unbounded};
ghost use Rattle.s3_types.specs.Multipart.{is_part_number, with_part, ref_cmp};
ghost use Rattle.multipart.specs.Next.{next_of};

use crate::part::{Part, Parts};
use s3_types::{Key, Text, let_go};
use std::alloc::{AllocError, Global};
use std::collections::BTreeMap;
use std::collections::btree_map::Range;
use std::marker::Model;
use std::ops::Bound;

/// A live upload: its key, the text of the key that it shares with the index, and its parts.
#[derive(Drop)]
pub struct Live {
    key: Key,
    text: Text,
    parts: Parts,
}

impl Model for Live {
    ghost use Rattle.std.specs.Prelude.{◌≡◌};
    ghost use Rattle.s3_types.specs.Store.{Upload};
    ghost use Rattle.s3_types.specs.Coded.{coded_upload};

    ghost Value = { Upload };

    ghost coded = { coded_upload };

    ghost view = { λ l. record { key = l.key; parts = l.parts } };

    ghost invariant = { λ l. l.text ≡ l.key };
}

impl Live {
    /// An upload with no parts.
    pub fn new(alloc: Global, key: Key) -> Result<Live, AllocError>
        ensures { IfOk result (λ live. live ≡ record { key = key; parts = fin.empty }) }
    {
        let Ok(text) = key.as_text().clone() else {
            let_go(key);
            return Err(AllocError);
        };
        let Ok(parts) = Parts::new(alloc) else {
            let_go(key);
            let_go(text);
            return Err(AllocError);
        };
        Ok(Live { key, text, parts })
    }

    /// Returns the key of the upload.
    pub fn key(&self) -> &Key
        ensures { result.now ≡ self.now.key }
    {
        &self.key
    }

    /// Returns the parts that were uploaded.
    pub fn parts(&self) -> &Parts
        ensures { result.now ≡ self.now.parts }
    {
        &self.parts
    }

    /// Returns the text of the upload's key.
    pub fn into_text(self) -> Text
        ensures { result ≡ self.key }
    {
        self.text
    }

    fn insert(&mut self, number: u32, part: Part) -> Result<(), AllocError>
        requires { is_part_number number ≡ true }
        ensures ok { OnOk result (self.new ≡ with_part self.old number part) }
        ensures err { OnErr result (self.new ≡ self.old) }
    {
        self.parts.insert(number, part)
    }
}

impl Clone for Live {
    ghost is_clone = { λ l copy. copy ≡ l };

    fn clone(&self) -> Result<Live, AllocError> {
        let key = self.key.clone()?;
        let Ok(text) = self.text.clone() else {
            let_go(key);
            return Err(AllocError);
        };
        let Ok(parts) = self.parts.clone() else {
            let_go(key);
            let_go(text);
            return Err(AllocError);
        };
        Ok(Live { key, text, parts })
    }
}

/// Live uploads by their ids.
#[derive(Drop)]
pub struct Lives {
    pub(crate) held: BTreeMap<u64, Live>,
}

impl Model for Lives {
    ghost use Rattle.std.specs.FinMap as fin;
    ghost use Rattle.s3_types.specs.Store.{Uploads as TheUploads};
    ghost use Rattle.s3_types.specs.Coded.{coded_uploads};

    ghost Value = { TheUploads };

    ghost coded = { coded_uploads };

    ghost view = { λ l. fin.from_entries l.held.entries };
}

impl Clone for Lives {
    ghost is_clone = { λ l copy. copy ≡ l };

    fn clone(&self) -> Result<Lives, AllocError> {
        Ok(Lives {
            held: self.held.clone()?,
        })
    }
}

impl Lives {
    /// No live uploads.
    pub fn new(alloc: Global) -> Lives
        ensures { result ≡ fin.empty }
    {
        Lives {
            held: BTreeMap::new(alloc),
        }
    }

    /// Adds an upload with no parts under this id. If memory runs out, the uploads are as before.
    pub fn begin(&mut self, alloc: Global, upload: u64, key: Key) -> Result<(), AllocError>
        ensures ok { OnOk result (self.new ≡ fin.insert self.old upload (record { key = key; parts = fin.empty })) }
        ensures err { OnErr result (self.new ≡ self.old) }
    {
        let live = Live::new(alloc, key)?;
        self.held.insert(upload, live)?;
        Ok(())
    }

    /// Returns the live upload with this id, if there is one.
    pub fn get(&self, upload: u64) -> Option<&Live>
        ensures { option_copied result ≡ fin.get self.now upload }
    {
        self.held.get(&upload)
    }

    /// Removes the live upload with this id, and returns it.
    pub fn remove(&mut self, upload: u64) -> Option<Live>
        ensures value { result ≡ fin.get self.old upload }
        ensures removed { self.new ≡ fin.remove self.old upload }
    {
        self.held.remove(&upload)
    }

    /// Puts a part into an existing upload.
    pub fn put_part(&mut self, upload: u64, number: u32, part: Part) -> Result<(), AllocError>
        requires there { IsSome (fin.get self.old upload) }
        requires numbered { is_part_number number ≡ true }
        ensures ok { OnOk result (IsSomeAnd (fin.get self.old upload)
            (λ u. self.new ≡ fin.insert self.old upload (with_part u number part))) }
        ensures err { OnErr result (self.new ≡ self.old) }
    {
        let Some(live) = self.held.get_mut(&upload) else {
            return Ok(());
        };
        let Err(error) = live.insert(number, part) else {
            return Ok(());
        };
        Err(error)
    }

    /// Returns the number of live uploads.
    pub fn count(&self) -> u64
        ensures { result ≡ fin.len self.now }
    {
        self.held.len() as u64
    }

    /// Returns the upload with the least id that is greater than `after`.
    pub fn next(&self, after: u64) -> Option<(u64, &Live)>
        ensures { option_map (λ p. (p.0, p.1.now)) result ≡ next_of after self.now }
    {
        let range = (Bound::Excluded(&after), Bound::Unbounded);
        match self.held.range(range).next() {
            Some((upload, live)) => Some((*upload, live)),
            None => None,
        }
    }
}

/// A place in the listing: first by the text of a key, then by the id of an upload. Any text has a
/// place.
#[derive(Drop, PartialEq, Eq, PartialOrd, Ord)]
pub struct Place {
    pub text: Text,
    pub upload: u64,
}

impl Model for Place {
    ghost use Rattle.s3_types.specs.declared.request.UploadRef.{UploadRef};
    ghost use Rattle.s3_types.specs.inner.Coded.{coded_ref};

    ghost Value = { UploadRef };

    ghost coded = { coded_ref };

    ghost view = { λ p. record { key = p.text; upload = p.upload } };

    ghost inverse = { λ r. record { text = r.key; upload = r.upload } };
}

impl Clone for Place {
    ghost is_clone = { λ p copy. copy ≡ p };

    fn clone(&self) -> Result<Place, AllocError> {
        Ok(Place {
            text: self.text.clone()?,
            upload: self.upload,
        })
    }
}

/// The keys of the live uploads by their places.
#[derive(Drop)]
pub struct Index {
    held: BTreeMap<Place, Key>,
}

impl Model for Index {
    ghost use Rattle.std.specs.Prelude.{ℕ, List};
    ghost use Rattle.std.specs.FinMap as fin;
    ghost use Rattle.s3_types.specs.Multipart.{ref_cmp};
    ghost use Rattle.s3_types.specs.inner.Coded.{coded_ref};
    ghost use Rattle.s3_types.specs.Coded.{coded_text};

    ghost Value = { fin.FinMap ref_cmp (List ℕ) };

    ghost coded = { fin.code coded_ref coded_text };

    ghost view = { λ i. fin.from_entries i.held.entries };
}

impl Clone for Index {
    ghost is_clone = { λ i copy. copy ≡ i };

    fn clone(&self) -> Result<Index, AllocError> {
        Ok(Index {
            held: self.held.clone()?,
        })
    }
}

impl Index {
    /// An index of no uploads.
    pub fn new(alloc: Global) -> Index
        ensures { result ≡ fin.empty }
    {
        Index {
            held: BTreeMap::new(alloc),
        }
    }

    /// Adds the key and id of an upload. If memory runs out, the index is as before.
    pub fn insert(&mut self, place: Place, key: Key) -> Result<(), AllocError>
        ensures ok { OnOk result (self.new ≡ fin.insert self.old place key) }
        ensures err { OnErr result (self.new ≡ self.old) }
    {
        self.held.insert(place, key)?;
        Ok(())
    }

    /// Removes the key and id of an upload.
    pub fn remove(&mut self, place: &Place)
        ensures { self.new ≡ fin.remove self.old place.now }
    {
        let _ = self.held.remove(place);
    }

    /// Returns the entries from a place on.
    pub fn from(&self, start: Bound<&Place>) -> Range<'_, Place, Key>
        ensures { result ≡ entries_between ref_cmp (bound_map (λ p. p.now) start.entry) Unbounded
            (fin.entries self.now) }
    {
        self.held.range((start, Bound::Unbounded))
    }
}
