ghost use Rattle.std.specs.Option.{option_copied, option_map, option_and_then};
ghost use Rattle.std.specs.Prelude.{◌≡◌, ◌↔◌, ◌≤◌, ℕ, List, None, IfOk, IfErr, OnOk, OnErr, IsErrOf, IsOkUnless};
ghost use Rattle.std.specs.FinMap as fin;
ghost use Rattle.std.specs.Range.Bound.{bound_map};
ghost use Rattle.std.specs.BTreeMap.Range.{entries_between};
ghost use Rattle.std.specs.declared.ops.Bound.TheVariants.{Unbounded};
ghost use Rattle.s3_types.specs.Multipart.{live, ref_cmp};
ghost use Rattle.multipart.specs.inner.Index.{keyed};
ghost use Rattle.s3_types.specs.Answer.{part_answer, part_put, parts_answer};
ghost use Rattle.multipart.specs.Faults.{IfRefused};
ghost use Rattle.multipart.specs.Next.{next_of, shown};

use crate::fault::UploadFault;
use crate::part::Part;
use crate::tables::{Index, Live, Lives, Place};
use s3_types::{Bytes, Key, MOST_PARTS, PartSizes, Refusal, Reply, Tag, let_go};
use std::alloc::{AllocError, Global};
use std::collections::btree_map::Range;
use std::marker::Model;
use std::ops::Bound;

/// A live upload: its id, its key and the number of its parts, at most 10,000.
#[derive(Clone, Copy)]
pub struct LiveUpload<'a> {
    pub upload: u64,
    pub key: &'a Key,
    pub parts: u32,
}

/// The live uploads of a bucket. Contracts see them as a finite map from their ids. An index by
/// key and id is kept beside them. In the costs below, u is the number of uploads. Only a
/// completion of several parts copies the bytes of parts.
#[derive(Drop)]
pub struct Uploads {
    pub(crate) lives: Lives,
    index: Index,
    alloc: Global,
}

impl Model for Uploads {
    ghost use Rattle.std.specs.Prelude.{◌≡◌};
    ghost use Rattle.s3_types.specs.Store.{Uploads as TheUploads};
    ghost use Rattle.s3_types.specs.Coded.{coded_uploads};
    ghost use Rattle.multipart.specs.inner.Index.{keyed};

    ghost Value = { TheUploads };

    ghost coded = { coded_uploads };

    ghost view = { λ u. u.lives };

    ghost invariant = { λ u. u.index ≡ keyed u.lives };
}

/// Copies the uploads with their parts, in O(u + p) for p parts. The two share the bytes of the
/// parts and the texts of the keys.
impl Clone for Uploads {
    ghost is_clone = { λ u copy. copy ≡ u };

    fn clone(&self) -> Result<Uploads, AllocError> {
        let lives = self.lives.clone()?;
        let Ok(index) = self.index.clone() else {
            let_go(lives);
            return Err(AllocError);
        };
        Ok(Uploads {
            lives,
            index,
            alloc: self.alloc,
        })
    }
}

/// An entry of the index.
#[derive(Drop)]
struct Indexed {
    place: Place,
    key: Key,
}

/// Returns the index entry of an upload.
fn entry_of(key: &Key, upload: u64) -> Result<Indexed, AllocError>
    ensures place { IfOk result (λ entry. entry.place ≡ record { key = key.now; upload = upload }) }
    ensures key { IfOk result (λ entry. entry.key ≡ key.now) }
{
    let text = key.as_text().clone()?;
    let Ok(key) = key.clone() else {
        let_go(text);
        return Err(AllocError);
    };
    Ok(Indexed {
        place: Place { text, upload },
        key,
    })
}

impl Uploads {
    /// No uploads. Takes no memory.
    pub fn new(alloc: Global) -> Uploads
        ensures { result ≡ fin.empty }
    {
        Uploads {
            lives: Lives::new(alloc),
            index: Index::new(alloc),
            alloc,
        }
    }

    /// Adds an upload with no parts, in O(log u). Its id must be greater than those of the live
    /// uploads. After an error everything is as before. (Amazon S3 API, CreateMultipartUpload.)
    pub fn create(&mut self, upload: u64, key: Key) -> Result<(), AllocError>
        requires { (i : ℕ) → upload ≤ i → fin.get self.old i ≡ None }
        ensures ok { OnOk result (self.new ≡ fin.insert self.old upload (record { key = key; parts = fin.empty })) }
        ensures err { OnErr result (self.new ≡ self.old) }
    {
        let Ok(indexed) = entry_of(&key, upload) else {
            let_go(key);
            return Err(AllocError);
        };
        let Ok(()) = self.lives.begin(self.alloc, upload, key) else {
            let_go(indexed);
            return Err(AllocError);
        };
        let Err(_) = self.index.insert(indexed.place, indexed.key) else {
            return Ok(());
        };
        let _ = self.lives.remove(upload);
        Err(AllocError)
    }

    /// Returns the upload that is live with this key and id.
    pub(crate) fn live(&self, key: &Key, upload: u64) -> Option<&Live>
        ensures { option_copied result ≡ live self.now key.now upload }
    {
        let Some(found) = self.lives.get(upload) else {
            return None;
        };
        if found.key() == key {
            return Some(found);
        }
        None
    }

    /// Returns the entries of the index from a place on.
    pub(crate) fn from(&self, start: Bound<&Place>) -> Range<'_, Place, Key>
        ensures { result ≡ entries_between ref_cmp (bound_map (λ p. p.now) start.entry) Unbounded
            (fin.entries (keyed self.now)) }
    {
        self.index.from(start)
    }

    pub(crate) fn allocator(&self) -> Global {
        self.alloc
    }

    /// Stores a part, replacing an earlier one with that number, and returns its tag. Takes O(log
    /// u), and the time to move the parts with greater numbers. It is refused first with
    /// NoSuchUpload, if the upload is not live with this key, and then with BadPartNumber, if the
    /// number is not 1 to 10,000. After any fault everything is as before. (Amazon S3 API,
    /// UploadPart.)
    pub fn part(
        &mut self,
        key: &Key,
        upload: u64,
        number: u32,
        bytes: Bytes,
    ) -> Result<Tag, UploadFault>
        ensures tag { IfOk result (λ tag. part_answer (live self.old key.now upload) number bytes ≡ Reply.Part tag) }
        ensures put { OnOk result (self.new ≡ part_put self.old upload (live self.old key.now upload) number bytes) }
        ensures refused { IfErr result (λ fault. IfRefused fault
            (λ refusal. part_answer (live self.old key.now upload) number bytes ≡ Reply.Refused refusal)) }
        ensures same { OnErr result (self.new ≡ self.old) }
    {
        if self.live(key, upload).is_none() {
            return Err(UploadFault::Refused(Refusal::NoSuchUpload));
        }
        if number < 1 || number > MOST_PARTS {
            return Err(UploadFault::Refused(Refusal::BadPartNumber));
        }
        let part = Part::new(bytes);
        let tag = part.tag();
        match self.lives.put_part(upload, number, part) {
            Ok(()) => Ok(tag),
            Err(_) => Err(UploadFault::NoMemory),
        }
    }

    /// Ends an upload and drops its parts, in O(log u). If the upload is not live with this key,
    /// fails with NoSuchUpload and changes nothing. Takes no memory. (Amazon S3 API,
    /// AbortMultipartUpload.)
    pub fn remove(&mut self, key: &Key, upload: u64) -> Result<(), Refusal>
        ensures refused { IsErrOf result Refusal.NoSuchUpload ↔ (live self.old key.now upload ≡ None) }
        ensures only { IsOkUnless result Refusal.NoSuchUpload }
        ensures ok { OnOk result (self.new ≡ fin.remove self.old upload) }
        ensures err { OnErr result (self.new ≡ self.old) }
    {
        if self.live(key, upload).is_none() {
            return Err(Refusal::NoSuchUpload);
        }
        if let Some(found) = self.lives.remove(upload) {
            let text = found.into_text();
            self.index.remove(&Place { text, upload });
        }
        Ok(())
    }

    /// Returns the number of live uploads.
    pub fn count(&self) -> u64
        ensures { result ≡ fin.len self.now }
    {
        self.lives.count()
    }

    /// Returns the parts of an upload by rising number, each with its length in bytes and its tag,
    /// in O(log u + k) for k parts. Fails with NoSuchUpload if the upload is not live with this
    /// key. (Amazon S3 API, ListParts.)
    pub fn parts(&self, key: &Key, upload: u64) -> Result<PartSizes, UploadFault>
        ensures sizes { IfOk result (λ sizes. parts_answer (live self.now key.now upload) ≡ Reply.Parts sizes) }
        ensures refused { IsErrOf result (UploadFault.Refused Refusal.NoSuchUpload)
            ↔ (live self.now key.now upload ≡ None) }
        ensures only { IfErr result (λ fault. IfRefused fault (λ refusal. refusal ≡ Refusal.NoSuchUpload)) }
    {
        let Some(live) = self.live(key, upload) else {
            return Err(UploadFault::Refused(Refusal::NoSuchUpload));
        };
        match live.parts().sizes(self.alloc) {
            Ok(sizes) => Ok(sizes),
            Err(_) => Err(UploadFault::NoMemory),
        }
    }

    /// Returns the live upload with the least id that is greater than `after`, in O(log u).
    pub fn next(&self, after: u64) -> Option<LiveUpload<'_>>
        ensures { option_map {U = ℕ × List ℕ × ℕ} (λ l. (l.upload, l.key.now, l.parts)) result
            ≡ option_map shown (next_of after self.now) }
    {
        match self.lives.next(after) {
            Some((upload, live)) => Some(LiveUpload {
                upload,
                key: live.key(),
                parts: live.parts().count(),
            }),
            None => None,
        }
    }

    /// Returns the part with the least number that is greater than `after` in a live upload, with
    /// its bytes, in O(log u).
    pub fn next_part(&self, upload: u64, after: u32) -> Option<(u32, &Bytes)>
        ensures { option_map (λ p. (p.0, p.1.now)) result ≡ option_and_then (λ u. next_of after u.parts)
            (fin.get self.now upload) }
    {
        let Some(live) = self.lives.get(upload) else {
            return None;
        };
        match live.parts().next(after) {
            Some((number, part)) => Some((number, part.bytes())),
            None => None,
        }
    }
}
