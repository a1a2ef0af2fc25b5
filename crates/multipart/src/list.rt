ghost use Rattle.std.specs.Option.{option_copied};
ghost use Rattle.std.specs.Prelude.{◌≡◌, ◌≤◌, ◌+◌, ◌++◌, ◌∷◌, [], ℕ, List, Some, None, length, nat_lt, take, IfOk, OnOk};
ghost use Rattle.std.specs.Map.{keys_of};
ghost use Rattle.s3_types.specs.Multipart.{listed};
ghost use Rattle.multipart.specs.inner.Listing.{below, Follows, AreOwn};

use crate::tables::Place;
use crate::uploads::Uploads;
use s3_types::{Key, PageLimit, Text, UploadList, UploadRef, let_go};
use std::alloc::{AllocError, Global};
use std::collections::btree_map::Range;
use std::ops::Bound;

/// Some live uploads, ordered by key and then by id, and whether more remain.
#[derive(Drop)]
pub struct UploadPage {
    pub entries: UploadList,
    pub more: bool,
}

fn add_upload(entries: &mut Vec<UploadRef>, key: &Key, upload: u64) -> Result<(), AllocError>
    ensures added { OnOk result (entries.new.items ≡ entries.old.items ++ record { key = key.now; upload = upload } ∷ []) }
    ensures length { OnOk result (length entries.new.items ≡ length entries.old.items + 1) }
{
    let key = key.clone()?;
    entries.push(UploadRef { key, upload })?;
    Ok(())
}

/// Adds those of the remaining uploads whose keys begin with a prefix, and returns whether more
/// remain.
fn add_uploads(
    rest: Range<'_, Place, Key>,
    prefix: &Text,
    limit: u16,
    entries: &mut Vec<UploadRef>,
) -> Result<bool, AllocError>
    requires follows { Follows prefix.now (keys_of rest) }
    requires own { AreOwn rest }
    requires none { entries.old.items ≡ [] }
    ensures entries { OnOk result (entries.new.items ≡ take limit (below prefix.now (keys_of rest.entry))) }
    ensures more { IfOk result (λ more. more ≡ nat_lt limit (length (below prefix.now (keys_of rest.entry)))) }
{
    let mut rest = rest;
    while let Some((place, key)) = rest.next() {
        if !place.text.starts_with(prefix) {
            return Ok(false);
        }
        if entries.len() == limit as usize {
            return Ok(true);
        }
        add_upload(entries, key, place.upload)?;
    }
    Ok(false)
}

/// Returns a page of those of the remaining uploads whose keys begin with a prefix.
fn page_of(
    alloc: Global,
    rest: Range<'_, Place, Key>,
    prefix: &Text,
    limit: u16,
) -> Result<UploadPage, AllocError>
    requires follows { Follows prefix.now (keys_of rest) }
    requires own { AreOwn rest }
    ensures entries { IfOk result (λ page. page.entries ≡ take limit (below prefix.now (keys_of rest.entry))) }
    ensures more { IfOk result (λ page. page.more ≡ nat_lt limit (length (below prefix.now (keys_of rest.entry)))) }
{
    let mut entries = Vec::new(alloc);
    let Ok(more) = add_uploads(rest, prefix, limit, &mut entries) else {
        let_go(entries);
        return Err(AllocError);
    };
    Ok(UploadPage {
        entries: UploadList::from_vec(entries),
        more,
    })
}

impl Uploads {
    fn list_first(&self, prefix: &Text, limit: u16) -> Result<UploadPage, AllocError>
        ensures entries { IfOk result (λ page. page.entries ≡ take limit (listed prefix.now None self.now)) }
        ensures more { IfOk result (λ page. page.more ≡ nat_lt limit (length (listed prefix.now None self.now))) }
    {
        let first = Place {
            text: prefix.clone()?,
            upload: 0,
        };
        page_of(
            self.allocator(),
            self.from(Bound::Included(&first)),
            prefix,
            limit,
        )
    }

    fn list_after(
        &self,
        prefix: &Text,
        last: &UploadRef,
        limit: u16,
    ) -> Result<UploadPage, AllocError>
        ensures entries { IfOk result (λ page. page.entries ≡ take limit (listed prefix.now (Some last.now) self.now)) }
        ensures more { IfOk result (λ page. page.more
            ≡ nat_lt limit (length (listed prefix.now (Some last.now) self.now))) }
    {
        if last.key.as_text().cmp(prefix).is_lt() {
            return self.list_first(prefix, limit);
        }
        let start = Place {
            text: last.key.as_text().clone()?,
            upload: last.upload,
        };
        page_of(
            self.allocator(),
            self.from(Bound::Excluded(&start)),
            prefix,
            limit,
        )
    }

    /// Returns a page of the live uploads whose keys begin with a prefix, ordered by key and then
    /// by id: at most `limit` of them, and if `after` is given, only those after it. Takes O(log u
    /// + k) for k entries. (Amazon S3 API, ListMultipartUploads.)
    pub fn list(
        &self,
        prefix: &Text,
        after: Option<&UploadRef>,
        limit: PageLimit,
    ) -> Result<UploadPage, AllocError>
        ensures entries { IfOk result (λ page. page.entries
            ≡ take limit (listed prefix.now (option_copied after.entry) self.now)) }
        ensures more { IfOk result (λ page. page.more
            ≡ nat_lt limit (length (listed prefix.now (option_copied after.entry) self.now))) }
    {
        match after {
            Some(last) => self.list_after(prefix, last, limit.get()),
            None => self.list_first(prefix, limit.get()),
        }
    }
}
