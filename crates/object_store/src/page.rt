ghost use Rattle.std.specs.Option.{option_map};
ghost use Rattle.std.specs.Prelude.{◌≡◌, ℕ, ◌<◌, [], ◌∷◌, ◌++◌, true, false, length, take, nat_lt, slice_get, IfOk, Some, None};
ghost use Rattle.std.specs.FinMap as map;
ghost use Rattle.std.specs.BTreeMap.Range.{entries_between};
ghost use Rattle.std.specs.declared.ops.Bound.TheVariants.{Unbounded};
ghost use Rattle.text_and_lists.specs.Order.{text_cmp};
ghost use Rattle.std.specs.Range.Bound.{bound_map};
ghost use Rattle.s3_types.specs.Pages.{stem, entry_of, listed};
ghost use Rattle.object_store.specs.inner.Held.{AreOwn};
ghost use Rattle.object_store.specs.inner.Flat.{single, below, Follows};
ghost use Rattle.store_frame.specs.inner.Walk.{text_of, walked, start, ComesNext};

use crate::objects::{Held, Objects};
use s3_types::{EntryList, Key, Object, PageEntry, Text};
use std::alloc::{AllocError, Global};
use std::collections::btree_map::Range;
use std::ops::Bound;

/// Some entries of a bucket, and whether more remain.
#[derive(Drop)]
pub struct Page {
    pub entries: EntryList,
    pub more: bool,
}

fn page_of(entries: Vec<PageEntry>, more: bool) -> Page
    ensures entries { result.entries ≡ entries.items }
    ensures more { result.more ≡ more }
{
    Page {
        entries: EntryList::from_vec(entries),
        more,
    }
}

/// Returns the part of a text before the first `/` after the prefix, if it begins with the prefix.
fn stem_of<'a>(prefix: &Text, text: &'a Text) -> Option<&'a str>
    ensures { option_map (λ s. s.now) result ≡ stem prefix.now text.now }
{
    if !text.starts_with(prefix) {
        return None;
    }
    let whole = text.as_str();
    let bytes = whole.as_bytes();
    for i in prefix.as_str().len()..bytes.len() {
        if bytes[i] == b'/' {
            return Some(&whole[..i]);
        }
    }
    None
}

/// Returns the two texts joined.
fn joined(alloc: Global, stem: &str, end: &str) -> Result<Text, AllocError>
    ensures { IfOk result (λ text. text ≡ stem.now ++ end.now) }
{
    let mut text = String::from_str(alloc, stem)?;
    text.push_str(end)?;
    Text::new(alloc, text)
}

/// Returns the entry of a key in a listing with the delimiter, and the entry's text.
fn entry_at(
    alloc: Global,
    prefix: &Text,
    key: &Key,
    object: &Object,
) -> Result<(PageEntry, Text), AllocError>
    ensures entry { IfOk result (λ r. r.0 ≡ entry_of prefix.now true (key.now, object.now)) }
    ensures text { IfOk result (λ r. r.1 ≡ text_of prefix.now true key.now) }
{
    match stem_of(prefix, key.as_text()) {
        Some(stem) => {
            let text = joined(alloc, stem, "/")?;
            Ok((PageEntry::Prefix(text.clone()?), text))
        }
        None => {
            let length = object.bytes.as_slice().len() as u64;
            let text = key.as_text().clone()?;
            let key = key.clone()?;
            Ok((PageEntry::Object { key, length }, text))
        }
    }
}

/// Returns the entry of a single key.
fn single(held: &Held) -> Result<PageEntry, AllocError>
    ensures { IfOk result (λ entry. entry ≡ single held.now.key held.now) }
{
    Ok(PageEntry::Object {
        key: held.key.clone()?,
        length: held.object.bytes.as_slice().len() as u64,
    })
}

/// Returns where to look for the keys with a prefix after a text, in a listing without the
/// delimiter.
fn flat_start<'a>(prefix: &'a Text, after: &'a Text) -> Bound<&'a Text>
    ensures { bound_map (λ x. x.now) result ≡ start prefix.now false after.now }
{
    if after.cmp(prefix).is_lt() {
        Bound::Included(prefix)
    } else {
        Bound::Excluded(after)
    }
}

/// Returns a page of the entries that are left, as far as the keys begin with the prefix.
fn flat_page(
    alloc: Global,
    rest: Range<'_, Text, Held>,
    prefix: &Text,
    limit: u16,
) -> Result<Page, AllocError>
    requires follows { Follows prefix.now rest }
    requires own { AreOwn rest }
    ensures entries { IfOk result (λ page. page.entries ≡ take limit (below prefix.now rest.entry)) }
    ensures more { IfOk result (λ page. page.more ≡ nat_lt limit (length (below prefix.now rest.entry))) }
{
    let mut rest = rest;
    let mut entries = Vec::new(alloc);
    while let Some((text, held)) = rest.next() {
        if !text.starts_with(prefix) {
            return Ok(page_of(entries, false));
        }
        if entries.len() == limit as usize {
            return Ok(page_of(entries, true));
        }
        entries.push(single(held)?)?;
    }
    Ok(page_of(entries, false))
}

impl Objects {
    /// Returns at most `limit` entries after a text, without the delimiter, in O(log n) and O(1)
    /// for each.
    pub(crate) fn list_flat(
        &self,
        prefix: &Text,
        after: &Text,
        limit: u16,
    ) -> Result<Page, AllocError>
        ensures entries { IfOk result (λ page. page.entries
            ≡ take limit (walked prefix.now false after.now (map.entries self.now))) }
        ensures more { IfOk result (λ page. page.more
            ≡ nat_lt limit (length (walked prefix.now false after.now (map.entries self.now)))) }
    {
        let range = (flat_start(prefix, after), Bound::Unbounded);
        flat_page(self.alloc, self.held.range(range), prefix, limit)
    }

    /// Returns the first entry from the place on where the entries after a text can be, with the
    /// delimiter.
    fn first_after(&self, prefix: &Text, last: &Text) -> Result<Option<(&Key, &Object)>, AllocError>
        ensures { IfOk result (λ r. option_map (λ p. (p.0.now, p.1.now)) r ≡ slice_get
            (entries_between text_cmp (start prefix.now true last.now) Unbounded (map.entries self.now)) 0) }
    {
        match stem_of(prefix, last) {
            Some(stem) => {
                let past = joined(self.alloc, stem, "0")?;
                Ok(self.first_from(Bound::Included(&past)))
            }
            None => {
                if last.cmp(prefix).is_lt() {
                    return Ok(self.first_from(Bound::Included(prefix)));
                }
                Ok(self.first_from(Bound::Excluded(last)))
            }
        }
    }

    /// Returns the key whose entry comes next after a text, with the delimiter.
    fn next_listed(&self, prefix: &Text, last: &Text) -> Result<Option<(&Key, &Object)>, AllocError>
        ensures { IfOk result (λ r. ComesNext prefix.now true last.now (map.entries self.now)
            (option_map (λ p. (p.0.now, p.1.now)) r)) }
    {
        match self.first_after(prefix, last)? {
            Some((key, object)) => {
                if key.as_text().starts_with(prefix) {
                    return Ok(Some((key, object)));
                }
                Ok(None)
            }
            None => Ok(None),
        }
    }

    /// Returns at most `limit` entries after a text, with the delimiter. Each of them is searched
    /// for.
    pub(crate) fn walk(&self, prefix: &Text, after: &Text, limit: u16) -> Result<Page, AllocError>
        requires { 0 < limit }
        ensures entries { IfOk result (λ page. page.entries
            ≡ take limit (walked prefix.now true after.now (map.entries self.now))) }
        ensures more { IfOk result (λ page. page.more
            ≡ nat_lt limit (length (walked prefix.now true after.now (map.entries self.now)))) }
    {
        let mut entries = Vec::new(self.alloc);
        let mut last = after.clone()?;
        loop {
            let Some((key, object)) = self.next_listed(prefix, &last)? else {
                return Ok(page_of(entries, false));
            };
            if entries.len() == limit as usize {
                return Ok(page_of(entries, true));
            }
            let (entry, text) = entry_at(self.alloc, prefix, key, object)?;
            entries.push(entry)?;
            last = text;
        }
    }
}
