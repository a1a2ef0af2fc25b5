ghost use Rattle.std.specs.Prelude.{◌≡◌, ◌++◌, ◌∷◌, [], IfOk, OnOk};
ghost use Rattle.s3_types.specs.Pages.{text_in};
ghost use Rattle.list_walk.specs.Walks.{keys_on, last_of, page_after, walked, walked_entries, walked_by};
ghost use Rattle.list_walk.specs.Fitting.{AreKeys, FitsPage};

use s3_types::{Bucket, EntryList, Key, KeyList, PageEntry, PageLimit, Reply, Request, Text};
use std::alloc::{AllocError, Global};
use std::marker::Model;

/// Returns the key of an entry, or its common prefix. Takes no memory.
pub fn text_of(entry: &PageEntry) -> &Text
    ensures { result.now ≡ text_in entry.now }
{
    match entry {
        PageEntry::Object { key, .. } => key.as_text(),
        PageEntry::Prefix(text) => text,
    }
}

/// Returns the key of an entry that has one. Takes no memory.
pub(crate) fn key_of(entry: &PageEntry) -> &Key
    requires { AreKeys (entry.now ∷ []) }
    ensures { result.now ≡ text_in entry.now }
{
    match entry {
        PageEntry::Object { key, .. } => key,
        PageEntry::Prefix(_) => unreachable!(),
    }
}

/// Returns the text of the last of these entries, or the empty text if there is none.
fn last_text(alloc: Global, entries: &[PageEntry]) -> Result<Text, AllocError>
    ensures { IfOk result (λ last. last ≡ last_of (keys_on entries.now)) }
{
    match entries.last() {
        Some(entry) => text_of(entry).clone(),
        None => Text::empty(alloc),
    }
}

/// Returns a copy of the entry that shares its text.
fn shared(entry: &PageEntry) -> Result<PageEntry, AllocError>
    ensures { IfOk result (λ copy. copy ≡ entry.now) }
{
    match entry {
        PageEntry::Object { key, length } => Ok(PageEntry::Object {
            key: key.clone()?,
            length: *length,
        }),
        PageEntry::Prefix(text) => Ok(PageEntry::Prefix(text.clone()?)),
    }
}

/// Adds the entries of a page.
fn add_entries(found: &mut EntryList, entries: &[PageEntry]) -> Result<(), AllocError>
    requires before { AreKeys found.old }
    requires page { AreKeys entries.now }
    ensures added { OnOk result (found.new ≡ found.old ++ entries.now) }
    ensures keys { AreKeys found.new }
{
    for entry in entries {
        found.push(shared(entry)?)?;
    }
    Ok(())
}

/// Adds the entries of the page in a reply, and returns whether more remain.
fn add_page(found: &mut EntryList, reply: &Reply) -> Result<bool, AllocError>
    requires before { AreKeys found.old }
    requires fits { FitsPage reply.now }
    ensures added { IfOk result (λ more. walked_entries found.old reply.now ≡ walked_by more found.new) }
    ensures keys { AreKeys found.new }
{
    match reply {
        Reply::Page { entries, more } => {
            add_entries(found, entries.as_slice())?;
            Ok(*more)
        }
        _ => Ok(true),
    }
}

/// A walk over the keys below a prefix, page by page. Contracts see it as the entries found so
/// far: each key with the length of its object in bytes. Keys are shared and not copied.
#[derive(Drop)]
pub struct KeyWalk {
    entries: EntryList,
    alloc: Global,
}

impl Model for KeyWalk {
    ghost use Rattle.std.specs.Prelude.{List};
    ghost use Rattle.s3_types.specs.declared.reply.PageEntry.{PageEntry};
    ghost use Rattle.list_walk.specs.Fitting.{AreKeys};

    ghost Value = { List PageEntry };

    ghost view = { λ w. w.entries };

    ghost invariant = { λ w. AreKeys w.entries };
}

impl KeyWalk {
    /// A walk before its first page. Takes no memory.
    pub fn new(alloc: Global) -> KeyWalk
        ensures { result ≡ [] }
    {
        KeyWalk {
            entries: EntryList::new(alloc),
            alloc,
        }
    }

    /// Returns the entries found so far, which are all keys. Takes no memory.
    pub fn entries(&self) -> &EntryList
        ensures entries { result.now ≡ self.now }
        ensures keys { AreKeys result.now }
    {
        &self.entries
    }

    /// Returns the keys found so far.
    pub fn keys(&self, alloc: Global) -> Result<KeyList, AllocError>
        ensures { IfOk result (λ keys. keys ≡ keys_on self.now) }
    {
        keys_in(alloc, self.entries.as_slice())
    }

    /// Returns the request for the next page, of at most 1,000 keys.
    pub fn request(&self, bucket: &Bucket, prefix: &Text) -> Result<Request, AllocError>
        ensures { IfOk result (λ request. request ≡ page_after bucket.now prefix.now (keys_on self.now)) }
    {
        let after = last_text(self.alloc, self.entries.as_slice())?;
        Request::list_page(
            bucket,
            prefix,
            false,
            &after,
            PageLimit::new(PageLimit::MOST),
        )
    }

    /// Takes a reply, and returns whether more pages remain. If memory runs out, the walk cannot
    /// be used any more.
    pub fn hear(&mut self, reply: &Reply) -> Result<bool, AllocError>
        requires { FitsPage reply.now }
        ensures entries { IfOk result (λ more. walked_entries self.old reply.now ≡ walked_by more self.new) }
        ensures keys { IfOk result (λ more. walked (keys_on self.old) reply.now ≡ walked_by more (keys_on self.new)) }
    {
        add_page(&mut self.entries, reply)
    }
}

/// Returns the keys of these entries.
fn keys_in(alloc: Global, entries: &[PageEntry]) -> Result<KeyList, AllocError>
    requires { AreKeys entries.now }
    ensures { IfOk result (λ keys. keys ≡ keys_on entries.now) }
{
    let mut keys = KeyList::new(alloc);
    for entry in entries {
        keys.push(key_of(entry).clone()?)?;
    }
    Ok(keys)
}
