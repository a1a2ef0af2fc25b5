ghost use Rattle.std.specs.Prelude.{◌≡◌, ◌==◌, ◌∷◌, [], true, length, Some, IfOk, OnOk, Err, option_map};
ghost use Rattle.s3_types.specs.Pages.{text_in};
ghost use Rattle.bucket_ops.specs.Asks.{request_of, Page};
ghost use Rattle.fs_tree.specs.Answers.{Lists};
ghost use Rattle.fs_tree.specs.Changes.{own_name};
ghost use Rattle.fs_tree.specs.declared.answers.FsRefusal.TheVariants.{NoSuchBucket};
ghost use Rattle.fs_ops.specs.code.List as list;
ghost use Rattle.fs_ops.specs.code.List.{told, paged, rest_of, is_file, is_file_named, has_file, file_by, dir_named, shown, added, all_added, last_text};
ghost use Rattle.fs_ops.specs.code.Stat.{length_in};
ghost use Rattle.fs_ops.specs.code.Steps.{goes_by, IsStill, OnlyLooks};

use crate::place::Place;
use bucket_ops::{Look, Phases, seen_in};
use dir_markers::Status;
use fs_tree::{DirEntry, DirList, FsRefusal};
use list_walk::text_of;
use operations::Step;
use path_keys::{S3Path, first_element};
use s3_types::{Bucket, PageEntry, PageLimit, Reply, Request, Text, let_go, put};
use std::alloc::{AllocError, Global};
use std::marker::Model;

/// The text of the last entry so far, or the empty text if there was none.
#[derive(Drop)]
pub struct Mark {
    last: Option<Text>,
}

impl Model for Mark {
    ghost use Rattle.std.specs.Prelude.{ℕ, List, []};
    ghost use Rattle.std.specs.Option.{unwrap_or};

    ghost Value = { List ℕ };

    ghost view = { λ m. unwrap_or m.last [] };
}

impl Mark {
    fn of(entry: &PageEntry) -> Result<Mark, AllocError>
        ensures { IfOk result (λ m. m ≡ text_in entry.now) }
    {
        Ok(Mark {
            last: Some(text_of(entry).clone()?),
        })
    }

    fn is_empty(&self) -> bool
        ensures { result ≡ (length self.now == 0) }
    {
        match &self.last {
            Some(text) => text.as_bytes().is_empty(),
            None => true,
        }
    }
}

/// The request for a page of children after a mark.
fn page_behind(
    alloc: Global,
    bucket: &Bucket,
    prefix: &Text,
    mark: &Mark,
) -> Result<Request, AllocError>
    ensures { IfOk result (λ request. request ≡ request_of bucket.now (Page prefix.now true mark.now 1000)) }
{
    let limit = PageLimit::new(PageLimit::MOST);
    match &mark.last {
        Some(text) => Request::list_page(bucket, prefix, true, text, limit),
        None => Request::list_page(bucket, prefix, true, &Text::empty(alloc)?, limit),
    }
}

/// The stage of the listing of a directory.
#[derive(Drop)]
pub enum ListStage {
    /// Asks whether a file exists at the path.
    Here,
    /// Asks for the next page, after the text `mark`; `found` are the children so far.
    Pages { found: DirList, mark: Mark },
}

/// Lists the children of a directory, each once, ordered by the bytes of their names with a `/`
/// after a directory's. A child that is a file and has keys below it is listed as the file only,
/// and the directory's own marker is no child. For a file the answer is its own entry. (Hadoop
/// FileSystem specification, listStatus.)
///
/// The answer is refused with `NoSuchBucket` if there is no bucket, and with `NotFound` if nothing
/// exists at the path. Nothing changes. It sends one request for the path, and then one page for
/// each 1,000 children.
#[derive(Drop)]
pub struct ListDir {
    alloc: Global,
    place: Place,
    name: Text,
}

impl Model for ListDir {
    ghost use Rattle.std.specs.Prelude.{◌≡◌, ℕ, List};
    ghost use Rattle.fs_tree.specs.Changes.{own_name};

    ghost Value = { List ℕ };

    ghost view = { λ o. o.place };

    ghost invariant = { λ o. o.name ≡ own_name o.place };
}

type Answer = Result<DirList, FsRefusal>;

fn is_file(status: Status) -> bool
    ensures { result ≡ is_file status }
{
    match status {
        Status::File(_) => true,
        Status::Directory => false,
    }
}

/// True if a file of this name was found. Between the file and a directory of its name the order
/// has only names that begin with it.
fn has_file(found: &[DirEntry], name: &Text) -> bool
    ensures { result ≡ has_file found.now name.now }
{
    found
        .iter()
        .rev()
        .take_while(|entry| entry.name.starts_with(name))
        .any(|entry| is_file(entry.status) && entry.name == *name)
}

/// The rest of a text after a prefix, if it begins with the prefix. Takes no memory.
pub fn rest_of<'t>(prefix: &str, text: &'t str) -> Option<&'t str>
    ensures { option_map (λ r. r.now) result ≡ rest_of prefix.now text.now }
{
    text.strip_prefix(prefix)
}

/// The child that an entry of a page shows, unless it was found before or is the directory's own
/// marker.
fn shown(
    alloc: Global,
    prefix: &Text,
    found: &[DirEntry],
    entry: &PageEntry,
) -> Result<Option<DirEntry>, AllocError>
    ensures { IfOk result (λ child. child ≡ shown prefix.now found.now entry.now) }
{
    match entry {
        PageEntry::Object { key, length } => {
            match rest_of(prefix.as_str(), key.as_text().as_str()) {
                Some(name) => file_entry(alloc, name, *length),
                None => Ok(None),
            }
        }
        PageEntry::Prefix(text) => match rest_of(prefix.as_str(), text.as_str()) {
            Some(rest) => dir_entry(alloc, found, first_element(rest).0),
            None => Ok(None),
        },
    }
}

/// A file's entry. The key that equals the prefix is the directory's own marker, and gives no
/// entry.
fn file_entry(alloc: Global, name: &str, length: u64) -> Result<Option<DirEntry>, AllocError>
    ensures { IfOk result (λ child. child ≡ file_by (Some name.now) length) }
{
    if name.is_empty() {
        return Ok(None);
    }
    Ok(Some(DirEntry {
        name: Text::copied(alloc, name)?,
        status: Status::File(length),
    }))
}

/// A directory's entry, unless a file of its name was found.
fn dir_entry(alloc: Global, found: &[DirEntry], name: &str) -> Result<Option<DirEntry>, AllocError>
    ensures { IfOk result (λ child. child ≡ dir_named (has_file found.now name.now) name.now) }
{
    let name = Text::copied(alloc, name)?;
    if has_file(found, &name) {
        return Ok(None);
    }
    Ok(Some(DirEntry {
        name,
        status: Status::Directory,
    }))
}

fn add(
    alloc: Global,
    prefix: &Text,
    found: &mut DirList,
    entry: &PageEntry,
) -> Result<(), AllocError>
    ensures { OnOk result (found.new ≡ added found.old (shown prefix.now found.old entry.now)) }
{
    match shown(alloc, prefix, found.as_slice(), entry)? {
        Some(child) => found.push(child),
        None => Ok(()),
    }
}

/// Adds the children that the entries of a page show, and marks the text of the last entry, if
/// there is one.
fn add_all(
    alloc: Global,
    prefix: &Text,
    found: &mut DirList,
    mark: &mut Mark,
    entries: &[PageEntry],
) -> Result<(), AllocError>
    ensures found { OnOk result (found.new ≡ all_added prefix.now found.old entries.now) }
    ensures mark { OnOk result (mark.new ≡ last_text mark.old entries.now) }
{
    for entry in entries {
        add(alloc, prefix, found, entry)?;
        put(mark, Mark::of(entry)?);
    }
    Ok(())
}

/// The last element of a key.
pub fn last_element(alloc: Global, key: &str) -> Result<Text, AllocError>
    ensures { IfOk result (λ name. name ≡ own_name key.now) }
{
    match key.rsplit_once('/') {
        Some((_, back)) => Text::copied(alloc, back),
        None => Text::copied(alloc, key),
    }
}

impl ListDir {
    /// The listing of the directory at a path of a bucket.
    pub fn new(alloc: Global, path: &S3Path) -> Result<ListDir, AllocError>
        ensures { IfOk result (λ dir. dir ≡ path.now.key) }
    {
        let place = Place::of(alloc, path)?;
        let Ok(name) = last_element(alloc, path.key().as_str()) else {
            let_go(place);
            return Err(AllocError);
        };
        Ok(ListDir { alloc, place, name })
    }

    fn all_pages(&self) -> ListStage
        ensures { result ≡ ListStage.Pages [] [] }
    {
        ListStage::Pages {
            found: DirList::new(self.alloc),
            mark: Mark { last: None },
        }
    }

    fn own_entry(&self, length: u64) -> Result<DirList, AllocError>
        ensures { IfOk result (λ list. list ≡ record { name = own_name self.now; status = Status.File length } ∷ []) }
    {
        let name = self.name.clone()?;
        let status = Status::File(length);
        let mut list = DirList::new(self.alloc);
        list.push(DirEntry { name, status })?;
        Ok(list)
    }

    fn on_here(&self, reply: &Reply) -> Result<Step<ListStage, Answer>, AllocError>
        ensures { IfOk result (λ step. step ≡ told self.now (length_in reply.now)) }
    {
        match reply {
            Reply::Head { length, .. } => Ok(Step::End(Ok(self.own_entry(*length)?))),
            _ => Ok(Step::Next(self.all_pages())),
        }
    }

    fn paged(&self, more: bool, found: DirList, mark: Mark) -> Step<ListStage, Answer>
        ensures { result ≡ paged self.now more found mark }
    {
        if more {
            Step::Next(ListStage::Pages { found, mark })
        } else if mark.is_empty() && !self.place.is_root() {
            Step::End(Err(FsRefusal::NotFound))
        } else {
            Step::End(Ok(found))
        }
    }

    fn on_page(
        &self,
        found: DirList,
        mark: Mark,
        reply: &Reply,
    ) -> Result<Step<ListStage, Answer>, AllocError>
        ensures { IfOk result (λ step. step ≡ list.on self.now (ListStage.Pages found mark) reply.now) }
    {
        let mut found = found;
        let mut mark = mark;
        match reply {
            Reply::Page { entries, more } => {
                let prefix = self.place.prefix();
                let entries = entries.as_slice();
                if let Err(fault) = add_all(self.alloc, prefix, &mut found, &mut mark, entries) {
                    let_go(found);
                    let_go(mark);
                    return Err(fault);
                }
                Ok(self.paged(*more, found, mark))
            }
            _ => Ok(self.paged(false, found, mark)),
        }
    }
}

impl Phases for ListDir {
    type Stage = ListStage;

    type Answer = Result<DirList, FsRefusal>;

    ghost first = { list.first };

    ghost asks = { list.asks };

    ghost goes = { goes_by list.on };

    ghost holds = { list.holds };

    ghost gives = { Lists };

    ghost always = { IsStill };

    ghost sends = { OnlyLooks };

    ghost left = { list.left };

    ghost absent = { Err NoSuchBucket };

    fn start(&self) -> ListStage {
        if self.place.is_root() {
            self.all_pages()
        } else {
            ListStage::Here
        }
    }

    fn ask(&self, bucket: &Bucket, stage: &ListStage) -> Result<Request, AllocError> {
        match stage {
            ListStage::Here => self.place.look(bucket),
            ListStage::Pages { mark, .. } => {
                page_behind(self.alloc, bucket, self.place.prefix(), mark)
            }
        }
    }

    fn next(&self, stage: ListStage, reply: &Reply) -> Result<Step<ListStage, Answer>, AllocError> {
        if let Look::NoBucket = seen_in(reply) {
            return Ok(Step::End(Err(FsRefusal::NoSuchBucket)));
        }
        match stage {
            ListStage::Here => self.on_here(reply),
            ListStage::Pages { found, mark } => self.on_page(found, mark, reply),
        }
    }

    #[tactic(auto, using(crate::proofs::ListLaws::list_laws, crate::proofs::ListLaws::list_asked))]
    fn laws() {}
}
