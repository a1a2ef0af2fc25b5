ghost use Rattle.std.specs.Prelude.{◌≡◌, ◌≤◌, false, IfOk};
ghost use Rattle.s3_types.specs.Fates.{is_answer};

use crate::replies::show_outcome;
use crate::requests::answer;
use crate::spelling::cut;
use anyhow::{Context, Result, bail};
use bucket_ops::perform_in;
use fs_ops::ListDir;
use fs_tree::{DirEntry, DirList, FsRefusal};
use machine::DriveStop;
use path_keys::S3Path;
use s3_service::Service;
use s3_types::{Actor, Fate, FateFault, Fates, Journal, let_go};
use std::alloc::{AllocError, Global};
use store_link::{Lossy, MemStore};

/// The number of keys.
const KEYS: u32 = 1_001;

/// The most retries of a request.
const RETRIES: u32 = 3;

/// Puts the keys into the store, the last of them first.
pub fn put_keys(alloc: Global, service: &mut Service) -> Result<()> {
    for number in (0..KEYS).rev() {
        let words = format!(in alloc; "do 1:2 8:4 'lake 8:5 'k{number:04} 8:0 8:3 'abc")?;
        let_go(answer(alloc, service, words.as_str())?);
    }
    Ok(())
}

fn fate_named(name: &str) -> Fate
    ensures { is_answer result ≡ false }
{
    match name {
        "slow" => Fate::Slow,
        "before" => Fate::Before,
        _ => Fate::After,
    }
}

/// The fates of `count` sends in a row, from the one numbered `first` on.
fn fates_of(alloc: Global, fate: Fate, first: u64, count: u32) -> Result<Fates, FateFault>
    requires first { 1 ≤ first }
    requires early { first ≤ 1000 }
    requires some { 1 ≤ count }
    requires few { count ≤ 1000 }
    requires lost { is_answer fate ≡ false }
{
    let mut fates = Fates::new(alloc);
    fates.add(first, fate, count)?;
    Ok(fates)
}

/// `FATE FIRST COUNT`
fn fates_in(alloc: Global, words: &str) -> Result<Fates> {
    let (name, numbers) = cut(words);
    let (first, count) = cut(numbers);
    let first = first.parse::<u64>().context("the first sending")?;
    let count = count.parse::<u32>().context("how many sendings")?;
    if first < 1 || first > 1000 || count < 1 || count > 1000 {
        bail!("no such sendings");
    }
    match fates_of(alloc, fate_named(name), first, count) {
        Ok(fates) => Ok(fates),
        Err(fault) => bail!("{fault:?}"),
    }
}

/// A copy of the store for which sends have these fates.
fn losing(alloc: Global, service: &Service, fates: Fates) -> Result<Lossy, AllocError>
    ensures { IfOk result (λ store. store.requests ≡ 0) }
{
    if service.next_upload() > 1 << 62 {
        return Err(AllocError);
    }
    Ok(Lossy::new(MemStore::new(alloc, service.copy()?), fates))
}

/// The result of a listing of the bucket's root.
type Listed = Result<Result<DirList, FsRefusal>, DriveStop>;

/// Lists the root of the bucket `lake`.
fn listed(alloc: Global, store: &mut Lossy, journal: &mut Journal) -> Result<Listed>
    requires { store.old.requests ≡ 0 }
{
    let root = S3Path::read(alloc, "s3a://lake")?;
    let bucket = root.bucket().clone()?;
    let dir = ListDir::new(alloc, &root)?;
    Ok(perform_in(
        alloc,
        bucket,
        dir,
        RETRIES,
        store,
        Actor::Driver,
        1,
        journal,
    ))
}

/// The number of files that are at the place of their number.
fn in_order(alloc: Global, entries: &[DirEntry]) -> Result<u32> {
    let mut count = 0u32;
    for (entry, number) in entries.iter().zip(0..KEYS) {
        let text = format!(in alloc; "k{number:04}")?;
        if entry.name.as_bytes() == text.as_bytes() {
            count = count.saturating_add(1);
        }
    }
    Ok(count)
}

fn show_listed(rt: &impl Print, alloc: Global, listed: &Listed) -> Result<()> {
    match listed {
        Ok(Ok(entries)) => {
            let count = in_order(alloc, entries.as_slice())?;
            print!(rt; ": {count} of {} keys", entries.len())?
        }
        Ok(Err(_)) => print!(rt; ": refused")?,
        Err(stop) => print!(rt; ": {stop:?}")?,
    }
    Ok(())
}

fn show_sendings(rt: &impl Print, journal: &Journal) -> Result<()> {
    for entry in journal.as_slice() {
        print!(rt; " ")?;
        show_outcome(rt, &entry.outcome)?;
    }
    Ok(())
}

fn walk(rt: &impl Print, alloc: Global, store: &mut Lossy) -> Result<()>
    requires { store.old.requests ≡ 0 }
{
    let mut journal = Journal::new(alloc);
    let listed = listed(alloc, store, &mut journal)?;
    show_sendings(rt, &journal)?;
    let shown = show_listed(rt, alloc, &listed);
    let_go(listed);
    let_go(journal);
    shown
}

/// `keys FATE FIRST COUNT`: lists the bucket's root in a copy of the store. Shows the outcome of
/// each send, and how many of the files are at their places.
pub fn show_walk(rt: &impl Print, alloc: Global, service: &Service, words: &str) -> Result<()> {
    print!(rt; ":")?;
    let fates = fates_in(alloc, words)?;
    let mut store = losing(alloc, service, fates)?;
    let shown = walk(rt, alloc, &mut store);
    let_go(store);
    shown
}
