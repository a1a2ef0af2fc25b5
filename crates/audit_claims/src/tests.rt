//! Compares a claim with what is expected of it.
use crate::{Claims, Directories, Etags, FileFit, PathTags};
use s3_types::{Text, TextList};
use std::alloc::{AllocError, Global};

/// A line that lists a file of an attempt, and the expected results.
#[derive(Clone, Copy)]
struct Row {
    task: u32,
    attempt: u32,
    path: &'static str,
    is_new: bool,
    fit: FileFit,
}

fn etags(alloc: Global, tag: &str) -> Result<Etags, AllocError> {
    let mut tags = TextList::new(alloc);
    tags.push(Text::copied(alloc, tag)?)?;
    Etags::new(alloc, tags)
}

/// Lists a row's attempt and file, and returns whether the results are those of the row.
fn add(alloc: Global, claims: &mut Claims, row: &Row) -> Result<bool, AllocError> {
    let is_new = claims.add_attempt(row.task, row.attempt)?;
    if claims.is_empty() {
        return Ok(false);
    }
    let path = Text::copied(alloc, row.path)?;
    let fit = claims.add_file(path, etags(alloc, "t1")?)?;
    Ok(is_new == row.is_new && fit == row.fit)
}

fn line(task: u32, attempt: u32, path: &'static str, is_new: bool, fit: FileFit) -> Row {
    Row {
        task,
        attempt,
        path,
        is_new,
        fit,
    }
}

/// Lists some lines, and returns whether each had its expected results.
fn list(alloc: Global, claims: &mut Claims) -> Result<bool, AllocError> {
    let lines = [
        line(0, 0, "a/x", true, FileFit::Added),
        line(0, 0, "c/z", false, FileFit::Added),
        line(0, 1, "a/x", true, FileFit::Added),
        line(0, 1, "a/x", false, FileFit::Repeated),
        line(1, 0, "a/x", true, FileFit::SamePath),
        line(1, 0, "b/y", false, FileFit::Added),
    ];
    let mut same = true;
    for line in &lines {
        same = add(alloc, claims, line)? && same;
    }
    Ok(same)
}

/// Returns whether a path is below a directory that some attempt writes into, and whether it is
/// below one that all attempts of some task write into.
fn reached(
    alloc: Global,
    directories: &Directories,
    path: &str,
) -> Result<(bool, bool), AllocError> {
    let path = Text::copied(alloc, path)?;
    Ok((
        directories.is_reached(&path),
        directories.is_always_reached(&path),
    ))
}

fn reached_paths(alloc: Global, claims: &Claims) -> Result<bool, AllocError> {
    let directories = Directories::of(alloc, claims)?;
    let some = reached(alloc, &directories, "c/new");
    let always = reached(alloc, &directories, "a/deep/new");
    Ok(some? == (true, false) && always? == (true, true))
}

#[test]
fn lines_of_a_claim(rt: HostRuntime) {
    let alloc = rt.alloc();
    let mut claims = Claims::new(alloc);
    let listed = list(alloc, &mut claims);
    let reached = reached_paths(alloc, &claims);
    assert!(rt; listed == Ok(true));
    assert!(rt; reached == Ok(true));
    assert_eq!(rt; claims.missing(2), None);
    assert_eq!(rt; claims.missing(3), Some(2));
}

fn put(alloc: Global, paths: &mut PathTags, path: &Text) -> Result<(), AllocError> {
    let tags = etags(alloc, "t1")?;
    paths.put(path.clone()?, tags)
}

fn is_copied(tags: &Etags) -> Result<bool, AllocError> {
    let copy = tags.clone()?;
    Ok(copy == *tags)
}

/// Gives a path tags, and returns whether it has them then.
fn has_tags(alloc: Global, paths: &mut PathTags, path: &Text) -> Result<bool, AllocError> {
    put(alloc, paths, path)?;
    match paths.get(path) {
        Some(tags) => is_copied(tags),
        None => Ok(false),
    }
}

#[test]
fn tags_of_paths(rt: HostRuntime) -> Result<(), AllocError> {
    let path = Text::copied(rt.alloc(), "a/x")?;
    let mut paths = PathTags::new(rt.alloc());
    let found = has_tags(rt.alloc(), &mut paths, &path);
    assert!(rt; found == Ok(true));
    Ok(())
}
