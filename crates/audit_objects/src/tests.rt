//! Puts, replaces and deletes objects, and compares the result with what must be there then.
use crate::Objects;
use audit_claims::Etags;
use s3_types::{Text, TextList};
use std::alloc::{AllocError, Global};

/// A place, and the tag of the object there.
#[derive(Clone, Copy)]
struct Row {
    bucket: &'static str,
    key: &'static str,
    tag: &'static str,
}

fn place(bucket: &'static str, key: &'static str, tag: &'static str) -> Row {
    Row { bucket, key, tag }
}

fn etags(alloc: Global, tag: &str) -> Result<Etags, AllocError> {
    let mut tags = TextList::new(alloc);
    tags.push(Text::copied(alloc, tag)?)?;
    Etags::new(alloc, tags)
}

fn put(alloc: Global, objects: &mut Objects, row: &Row) -> Result<(), AllocError> {
    let bucket = Text::copied(alloc, row.bucket)?;
    let key = Text::copied(alloc, row.key)?;
    objects.put(bucket, key, etags(alloc, row.tag)?)
}

/// Returns whether the object at a row's place has its tag; if the tag is empty, whether there is
/// no object.
fn has(alloc: Global, objects: &Objects, row: &Row) -> Result<bool, AllocError> {
    let bucket = Text::copied(alloc, row.bucket)?;
    let key = Text::copied(alloc, row.key)?;
    let expected = etags(alloc, row.tag)?;
    Ok(match objects.get(&bucket, &key) {
        Some(tags) => *tags == expected,
        None => row.tag.is_empty(),
    })
}

fn put_all(alloc: Global, objects: &mut Objects, rows: &[Row]) -> Result<(), AllocError> {
    for row in rows {
        put(alloc, objects, row)?;
    }
    Ok(())
}

fn has_all(alloc: Global, objects: &Objects, rows: &[Row]) -> Result<bool, AllocError> {
    let mut same = true;
    for row in rows {
        same = has(alloc, objects, row)? && same;
    }
    Ok(same)
}

fn remove(alloc: Global, objects: &mut Objects, row: &Row) -> Result<(), AllocError> {
    let bucket = Text::copied(alloc, row.bucket)?;
    let key = Text::copied(alloc, row.key)?;
    objects.remove(&bucket, &key);
    Ok(())
}

/// Puts four objects, one in the place of another, and deletes one.
fn play(alloc: Global) -> Result<bool, AllocError> {
    let mut objects = Objects::new(alloc);
    let puts = [
        place("b", "k", "t1"),
        place("b", "l", "t2"),
        place("a", "k", "t3"),
        place("b", "k", "t4"),
    ];
    put_all(alloc, &mut objects, &puts)?;
    remove(alloc, &mut objects, &place("b", "l", ""))?;
    let there = [
        place("b", "k", "t4"),
        place("b", "l", ""),
        place("a", "k", "t3"),
        place("a", "l", ""),
        place("c", "k", ""),
    ];
    has_all(alloc, &objects, &there)
}

#[test]
fn objects_of_two_buckets(rt: HostRuntime) {
    let played = play(rt.alloc());
    assert!(rt; played == Ok(true));
}
