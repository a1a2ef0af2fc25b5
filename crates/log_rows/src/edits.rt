use crate::found::{Found, find};
use s3_types::Bytes;
use std::alloc::{AllocError, Global};
use std::io;

/// An edit of a file's bytes, made once for each number.
#[derive(Clone, Copy)]
pub enum Edit {
    /// Keeps as many of the first bytes as the number says.
    Prefix,
    /// Sets the byte at that place to a value.
    Set(u8),
    /// Flips the bits of a mask in the byte at that place.
    Turn(u8),
    /// Sets the byte at a place to the value that the number is.
    Value(usize),
}

impl Edit {
    /// The count of numbers for a file of so many bytes.
    fn count(self, length: usize) -> usize {
        match self {
            Edit::Prefix => length.saturating_add(1),
            Edit::Set(_) | Edit::Turn(_) => length,
            Edit::Value(_) => 256,
        }
    }
}

/// The bytes after the edit by a number.
fn edited(alloc: Global, bytes: &[u8], edit: Edit, number: usize) -> Result<Bytes, AllocError> {
    let mut copy = Vec::from_slice(alloc, bytes)?;
    let (place, mask, value) = match edit {
        Edit::Prefix => (number, 255, 0),
        Edit::Set(value) => (number, 0, value),
        Edit::Turn(mask) => (number, 255, mask),
        Edit::Value(place) => (place, 0, (number % 256) as u8),
    };
    if let Edit::Prefix = edit {
        copy.truncate(number);
    }
    if let Some(b) = copy.get_mut(place) {
        *b = (*b & mask) ^ value;
    }
    Bytes::new(alloc, copy)
}

/// Numbers in a row after whose edits the file holds the same.
#[derive(Clone, Copy)]
struct Run {
    first: usize,
    last: usize,
    found: Found,
}

fn show_run(rt: &impl Print, run: Run) -> io::Result<()> {
    let found = run.found;
    if run.first < run.last {
        println!(rt; "{} to {}: {found}", run.first, run.last)
    } else {
        println!(rt; "{}: {found}", run.first)
    }
}

/// The run with one number more. If this number finds something else, the run is shown and a new
/// one begins.
fn next_run(rt: &impl Print, run: Option<Run>, number: usize, found: Found) -> io::Result<Run> {
    let mut first = number;
    if let Some(run) = run {
        if run.found == found {
            first = run.first;
        } else {
            show_run(rt, run)?;
        }
    }
    Ok(Run {
        first,
        last: number,
        found,
    })
}

/// Shows what the file holds after the edit, for each number.
pub fn show_edits(rt: &impl Print, alloc: Global, bytes: &[u8], edit: Edit) -> io::Result<()> {
    let mut run: Option<Run> = None;
    for number in 0..edit.count(bytes.len()) {
        let found = find(alloc, edited(alloc, bytes, edit, number)?);
        run = Some(next_run(rt, run, number, found)?);
    }
    match run {
        Some(run) => show_run(rt, run),
        None => Ok(()),
    }
}
