use crate::images::put_image;
use crate::records::{Record, put_record};
use crate::scripts::put_script;
use crate::twins::put_twins;
use anyhow::Result;
use std::alloc::{AllocError, Global};

/// A reader of bytes.
#[derive(Clone, Copy)]
pub enum Reader {
    Script,
    Twins,
    Record(Record),
    Image,
}

/// A change of bytes, made once for each place.
#[derive(Clone, Copy)]
pub enum Change {
    /// Keeps only the bytes before the place.
    Front,
    /// Flips the lowest bit of the byte at the place.
    Turned,
}

impl Change {
    /// The number of places in so many bytes.
    fn places(self, length: usize) -> usize {
        match self {
            Change::Front => length.saturating_add(1),
            Change::Turned => length,
        }
    }
}

/// The change that a row asks for, if it asks for one, and the rest of the row.
pub fn change_in(line: &str) -> (Option<Change>, &str) {
    if let Some(row) = line.strip_prefix("<") {
        return (Some(Change::Front), row);
    }
    match line.strip_prefix("*") {
        Some(row) => (Some(Change::Turned), row),
        None => (None, line),
    }
}

fn changed(
    alloc: Global,
    change: Change,
    bytes: &[u8],
    place: usize,
) -> Result<Vec<u8>, AllocError> {
    let mut copy = Vec::from_slice(alloc, bytes)?;
    match change {
        Change::Front => copy.truncate(place),
        Change::Turned => {
            if let Some(b) = copy.get_mut(place) {
                *b = *b ^ 1;
            }
        }
    }
    Ok(copy)
}

/// What a reader says about bytes. For a record it also says whether it equals the one before.
fn outcome_of(alloc: Global, reader: Reader, bytes: &[u8], before: &[u8]) -> Result<String> {
    let mut line = String::new(alloc);
    match reader {
        Reader::Script => put_script(&mut line, alloc, bytes)?,
        Reader::Twins => put_twins(&mut line, alloc, bytes)?,
        Reader::Record(record) => put_record(&mut line, alloc, record, bytes, before)?,
        Reader::Image => put_image(&mut line, alloc, bytes)?,
    }
    Ok(line)
}

/// Shows what a reader says about the changed bytes, at each place where that differs from the
/// place before.
pub fn tell_changes(
    rt: &impl Print,
    alloc: Global,
    reader: Reader,
    change: Change,
    bytes: &[u8],
) -> Result<()> {
    let mut before = String::new(alloc);
    for place in 0..change.places(bytes.len()) {
        let copy = changed(alloc, change, bytes, place)?;
        let outcome = outcome_of(alloc, reader, &copy, bytes)?;
        if outcome.as_str() != before.as_str() {
            println!(rt; "  from {place}: {outcome}")?;
        }
        before = outcome;
    }
    Ok(())
}
