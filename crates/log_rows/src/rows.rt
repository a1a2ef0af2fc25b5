use crate::disks::show_disks;
use crate::edits::{Edit, show_edits};
use crate::found::find;
use crate::left::written;
use crate::play::Play;
use crate::plays::{show_memories, show_plays, written_before};
use anyhow::{Context, Result, bail};
use devices::kept::LoggedStore;
use log_format::{LogFault, read_log};
use s3_types::{Bytes, Sequence, put};
use std::alloc::{AllocError, Global};
use std::fs::File;
use std::rt::Files;

/// The file that the rows are about, and a log whose changes are appended.
#[derive(Drop)]
pub struct Rows {
    file: Option<Bytes>,
    log: LoggedStore,
    alloc: Global,
}

/// The medium of a run: a disk, or a shelf in memory.
#[derive(Clone, Copy)]
enum Medium {
    Disk,
    Memory,
}

/// The bytes that words of hex digits spell.
fn spelled(alloc: Global, words: &str) -> Result<Vec<u8>> {
    let mut digits = String::new(alloc);
    for word in words.split_whitespace() {
        digits.push_str(word)?;
    }
    Ok(hex::decode(alloc, digits.as_str())?)
}

fn log_in(alloc: Global, bytes: &Bytes) -> Result<LoggedStore> {
    match read_log(alloc, bytes) {
        Ok(held) => Ok(held),
        Err(LogFault::Bad(place)) => bail!("bad at {place}"),
        Err(LogFault::NoMemory) => Err(AllocError.into()),
    }
}

fn place_and_number(words: &str) -> Result<(usize, u64)> {
    let (place, number) = words.split_once(' ').context("a place and a number")?;
    Ok((place.parse::<usize>()?, number.parse::<u64>()?))
}

/// The bytes with a number in the 8 bytes at a place.
fn with_number(alloc: Global, bytes: &[u8], place: usize, number: u64) -> Result<Bytes> {
    if bytes.len() < 8 || place > bytes.len() - 8 {
        bail!("no 8 bytes stand there");
    }
    let mut copy = Vec::from_slice(alloc, bytes)?;
    copy[place..place + 8].copy_from_slice(&number.to_be_bytes());
    Ok(Bytes::new(alloc, copy)?)
}

impl Rows {
    /// The rows before the first line: nothing is given.
    pub fn new(alloc: Global) -> Result<Rows> {
        let log = LoggedStore {
            base: Bytes::empty(alloc)?,
            changes: Sequence::new(alloc),
        };
        Ok(Rows {
            file: None,
            log,
            alloc,
        })
    }

    fn take(&mut self, words: &str) -> Result<()> {
        let bytes = spelled(self.alloc, words)?;
        let file = if bytes.is_empty() {
            None
        } else {
            Some(Bytes::new(self.alloc, bytes)?)
        };
        put(&mut self.file, file);
        Ok(())
    }

    fn take_log(&mut self, words: &str) -> Result<()> {
        let bytes = Bytes::new(self.alloc, spelled(self.alloc, words)?)?;
        put(&mut self.log, log_in(self.alloc, &bytes)?);
        Ok(())
    }

    fn bytes(&self) -> &[u8] {
        match &self.file {
            Some(file) => file.as_slice(),
            None => &[],
        }
    }

    fn read(&self, rt: &impl Print) -> Result<()> {
        let bytes = Bytes::from_slice(self.alloc, self.bytes())?;
        Ok(println!(rt; "{}", find(self.alloc, bytes))?)
    }

    /// `PLACE NUMBER`
    fn read_with(&self, rt: &impl Print, words: &str) -> Result<()> {
        let (place, number) = place_and_number(words)?;
        let bytes = with_number(self.alloc, self.bytes(), place, number)?;
        Ok(println!(rt; "{}", find(self.alloc, bytes))?)
    }

    /// Runs with this base and the log's changes over a disk, or a shelf in memory.
    fn play(&self, rt: &impl Print, medium: Medium, words: &str) -> Result<()> {
        let base = spelled(self.alloc, words)?;
        let changes = self.log.changes.as_slice();
        let before = written_before(self.alloc, &self.file)?;
        let whole = written(self.alloc, &base, changes)?;
        let play = Play {
            file: &self.file,
            base: &base,
            changes,
            before: &before,
            whole: &whole,
        };
        match medium {
            Medium::Disk => Ok(show_plays(rt, self.alloc, play)?),
            Medium::Memory => Ok(show_memories(rt, self.alloc, play)?),
        }
    }
}

/// The edit that a row names.
fn edit_of(verb: &str, words: &str) -> Result<Edit> {
    match verb {
        "prefixes" => Ok(Edit::Prefix),
        "set" => Ok(Edit::Set(words.parse::<u8>()?)),
        "turn" => Ok(Edit::Turn(words.parse::<u8>()?)),
        "values" => Ok(Edit::Value(words.parse::<usize>()?)),
        _ => bail!("no such row"),
    }
}

fn show_edit(rt: &impl Print, rows: &Rows, verb: &str, words: &str) -> Result<()> {
    let edit = edit_of(verb, words)?;
    Ok(show_edits(rt, rows.alloc, rows.bytes(), edit)?)
}

fn show_row<R: Print + Files<File = File>>(
    rt: &R,
    rows: &mut Rows,
    verb: &str,
    words: &str,
) -> Result<()> {
    match verb {
        "log" => rows.take(words),
        "changes" => rows.take_log(words),
        "read" => rows.read(rt),
        "number" => rows.read_with(rt, words),
        "play" => rows.play(rt, Medium::Disk, words),
        "memory" => rows.play(rt, Medium::Memory, words),
        "files" => Ok(show_disks(rt, rows.alloc)?),
        _ => show_edit(rt, rows, verb, words),
    }
}

/// Shows a line and its answer.
pub fn show_line<R: Print + Files<File = File>>(rt: &R, rows: &mut Rows, line: &str) -> Result<()> {
    println!(rt; "{line}")?;
    let (verb, words) = line.split_once(' ').unwrap_or((line, ""));
    show_row(rt, rows, verb, words)
}
