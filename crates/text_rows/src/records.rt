use crate::changes::{Reader, change_in, tell_changes};
use crate::spelling::put;
use anyhow::{Context, Result, bail};
use pending_json::{PendingSet, PendingUpload, RecordFault, SuccessMark};
use s3_types::{Bytes, let_go};
use std::alloc::{AllocError, Global};

/// A kind of record.
#[derive(Clone, Copy)]
pub enum Record {
    Upload,
    Set,
    Mark,
}

fn record_named(name: &str) -> Result<Record> {
    match name {
        "upload" => Ok(Record::Upload),
        "set" => Ok(Record::Set),
        "mark" => Ok(Record::Mark),
        _ => bail!("no such record"),
    }
}

fn upload_again(alloc: Global, text: &[u8]) -> Result<Bytes, RecordFault> {
    let upload = PendingUpload::read(alloc, text)?;
    let again = upload.print(alloc);
    let_go(upload);
    Ok(again?)
}

fn set_again(alloc: Global, text: &[u8]) -> Result<Bytes, RecordFault> {
    let set = PendingSet::read(alloc, text)?;
    let again = set.print(alloc);
    let_go(set);
    Ok(again?)
}

fn mark_again(alloc: Global, text: &[u8]) -> Result<Bytes, RecordFault> {
    let mark = SuccessMark::read(alloc, text)?;
    let again = mark.print(alloc);
    let_go(mark);
    Ok(again?)
}

/// The one text of the record that this text is.
fn again(alloc: Global, record: Record, text: &[u8]) -> Result<Bytes, RecordFault> {
    match record {
        Record::Upload => upload_again(alloc, text),
        Record::Set => set_again(alloc, text),
        Record::Mark => mark_again(alloc, text),
    }
}

fn show_again(rt: &impl Print, read: &Result<Bytes, RecordFault>) -> Result<()> {
    match read {
        Ok(text) => println!(rt; "{}", str::from_utf8(text.as_slice())?)?,
        Err(fault) => println!(rt; "{fault:?}")?,
    }
    Ok(())
}

fn put_again(
    line: &mut String,
    read: &Result<Bytes, RecordFault>,
    before: &[u8],
) -> Result<(), AllocError> {
    match read {
        Ok(text) if text.as_slice() == before => line.push_str("the record"),
        Ok(_) => line.push_str("another record"),
        Err(fault) => write!(line, "{fault:?}"),
    }
}

/// Writes what a text is as a record, compared with another text.
pub fn put_record(
    line: &mut String,
    alloc: Global,
    record: Record,
    text: &[u8],
    before: &[u8],
) -> Result<(), AllocError> {
    let read = again(alloc, record, text);
    let put = put_again(line, &read, before);
    let_go(read);
    put
}

fn show_read(rt: &impl Print, alloc: Global, record: Record, text: &[u8]) -> Result<()> {
    let read = again(alloc, record, text);
    let shown = show_again(rt, &read);
    let_go(read);
    shown
}

/// Shows the one text of the record that a row's text is, or why it is none.
pub fn show_record(rt: &impl Print, alloc: Global, line: &str) -> Result<()> {
    let (change, row) = change_in(line);
    let (name, text) = row.split_once(' ').context("a record and a text")?;
    let record = record_named(name)?;
    let mut bytes = Vec::new(alloc);
    put(&mut bytes, text)?;
    show_read(rt, alloc, record, &bytes)?;
    match change {
        Some(change) => tell_changes(rt, alloc, Reader::Record(record), change, &bytes),
        None => Ok(()),
    }
}
