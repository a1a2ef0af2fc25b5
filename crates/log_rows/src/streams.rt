use crate::disks::{IMAGE, text_of};
use crate::faults::{Fault, Faulty};
use crate::plays::calls_of;
use devices::{MemSink, MemSource, Sink, Source, StdSink, StdSource};
use s3_types::{Bytes, let_go};
use std::alloc::{AllocError, Global};
use std::cell::Cell;
use std::rt::Files;
use std::{fs, io};

const FAULTS: [(Fault, &str); 5] = [
    (Fault::Nothing, "nothing fails"),
    (Fault::Read, "a file is read up to its first byte"),
    (Fault::Short, "one byte is read or written at a time"),
    (Fault::Full, "no byte is written"),
    (Fault::Flush, "nothing is flushed"),
];

/// Writes the answers of four reads of two bytes.
fn put_reads<S: Source>(line: &mut String, source: &mut S) -> Result<(), AllocError> {
    for _ in 0..4u8 {
        let mut buffer = [0u8; 2];
        match source.read(&mut buffer) {
            Ok(n) => write!(line, " [{}]", text_of(buffer.split_at(n.min(2)).0))?,
            Err(_) => line.push_str(" failed")?,
        }
    }
    Ok(())
}

/// Writes the answers of a write of three bytes, a write of none, and a flush.
fn put_writes<S: Sink>(line: &mut String, sink: &mut S) -> Result<(), AllocError> {
    let first = sink.write(b"abc");
    let second = sink.write(b"");
    let flushed = sink.flush().is_ok();
    write!(line, " {first:?} {second:?}, flushed {flushed}")
}

fn put_source<R: Files>(rt: &R, line: &mut String, fault: Fault) -> io::Result<()> {
    let fault = Cell::new(fault);
    let faulty = Faulty::new(rt, &fault);
    let mut source = StdSource::new(fs::open(&faulty, IMAGE)?);
    let put = put_reads(line, &mut source);
    let_go(source);
    Ok(put?)
}

fn put_sink<R: Files>(rt: &R, line: &mut String, fault: Fault) -> io::Result<()> {
    let fault = Cell::new(fault);
    let faulty = Faulty::new(rt, &fault);
    let mut sink = StdSink::new(fs::create(&faulty, IMAGE)?);
    let put = put_writes(line, &mut sink);
    let_go(sink);
    Ok(put?)
}

/// Writes the answers of a source in memory whose third call fails, and of a sink in memory.
fn put_memory(alloc: Global, line: &mut String) -> Result<(), AllocError> {
    let bytes = Bytes::from_slice(alloc, b"first")?;
    let mut source = MemSource::new(bytes, calls_of(alloc, Some(3))?);
    put_reads(line, &mut source)?;
    let mut sink = MemSink::new(alloc, calls_of(alloc, None)?);
    put_writes(line, &mut sink)
}

fn show_stream<R: Print + Files>(
    rt: &R,
    alloc: Global,
    fault: Fault,
    what: &str,
) -> io::Result<()> {
    let mut line = String::new(alloc);
    put_source(rt, &mut line, fault)?;
    line.push_str(",")?;
    put_sink(rt, &mut line, fault)?;
    println!(rt; "stream where {what}:{line}")?;
    fs::write(rt, IMAGE, "first")
}

/// Shows the answers of streams over the folder's file, and of streams in memory.
pub fn show_streams<R: Print + Files>(rt: &R, alloc: Global) -> io::Result<()> {
    for (fault, what) in &FAULTS {
        show_stream(rt, alloc, *fault, what)?;
    }
    let mut line = String::new(alloc);
    put_memory(alloc, &mut line)?;
    println!(rt; "stream in memory:{line}")
}
