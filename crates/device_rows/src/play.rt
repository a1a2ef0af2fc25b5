use crate::given::Given;
use devices::{CallList, MemSink, MemSource};
use folder_log::{LogShelf, MemDisk};
use s3_types::Bytes;
use s3a_top::{Report, run};
use std::alloc::{AllocError, Global};

/// What goes wrong in a run: a call of a device fails, numbered from 1, or the disk stops after so
/// many calls.
#[derive(Clone, Copy)]
pub enum Wrong {
    Nothing,
    Source(u64),
    Disk(u64),
    Sink(u64),
    Stop(u64),
}

impl Wrong {
    fn source(self) -> Option<u64> {
        match self {
            Wrong::Source(call) => Some(call),
            _ => None,
        }
    }

    fn disk(self) -> Option<u64> {
        match self {
            Wrong::Disk(call) => Some(call),
            _ => None,
        }
    }

    fn sink(self) -> Option<u64> {
        match self {
            Wrong::Sink(call) => Some(call),
            _ => None,
        }
    }

    fn stop(self) -> Option<u64> {
        match self {
            Wrong::Stop(calls) => Some(calls),
            _ => None,
        }
    }
}

/// What a run reported, and its devices afterwards.
#[derive(Drop)]
pub struct Played {
    pub report: Report,
    pub shelf: LogShelf<MemDisk>,
    pub out: MemSink,
}

/// A list of one call, or of none.
fn calls_of(alloc: Global, call: Option<u64>) -> Result<CallList, AllocError> {
    let mut calls = CallList::new(alloc);
    if let Some(call) = call {
        calls.push(call)?;
    }
    Ok(calls)
}

/// Runs the command over devices in memory.
pub fn play(given: &Given, wrong: Wrong) -> Result<Played, AllocError> {
    let alloc = given.alloc;
    let source_fails = calls_of(alloc, wrong.source())?;
    let disk_fails = calls_of(alloc, wrong.disk())?;
    let sink_fails = calls_of(alloc, wrong.sink())?;
    let bytes = Bytes::from_slice(alloc, &given.input)?;
    let file = given.file.clone()?;
    let mut input = MemSource::new(bytes, source_fails);
    let mut shelf = LogShelf::new(alloc, MemDisk::new(alloc, file, disk_fails, wrong.stop()));
    let mut out = MemSink::new(alloc, sink_fails);
    let report = run(
        alloc,
        given.words.as_slice(),
        &mut input,
        &mut shelf,
        &mut out,
    );
    Ok(Played { report, shelf, out })
}
