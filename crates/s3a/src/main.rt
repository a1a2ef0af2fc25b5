//! `s3a FOLDER COMMAND WORDS`: runs the program over a folder, standard input and standard output.
#![tactic(auto)]

ghost use Rattle.std.specs.Prelude.{◌≡◌, IfOk};

use devices::{StdSink, StdSource};
use exit_status::Status;
use folder_log::{FileDisk, Lockable, LogShelf};
use s3_types::Text;
use s3a_top::run;
use std::alloc::{AllocError, Global};
use std::process::ExitCode;
use std::rt::{Env, Files};
use std::{env, io};

/// The words after the program's name, or none if the system does not give them as text.
fn words(rt: &(impl Env + AllocGlobal)) -> Result<Vec<Text>, AllocError> {
    let alloc = rt.alloc();
    let mut words = Vec::new(alloc);
    let args = match env::args(rt) {
        Ok(args) => args,
        Err(error) => {
            return match error.kind() {
                io::ErrorKind::OutOfMemory => Err(AllocError),
                _ => Ok(words),
            };
        }
    };
    for arg in args.skip(1) {
        words.push(Text::new(alloc, arg)?)?;
    }
    Ok(words)
}

/// The disk of the folder that the words name, or of the current folder if they name none.
fn disk<R: Files + Drop>(alloc: Global, rt: R, words: &[Text]) -> Result<FileDisk<R>, AllocError>
where
    R::File: Lockable,
    ensures { IfOk result (λ disk. disk ≡ record { calls = 0; faults = 0 }) }
{
    let folder = match words.first() {
        Some(folder) => String::from_str(alloc, folder.as_str())?,
        None => String::from_str(alloc, ".")?,
    };
    FileDisk::new(alloc, rt, folder)
}

/// Reports that memory ran out for the words or for the folder's disk.
fn say_no_memory(rt: &impl Print) -> ExitCode {
    let status = match println!(rt; "no memory") {
        Ok(()) => Status::NoMemory,
        Err(_) => Status::WriteFault,
    };
    ExitCode::from(status.code())
}

fn main(rt: HostRuntime) -> ExitCode {
    let alloc = rt.alloc();
    let Ok(words) = words(&rt) else {
        return say_no_memory(&rt);
    };
    let Ok(disk) = disk(alloc, &rt, words.as_slice()) else {
        return say_no_memory(&rt);
    };
    let mut shelf = LogShelf::new(alloc, disk);
    let mut input = StdSource::new(rt.reader());
    let mut out = StdSink::new(io::writer(&rt));
    let report = run(alloc, words.as_slice(), &mut input, &mut shelf, &mut out);
    ExitCode::from(report.status)
}
