//! `audit`: the program over standard input and standard output.
#![tactic(auto)]

use audit_top::audit;
use devices::{StdSink, StdSource};
use exit_status::Status;
use s3_types::Text;
use std::alloc::AllocError;
use std::process::ExitCode;
use std::rt::Env;
use std::{env, io};

/// Returns the words after the program's name. If the system does not give them as text, returns a
/// single word that is none of the program's.
fn words(rt: &(impl Env + AllocGlobal)) -> Result<Vec<Text>, AllocError> {
    let alloc = rt.alloc();
    let mut words = Vec::new(alloc);
    let args = match env::args(rt) {
        Ok(args) => args,
        Err(error) => {
            return match error.kind() {
                io::ErrorKind::OutOfMemory => Err(AllocError),
                _ => {
                    words.push(Text::copied(alloc, "?")?)?;
                    Ok(words)
                }
            };
        }
    };
    for arg in args.skip(1) {
        words.push(Text::new(alloc, arg)?)?;
    }
    Ok(words)
}

/// Prints that there is no memory for the words.
fn say_no_memory(rt: &impl Print) -> ExitCode {
    let status = match println!(rt; "no memory") {
        Ok(()) => Status::NoMemory,
        Err(_) => Status::WriteFault,
    };
    ExitCode::from(status.code())
}

fn main(rt: HostRuntime) -> ExitCode {
    let alloc = rt.alloc();
    let Ok(words) = words(&rt) else {
        return say_no_memory(&rt);
    };
    let mut input = StdSource::new(rt.reader());
    let mut out = StdSink::new(io::writer(&rt));
    let report = audit(alloc, words.as_slice(), &mut input, &mut out);
    ExitCode::from(report.status.code())
}
