use crate::changes::{Change, Reader, change_in, tell_changes};
use crate::spelling::spelled;
use anyhow::{Context, Result};
use job_script::{Script, print_script, read_script};
use s3_types::let_go;
use std::alloc::{AllocError, Global};

/// What is shown of a script, or of two, beside the counts.
#[derive(Clone, Copy)]
pub enum Told {
    Nothing,
    Text,
    /// The answers after changes of its bytes.
    Changes(Change),
}

/// What a line asks for, and its script.
pub fn asked(line: &str) -> (Told, &str) {
    if let Some(row) = line.strip_prefix("=") {
        return (Told::Text, row);
    }
    match change_in(line) {
        (Some(change), row) => (Told::Changes(change), row),
        (None, row) => (Told::Nothing, row),
    }
}

/// Writes whether the bytes are a script, or the fault's number and its line.
pub fn put_script(line: &mut String, alloc: Global, bytes: &[u8]) -> Result<(), AllocError> {
    match read_script(alloc, bytes) {
        Ok(script) => {
            let_go(script);
            line.push_str("a script")
        }
        Err(fault) => {
            let number = fault.number();
            let at = fault.line();
            write!(line, "fault {number} at line {at}")
        }
    }
}

/// Prints the text of a script.
pub fn tell_text(rt: &impl Print, alloc: Global, script: &Script) -> Result<()> {
    let bytes = print_script(alloc, script)?;
    let text = str::from_utf8(bytes.as_slice()).context("a script's text")?;
    rt.print(text)?;
    Ok(())
}

fn tell_script(
    rt: &impl Print,
    alloc: Global,
    told: Told,
    bytes: &[u8],
    script: &Script,
) -> Result<()> {
    println!(rt;
        "a script of {} attempts and {} events",
        script.attempts.len(),
        script.events.len()
    )?;
    match told {
        Told::Nothing => Ok(()),
        Told::Text => tell_text(rt, alloc, script),
        Told::Changes(change) => tell_changes(rt, alloc, Reader::Script, change, bytes),
    }
}

/// Shows what a row's script is, or its fault.
pub fn show_script(rt: &impl Print, alloc: Global, line: &str) -> Result<()> {
    let (told, row) = asked(line);
    let bytes = spelled(alloc, row)?;
    match read_script(alloc, &bytes) {
        Ok(script) => {
            let shown = tell_script(rt, alloc, told, &bytes, &script);
            let_go(script);
            shown
        }
        Err(fault) => Ok(println!(rt; "{fault}")?),
    }
}
