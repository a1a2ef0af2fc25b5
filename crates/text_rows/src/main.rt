//! Shows how texts and images are read, line by line. A line `== NAME` of standard input says what
//! the lines after it are. Each of those is answered by one or more lines.
//!
//! A line of records, scripts or images may begin with `<` or `*`. With `<` each front of the bytes
//! is read, with `*` all bytes with the lowest bit of one of them flipped, for each of them. Both
//! show where the answer changes.
//!
//! - `records`: `upload`, `set` or `mark` and a JSON text, in which `~` stands for the byte 255.
//!   The answer is the one text of the record, or why it is no record.
//! - `images`: the bytes of a store's image in hex. The answer is whether they are an image, or the
//!   fault and its place.
//! - `scripts`: a job script. The answer is what it is, or its fault. A script in a line that
//!   begins with `=` is printed.
//! - `twins`: two job scripts and an order, with the same answers.
//! - `paths`: a question about a path.
//! - `commands`: the words of a command line, separated by `|`.
//! - `made`: a seed and the numbers of tasks and of files, from which a script is made.
//!
//! In scripts, twins and paths `|` stands for LF, `^` for CR, `~` for the byte 255, and `@` for the
//! first five lines of an ordinary script. After a `{` come a count, a `:`, and a text that is
//! repeated so often. In that text `%` stands for the number of its turn, from 1, and `$` for that
//! number's hundreds, a dot, and its rest.
#![tactic(auto)]

mod changes;
mod commands;
mod images;
mod made;
mod paths;
mod records;
mod scripts;
mod spelling;
mod twins;

use anyhow::Result;
use commands::show_command;
use images::show_image;
use made::show_made;
use paths::show_path;
use records::show_record;
use scripts::show_script;
use std::alloc::Global;
use twins::show_twins;

/// What the lines after a `== NAME` are.
#[derive(Clone, Copy)]
enum Part {
    Record,
    Image,
    Script,
    Twins,
    Path,
    Command,
    Made,
}

fn part_named(name: &str) -> Part {
    match name {
        "records" => Part::Record,
        "images" => Part::Image,
        "scripts" => Part::Script,
        "twins" => Part::Twins,
        "paths" => Part::Path,
        "commands" => Part::Command,
        _ => Part::Made,
    }
}

fn show_row(rt: &impl Print, alloc: Global, part: Part, line: &str) -> Result<()> {
    match part {
        Part::Record => show_record(rt, alloc, line),
        Part::Image => show_image(rt, alloc, line),
        Part::Script => show_script(rt, alloc, line),
        Part::Twins => show_twins(rt, alloc, line),
        Part::Path => show_path(rt, alloc, line),
        Part::Command => show_command(rt, alloc, line),
        Part::Made => show_made(rt, alloc, line),
    }
}

/// Answers a line, and returns what the lines after it are.
fn part_after(rt: &impl Print, alloc: Global, part: Part, line: &str) -> Result<Part> {
    match line.strip_prefix("== ") {
        Some(name) => {
            println!(rt; "== {name}")?;
            Ok(part_named(name))
        }
        None => {
            show_row(rt, alloc, part, line)?;
            Ok(part)
        }
    }
}

fn main(rt: HostRuntime) -> Result<()> {
    let alloc = rt.alloc();
    let mut part = Part::Record;
    for line in rt.lines(alloc) {
        part = part_after(&rt, alloc, part, line?.as_str())?;
    }
    Ok(())
}
