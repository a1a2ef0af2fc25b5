//! Shows what a log holds, and what a crash leaves of it. Each line of standard input is shown as
//! it is, and after it the answer.
//!
//! - `log HEX ..` takes these bytes as the file.
//! - `read` shows what the file holds, and `prefixes` what each of its prefixes holds.
//! - `set VALUE` and `turn MASK` show what the file holds with one byte set to a value, or turned
//!   by a mask, for each of its bytes.
//! - `values PLACE` shows it with the byte at a place set to each value. `number PLACE NUMBER`
//!   shows it with this number in the 8 bytes there.
//! - Equal answers in a row are shown once, with their first and their last place or value.
//! - `changes HEX` takes the changes of a log, to be appended by `play` and `memory`.
//! - `play BASE` loads the file, replaces it by a base of these bytes and appends those changes,
//!   over a disk in memory. If `log` has no bytes, there is no file to load.
//! - `memory BASE` does the same over a shelf in memory of which no call fails, or one, and shows
//!   what the shelf then holds.
//! - `files` shows the answer of each call over a folder's file while a call of the system fails,
//!   and what a read then returns. It shows the same for two calls of one disk, the answers of two
//!   disks of one folder, and what the program's streams and those in memory read and write.
//!
//! `play` shows how many calls are made and the file that they leave. Then it runs again for each
//! number of calls after which the disk stops, and for each call that fails alone. For each it
//! shows how many appends were answered, and what is loaded after a crash. That depends on the
//! ranges that were not synced: they are lost, kept, or torn. The answer is the number of changes,
//! `before` for what was held, `nothing` for no file, or `another`.
#![tactic(auto)]

mod disks;
mod edits;
mod faults;
mod found;
mod left;
mod play;
mod plays;
mod rivals;
mod rows;
mod streams;

use anyhow::Result;
use rows::{Rows, show_line};
use std::alloc::Global;
use std::fs::File;
use std::rt::Files;

fn show_lines<R: Input + Print + Files<File = File>>(
    rt: &R,
    alloc: Global,
    rows: &mut Rows,
) -> Result<()> {
    for line in rt.lines(alloc) {
        show_line(rt, rows, line?.as_str())?;
    }
    Ok(())
}

fn main(rt: HostRuntime) -> Result<()> {
    let alloc = rt.alloc();
    let mut rows = Rows::new(alloc)?;
    show_lines(&rt, alloc, &mut rows)
}
