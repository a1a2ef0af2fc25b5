//! Runs the whole program over devices in memory that fail. Each line of standard input is shown as
//! it is, and after it the answer.
//!
//! These lines say what the next run is given:
//!
//! - `words ..`: the words of a command, the folder first.
//! - `input TEXT`: its input. `|` stands for LF, and `@` for the lines `job j1`,
//!   `dest s3a://lake/out` and `committer magic`.
//! - `file HEX`: the bytes of the file that the disk has at first, or no file if there are no
//!   digits.
//! - `keys COUNT FRONT`: as the file, the image of a store whose bucket `lake` has so many objects
//!   of one byte. Their keys are this front and a number.
//! - `go on`: the file that the last `run` left.
//!
//! `run` runs the command over devices that do not fail. It shows the status, the status before
//! writing, and how many picks, ends and sends were reported (for two jobs the picks and ends of
//! the first). Then it shows how many calls the disk had, what was written, and the file.
//!
//! `source COUNT`, `disk COUNT` and `sink COUNT` run it again for each of so many calls of a
//! device, where that call alone fails. `stops COUNT` runs it for each number of calls after which
//! the disk stops, from 0 on. For each run they show what was reported, what was written (`all` for
//! what the whole run wrote), and what is left. That is what a crash at the end leaves, for each
//! fate of the ranges that were not synced, or once if it is always the same. Equal answers in a
//! row are shown once, with their first and their last number.
//!
//! `3 at 5` is a file with three changes that loads as the store after the fifth request of the
//! whole run, and not as the store at an earlier point. `nothing` is no file, `another` a store
//! that the whole run never had, and `no store` a file that is no store.
#![tactic(auto)]

mod given;
mod known;
mod left;
mod play;
mod rows;
mod told;
mod turns;

use anyhow::Result;
use rows::{Rows, show_line};
use std::alloc::Global;

fn show_lines<R: Input + Print>(rt: &R, alloc: Global, rows: &mut Rows) -> Result<()> {
    for line in rt.lines(alloc) {
        show_line(rt, rows, line?.as_str())?;
    }
    Ok(())
}

fn main(rt: HostRuntime) -> Result<()> {
    let alloc = rt.alloc();
    let mut rows = Rows::new(alloc);
    show_lines(&rt, alloc, &mut rows)
}
