use crate::disks::{Call, FOLDER, IMAGE, begin, call_text, put_answer, put_left};
use crate::faults::{Fault, Faulty};
use folder_log::FileDisk;
use s3_types::{let_go, put};
use std::alloc::{AllocError, Global};
use std::cell::Cell;
use std::fs::{File, OpenOptions};
use std::io::Write;
use std::rt::Files;
use std::{fs, io};

/// An event of a folder over which there are two disks.
#[derive(Clone, Copy)]
enum Turn {
    One(Call),
    Two(Call),
    /// The first disk is dropped.
    Close,
    /// Somebody else appends to the file.
    Grow,
    /// Somebody else removes the file.
    Remove,
}

/// The events, in order.
const TURNS: [&[Turn]; 7] = [
    &[
        Turn::One(Call::Read),
        Turn::Two(Call::Read),
        Turn::One(Call::Swap),
        Turn::Two(Call::Swap),
        Turn::One(Call::Write),
        Turn::Close,
        Turn::Two(Call::Swap),
    ],
    &[
        Turn::One(Call::Swap),
        Turn::Two(Call::Swap),
        Turn::Two(Call::Read),
        Turn::Two(Call::Swap),
        Turn::One(Call::Write),
        Turn::Close,
        Turn::Two(Call::Read),
        Turn::Two(Call::Swap),
    ],
    &[
        Turn::One(Call::Swap),
        Turn::Two(Call::Read),
        Turn::Close,
        Turn::Two(Call::Swap),
    ],
    &[
        Turn::One(Call::Read),
        Turn::One(Call::Swap),
        Turn::One(Call::Write),
        Turn::One(Call::First),
        Turn::Two(Call::Swap),
    ],
    &[Turn::One(Call::Read), Turn::Grow, Turn::One(Call::Swap)],
    &[Turn::One(Call::Swap), Turn::Remove, Turn::One(Call::Swap)],
    &[
        Turn::Remove,
        Turn::One(Call::Read),
        Turn::Two(Call::Read),
        Turn::One(Call::Swap),
        Turn::Close,
        Turn::Two(Call::Swap),
    ],
];

/// Two disks of the folder. The first may be dropped.
#[derive(Drop)]
struct Disks<'r, R: Files> {
    one: Option<FileDisk<Faulty<'r, R>>>,
    two: FileDisk<Faulty<'r, R>>,
}

fn disk<'r, R: Files<File = File>>(
    rt: &'r R,
    alloc: Global,
    fault: &'r Cell<Fault>,
) -> Result<FileDisk<Faulty<'r, R>>, AllocError> {
    let folder = String::from_str(alloc, FOLDER)?;
    FileDisk::new(alloc, Faulty::new(rt, fault), folder)
}

/// Appends a byte to the file.
fn grow<R: Files<File = File>>(rt: &R) -> io::Result<()> {
    let mut options = OpenOptions::new();
    options.append(true);
    options.open(rt, IMAGE)?.write_all(b"x")
}

fn put_call<R: Files<File = File>>(
    line: &mut String,
    name: &str,
    disk: &mut FileDisk<Faulty<'_, R>>,
    call: Call,
) -> Result<(), AllocError> {
    line.push_str(name)?;
    line.push_str(call_text(call))?;
    line.push_str(" ")?;
    put_answer(line, disk, call)
}

fn put_turn<R: Files<File = File>>(
    rt: &R,
    line: &mut String,
    disks: &mut Disks<'_, R>,
    turn: Turn,
) -> io::Result<()> {
    match turn {
        Turn::One(call) => {
            if let Some(one) = &mut disks.one {
                put_call(line, "one ", one, call)?;
            }
            Ok(())
        }
        Turn::Two(call) => Ok(put_call(line, "two ", &mut disks.two, call)?),
        Turn::Close => {
            put(&mut disks.one, None);
            Ok(line.push_str("one let go")?)
        }
        Turn::Grow => {
            line.push_str("the file grown")?;
            grow(rt)
        }
        Turn::Remove => {
            line.push_str("the file removed")?;
            fs::remove_file(rt, IMAGE)
        }
    }
}

fn put_turns<R: Files<File = File>>(
    rt: &R,
    line: &mut String,
    disks: &mut Disks<'_, R>,
    turns: &[Turn],
) -> io::Result<()> {
    for turn in turns {
        if !line.is_empty() {
            line.push_str(", ")?;
        }
        put_turn(rt, line, disks, *turn)?;
    }
    Ok(())
}

fn show_turns<R: Print + Files<File = File>>(
    rt: &R,
    alloc: Global,
    turns: &[Turn],
) -> io::Result<()> {
    begin(rt, alloc)?;
    let fault = Cell::new(Fault::Nothing);
    let one = Some(disk(rt, alloc, &fault)?);
    let two = disk(rt, alloc, &fault)?;
    let mut disks = Disks { one, two };
    let mut line = String::new(alloc);
    let done = put_turns(rt, &mut line, &mut disks, turns);
    let_go(disks);
    done?;
    put_left(rt, alloc, &mut line)?;
    println!(rt; "{line}")
}

/// Shows the answers of two disks of one folder.
pub fn show_rivals<R: Print + Files<File = File>>(rt: &R, alloc: Global) -> io::Result<()> {
    for turns in &TURNS {
        show_turns(rt, alloc, turns)?;
    }
    Ok(())
}
