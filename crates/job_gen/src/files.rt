ghost use Rattle.std.specs.Prelude.{◌≡◌, ℕ, ◌+◌, ◌*◌, ◌<◌, ◌≤◌, IfOk, OnOk};
ghost use Rattle.job_spec.specs.Turns.{draw};
ghost use Rattle.job_gen.specs.Made.{part_path, content, part_files};

use crate::numbers::Numbers;
use job_model::FileList;
use s3_types::{Bytes, Text};
use std::alloc::{AllocError, Global};

/// The path of a task's file: `part-TTT-JJ`.
fn made_path(alloc: Global, task: u32, file: u32) -> Result<Text, AllocError>
    requires task { task < 1000 }
    requires file { file < 100 }
    ensures { IfOk result (λ path. path ≡ part_path task file) }
{
    Text::new(alloc, format!(in alloc; "part-{task:03}-{file:02}")?)
}

/// The contents of the next file. The next number gives its length, and the one after that the byte
/// that it repeats.
fn next_bytes(alloc: Global, numbers: &mut Numbers) -> Result<Bytes, AllocError>
    ensures goes_on { (seed i : ℕ) → numbers.old ≡ draw seed i → numbers.new ≡ draw seed (i + 2) }
    ensures bytes { (seed i : ℕ) → numbers.old ≡ draw seed i → IfOk result (λ bytes. bytes ≡ content seed i) }
{
    let length = numbers.next() % 4096;
    let byte = 97 + numbers.next() % 26;
    Bytes::new(alloc, vec![in alloc; byte as u8; length as usize]?)
}

/// The files of a task. Each takes two numbers.
pub fn task_files(
    alloc: Global,
    numbers: &mut Numbers,
    task: u32,
    files: u32,
) -> Result<FileList, AllocError>
    requires task { task < 1000 }
    requires files { files ≤ 100 }
    ensures goes_on { (seed i : ℕ) → numbers.old ≡ draw seed i → OnOk result (numbers.new ≡ draw seed (i + 2 * files)) }
    ensures made { (seed : ℕ) → numbers.old ≡ draw seed (2 * (task * files))
        → IfOk result (λ made. made ≡ part_files seed files task) }
{
    let mut made = FileList::new(alloc);
    for file in 0..files {
        let path = made_path(alloc, task, file)?;
        made.add(path, next_bytes(alloc, numbers)?)?;
    }
    Ok(made)
}
