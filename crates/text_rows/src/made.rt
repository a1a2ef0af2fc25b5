ghost use Rattle.std.specs.Prelude.{◌≤◌};

use crate::scripts::tell_text;
use anyhow::{Context, Result, bail};
use job_gen::make_script;
use s3_types::let_go;
use std::alloc::Global;

fn show_script(rt: &impl Print, alloc: Global, seed: u32, tasks: u32, files: u32) -> Result<()>
    requires some_tasks { 1 ≤ tasks }
    requires few_tasks { tasks ≤ 200 }
    requires some_files { 1 ≤ files }
    requires few_files { files ≤ 50 }
{
    println!(rt; "== {seed} {tasks} {files}")?;
    let script = make_script(alloc, seed, tasks, files)?;
    let shown = tell_text(rt, alloc, &script);
    let_go(script);
    shown
}

/// Prints the script that is made from a seed and the numbers of tasks and of files.
pub fn show_made(rt: &impl Print, alloc: Global, line: &str) -> Result<()> {
    let (seed, numbers) = line.split_once(' ').context("a seed")?;
    let (tasks, files) = numbers.split_once(' ').context("two numbers")?;
    let seed = seed.parse::<u32>()?;
    let tasks = tasks.parse::<u32>()?;
    let files = files.parse::<u32>()?;
    if tasks < 1 || tasks > 200 || files < 1 || files > 50 {
        bail!("no job is made of these");
    }
    show_script(rt, alloc, seed, tasks, files)
}
