ghost use Rattle.std.specs.Prelude.{◌≡◌, ◌≤◌, length, true};
ghost use Rattle.s3_types.specs.Names.{is_job_id};

use crate::spelling::spelled;
use anyhow::{Context, Result, bail};
use dir_markers::{MarkerPolicy, after_create};
use job_plans::unique_name;
use magic_paths::{
    attempt_dir, cluster_prefix, final_path, magic_prefix, set_key, staged_set_path, success_key,
    temporary_path,
};
use path_keys::S3Path;
use s3_types::{Key, Text, let_go};
use std::alloc::Global;

/// The most bytes of a key that is shown whole.
const MOST_SHOWN: usize = 100;

fn show_key(rt: &impl Print, key: &str) -> Result<()> {
    if key.len() > MOST_SHOWN {
        println!(rt; "{} bytes", key.len())?;
    } else {
        println!(rt; "[{key}]")?;
    }
    Ok(())
}

/// Shows the key of the file `f` below a joined path.
fn show_joined(rt: &impl Print, alloc: Global, path: &S3Path, relative: &str) -> Result<()> {
    match path.join(alloc, relative) {
        Ok(joined) => {
            let key = joined.text_below(alloc, "f");
            let_go(joined);
            show_key(rt, key?.as_str())
        }
        Err(fault) => Ok(println!(rt; "{fault:?}")?),
    }
}

fn show_parent(rt: &impl Print, alloc: Global, path: &S3Path) -> Result<()> {
    match path.parent(alloc)? {
        Some(parent) => show_key(rt, parent.key().as_str()),
        None => Ok(println!(rt; "none")?),
    }
}

fn show_behind(rt: &impl Print, path: &S3Path, key: &str) -> Result<()> {
    match path.relative(key.as_bytes()) {
        Some(rest) => show_key(rt, str::from_utf8(rest)?),
        None => Ok(println!(rt; "none")?),
    }
}

fn show_final(rt: &impl Print, alloc: Global, path: &S3Path) -> Result<()> {
    match final_path(alloc, path) {
        Ok(last) => {
            let bucket = last.bucket().as_text().as_str();
            let shown = println!(rt; "{bucket} {}", last.key().as_str());
            let_go(last);
            Ok(shown?)
        }
        Err(refusal) => Ok(println!(rt; "{refusal:?}")?),
    }
}

fn show_unique(rt: &impl Print, alloc: Global, path: &str, job: &str) -> Result<()> {
    let name = unique_name(alloc, path, job)?;
    show_key(rt, name.as_str())
}

/// Shows the markers above a file that its creation makes needless.
fn show_above(rt: &impl Print, alloc: Global, path: &S3Path) -> Result<()> {
    let markers = after_create(alloc, MarkerPolicy::Delete, path)?;
    for marker in markers.as_slice() {
        show_key(rt, marker.as_text().as_str())?;
    }
    Ok(())
}

fn show_text(rt: &impl Print, name: &str, text: Text) -> Result<()> {
    let shown = println!(rt; "{name}: {}", text.as_str());
    let_go(text);
    Ok(shown?)
}

fn show_named_key(rt: &impl Print, name: &str, key: Key) -> Result<()> {
    let shown = println!(rt; "{name}: {}", key.as_text().as_str());
    let_go(key);
    Ok(shown?)
}

fn show_directory(rt: &impl Print, name: &str, path: S3Path) -> Result<()> {
    let shown = println!(rt; "{name}: {}", path.key().as_str());
    let_go(path);
    Ok(shown?)
}

/// Shows where a magic job keeps its own keys, and where its `_SUCCESS` marker is.
fn show_keys(rt: &impl Print, alloc: Global, dest: &S3Path, job: &Text) -> Result<()>
    requires some { 1 ≤ length dest.now.key }
    requires most { length dest.now.key ≤ 400 }
    requires id { is_job_id job.now ≡ true }
{
    show_directory(rt, "attempt", attempt_dir(alloc, dest, job, 7, 0)?)?;
    show_named_key(rt, "set", set_key(alloc, dest, job, u32::MAX)?)?;
    show_named_key(rt, "success", success_key(alloc, dest)?)?;
    show_text(rt, "prefix", magic_prefix(alloc, dest, job)?)
}

/// Shows where a staging job keeps its own files in the cluster's file system.
fn show_cluster(rt: &impl Print, alloc: Global, job: &Text) -> Result<()> {
    show_text(rt, "cluster", cluster_prefix(alloc, job)?)?;
    show_text(rt, "temporary", temporary_path(alloc, job, 7, 0)?)?;
    show_text(rt, "staged set", staged_set_path(alloc, job, 7)?)
}

fn show_places(rt: &impl Print, alloc: Global, dest: &S3Path, job: &Text) -> Result<()>
    requires some { 1 ≤ length dest.now.key }
    requires most { length dest.now.key ≤ 400 }
    requires id { is_job_id job.now ≡ true }
{
    show_keys(rt, alloc, dest, job)?;
    show_cluster(rt, alloc, job)
}

/// Shows where the committers keep their own keys and files.
fn show_layout(rt: &impl Print, alloc: Global, dest: &S3Path) -> Result<()> {
    let length = dest.key().as_bytes().len();
    if length == 0 || length > 400 {
        bail!("no job writes there");
    }
    let job = Text::copied(alloc, "j_1")?;
    let shown = show_places(rt, alloc, dest, &job);
    let_go(job);
    shown
}

fn show_of(rt: &impl Print, alloc: Global, path: &S3Path, verb: &str, other: &str) -> Result<()> {
    match verb {
        "read" => show_key(rt, path.key().as_str()),
        "join" => show_joined(rt, alloc, path, other),
        "parent" => show_parent(rt, alloc, path),
        "behind" => show_behind(rt, path, other),
        "above" => show_above(rt, alloc, path),
        "layout" => show_layout(rt, alloc, path),
        _ => show_final(rt, alloc, path),
    }
}

fn show_row(rt: &impl Print, alloc: Global, row: &str) -> Result<()> {
    let (verb, words) = row.split_once(' ').context("a verb and a path")?;
    let (text, other) = words.split_once(' ').unwrap_or((words, ""));
    if verb == "unique" {
        return show_unique(rt, alloc, text, other);
    }
    match S3Path::read(alloc, text) {
        Ok(path) => {
            let shown = show_of(rt, alloc, &path, verb, other);
            let_go(path);
            shown
        }
        Err(fault) => Ok(println!(rt; "{fault:?}")?),
    }
}

/// Answers a row about a path:
///
/// - `read`, `parent` and `final` show the path itself, its parent and its final path.
/// - `join` shows the path joined with another.
/// - `behind` shows the part of a key after the path.
/// - `unique` shows a file's path made unique to a job.
/// - `above` shows the markers above a file.
/// - `layout` shows where a job that writes there keeps its own keys.
pub fn show_path(rt: &impl Print, alloc: Global, line: &str) -> Result<()> {
    let bytes = spelled(alloc, line)?;
    show_row(rt, alloc, str::from_utf8(&bytes)?)
}
