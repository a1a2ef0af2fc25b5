ghost use Rattle.std.specs.Prelude.{◌≡◌, ◌++◌, string_bytes, IfOk, OnOk};
ghost use Rattle.std.specs.List.{flat_map};
ghost use Rattle.job_model.specs.Placed.{path_of, placed};
ghost use Rattle.job_script.specs.HeadLines.{path_text};
ghost use Rattle.job_soundness.specs.Claim.{keeps_by};
ghost use Rattle.serde_json.specs.Data.{no_members};
ghost use Rattle.trace_lines.specs.Members.{members_of};
ghost use Rattle.trace_text.specs.Heads as lines;
ghost use Rattle.trace_text.specs.inner.Texts.{text_of};

use crate::parts::part_tags;
use block_stream::block_of;
use job_model::{AttemptName, FileList, Script};
use job_plans::unique_name;
use job_script::mode_word;
use path_keys::S3Path;
use pending_json::committer_word;
use s3_types::{Bytes, Committer, Mode, Tag, Text, let_go};
use std::alloc::{AllocError, Global};
use trace_lines::Line;

/// Returns the word for which opening files a job keeps.
fn keeps_word(committer: Committer, mode: Mode) -> &'static str
    ensures { result.now ≡ lines.keeps_word (keeps_by committer mode) }
{
    match (committer, mode) {
        (Committer::Directory, Mode::Replace) => "none",
        (Committer::Partitioned, Mode::Replace) => "partitions",
        _ => "all",
    }
}

/// Returns a path as scripts write it.
fn path_text(alloc: Global, path: &S3Path) -> Result<String, AllocError>
    ensures { IfOk result (λ text. string_bytes text ≡ path_text path.now) }
{
    let bucket = path.bucket().as_text().as_str();
    let key = path.key().as_str();
    format!(in alloc; "s3a://{bucket}/{key}")
}

/// Puts the members of the line of a job whose destination has this text.
fn put_job<'a>(line: &mut Line<'a>, script: &'a Script, dest: &'a str) -> Result<(), AllocError>
    requires empty { members_of line.old ≡ no_members }
    requires dest { dest.now ≡ path_text script.now.dest }
    ensures { OnOk result (text_of line.new ≡ lines.job_line script.now) }
{
    line.text("op", "Job")?;
    line.text("job", script.job.as_str())?;
    line.text("dest", dest)?;
    line.text("committer", committer_word(script.committer))?;
    line.text("mode", mode_word(script.mode))?;
    line.whole("tasks", u64::from(script.tasks))?;
    line.text("keeps", keeps_word(script.committer, script.mode))
}

/// Writes the line of a job whose destination has this text.
fn write_job_at(
    alloc: Global,
    text: &mut String,
    script: &Script,
    dest: &str,
) -> Result<(), AllocError>
    requires { dest.now ≡ path_text script.now.dest }
    ensures { OnOk result (string_bytes text.new ≡ string_bytes text.old ++ lines.job_line script.now) }
{
    let mut line = Line::new(alloc);
    put_job(&mut line, script, dest)?;
    line.write(alloc, text)
}

/// Writes the line of a job.
pub fn write_job(alloc: Global, text: &mut String, script: &Script) -> Result<(), AllocError>
    ensures { OnOk result (string_bytes text.new ≡ string_bytes text.old ++ lines.job_line script.now) }
{
    let dest = path_text(alloc, &script.dest)?;
    let written = write_job_at(alloc, text, script, dest.as_str());
    let_go(dest);
    written
}

/// Puts the members of the line of an attempt.
fn put_attempt(line: &mut Line<'_>, name: AttemptName) -> Result<(), AllocError>
    requires { members_of line.old ≡ no_members }
    ensures { OnOk result (text_of line.new ≡ lines.attempt_line name) }
{
    line.text("op", "Attempt")?;
    line.whole("task", u64::from(name.task))?;
    line.whole("attempt", u64::from(name.attempt))
}

/// Writes the line of an attempt.
fn write_attempt(alloc: Global, text: &mut String, name: AttemptName) -> Result<(), AllocError>
    ensures { OnOk result (string_bytes text.new ≡ string_bytes text.old ++ lines.attempt_line name) }
{
    let mut line = Line::new(alloc);
    put_attempt(&mut line, name)?;
    line.write(alloc, text)
}

/// Returns a file's path below the destination: a path unique to the job, or the script's path,
/// which is shared.
fn placed_path(alloc: Global, script: &Script, path: &Text) -> Result<Text, AllocError>
    ensures { IfOk result (λ text. text ≡ path_of script.now.unique script.now.job path.now) }
{
    if script.unique {
        unique_name(alloc, path.as_str(), script.job.as_str())
    } else {
        path.clone()
    }
}

/// Puts the members of the line of a file, by its path and the tags of its parts.
fn put_file<'a>(line: &mut Line<'a>, path: &'a str, tags: &'a [Tag]) -> Result<(), AllocError>
    requires { members_of line.old ≡ no_members }
    ensures { OnOk result (text_of line.new ≡ lines.file_words path.now tags.now) }
{
    line.text("op", "File")?;
    line.text("path", path)?;
    line.tags("etags", tags)
}

/// Writes the line of a file, by its path and the tags of its parts.
fn write_tagged(
    alloc: Global,
    text: &mut String,
    path: &str,
    tags: &[Tag],
) -> Result<(), AllocError>
    ensures { OnOk result (string_bytes text.new ≡ string_bytes text.old ++ lines.file_words path.now tags.now) }
{
    let mut line = Line::new(alloc);
    put_file(&mut line, path, tags)?;
    line.write(alloc, text)
}

/// Writes the line of a file at this path below the destination.
fn write_placed(
    alloc: Global,
    text: &mut String,
    script: &Script,
    minimum: u64,
    path: &Text,
    bytes: &Bytes,
) -> Result<(), AllocError>
    ensures { OnOk result (string_bytes text.new ≡ string_bytes text.old
        ++ lines.file_line script.now minimum (path.now, bytes.now)) }
{
    let bytes = bytes.as_slice();
    let size = block_of(bytes.len() as u64, script.block, minimum);
    let tags = part_tags(alloc, bytes, size as usize)?;
    let written = write_tagged(alloc, text, path.as_str(), tags.as_slice());
    let_go(tags);
    written
}

/// Writes the line of a file of an attempt.
fn write_file(
    alloc: Global,
    text: &mut String,
    script: &Script,
    minimum: u64,
    path: &Text,
    bytes: &Bytes,
) -> Result<(), AllocError>
    ensures { OnOk result (string_bytes text.new ≡ string_bytes text.old
        ++ lines.file_line script.now minimum (path_of script.now.unique script.now.job path.now, bytes.now)) }
{
    let path = placed_path(alloc, script, path)?;
    let written = write_placed(alloc, text, script, minimum, &path, bytes);
    let_go(path);
    written
}

/// Writes the lines of an attempt's files.
fn write_files(
    alloc: Global,
    text: &mut String,
    script: &Script,
    minimum: u64,
    files: &FileList,
) -> Result<(), AllocError>
    ensures { OnOk result (string_bytes text.new ≡ string_bytes text.old
        ++ flat_map (lines.file_line script.now minimum) (placed script.now.unique script.now.job files.now)) }
{
    for (path, bytes) in files.held() {
        write_file(alloc, text, script, minimum, path, bytes)?;
    }
    Ok(())
}

/// Writes the lines of all attempts and of their files, in script order.
pub fn write_attempts(
    alloc: Global,
    text: &mut String,
    script: &Script,
    minimum: u64,
) -> Result<(), AllocError>
    ensures { OnOk result (string_bytes text.new ≡ string_bytes text.old
        ++ flat_map (lines.attempt_lines script.now minimum) script.now.attempts) }
{
    for (name, files) in script.attempts.held() {
        write_attempt(alloc, text, *name)?;
        write_files(alloc, text, script, minimum, files)?;
    }
    Ok(())
}
