ghost use Rattle.std.specs.Prelude.{◌≡◌, option_map};
ghost use Rattle.text_and_lists.specs.Words.{words_after};
ghost use Rattle.job_script.specs.Fault.{Gives};
ghost use Rattle.job_script.specs.inner.Fault.{Makes};
ghost use Rattle.job_script.specs.AttemptLines as lines;
ghost use Rattle.std.specs.Option.{option_or};

use crate::content::content_of;
use crate::draft::Draft;
use crate::fault::ScriptFault;
use crate::head::one_word;
use crate::paths::{is_hidden, is_path};
use job_model::AttemptName;
use s3_types::{MOST_SCRIPT_BYTES, Text};
use std::alloc::Global;
use text_and_lists::{number_within, two_and_more, two_parts};

/// The attempt of a word T.A: its task is 0 to 999, its number 0 to 99.
#[tactic(auto, unfolding(crate::specs::AttemptLines::name_at))]
pub fn name_of(line: u64, word: &str) -> Result<AttemptName, ScriptFault>
    ensures { Gives result (lines.name_at line word.now) }
{
    let Some((task, attempt)) = two_parts('.', word) else {
        return Err(ScriptFault::BadLine(line));
    };
    let Some(task) = number_within(0, 999, task) else {
        return Err(ScriptFault::BadNumber(line));
    };
    let Some(attempt) = number_within(0, 99, attempt) else {
        return Err(ScriptFault::BadNumber(line));
    };
    Ok(AttemptName {
        task: task as u32,
        attempt: attempt as u32,
    })
}

/// The line of the first attempt whose task is not below the number of tasks, after this line.
fn outside_of(line: u64, outside: Option<u64>, tasks: Option<u32>, name: AttemptName) -> Option<u64>
    ensures { result ≡ option_or outside (lines.outside_at line tasks name) }
{
    match (outside, tasks) {
        (Some(earlier), _) => Some(earlier),
        (None, Some(tasks)) => { if name.task < tasks { None } else { Some(line) } }
        (None, None) => None,
    }
}

/// Adds the attempt that a line declares to the draft.
#[tactic(auto, unfolding(crate::specs::AttemptLines::attempt_at))]
pub fn attempt_line(
    alloc: Global,
    draft: &mut Draft,
    line: u64,
    rest: Option<&str>,
) -> Result<(), ScriptFault>
    ensures { Makes result draft.new (lines.attempt_at line draft.old
        (words_after (option_map (λ r. r.now) rest.entry))) }
{
    let word = one_word(line, rest)?;
    let name = name_of(line, word)?;
    if draft.attempts.declares(name) {
        return Err(ScriptFault::RepeatedName(line));
    }
    if draft.attempts.len() >= 2_000 {
        return Err(ScriptFault::TooLarge);
    }
    draft.attempts.declare(alloc, name)?;
    draft.outside = outside_of(line, draft.outside, draft.head.tasks, name);
    Ok(())
}

/// Adds the file of a line to the last attempt.
#[tactic(auto, unfolding(crate::specs::AttemptLines::file_at))]
pub fn file_line(
    alloc: Global,
    draft: &mut Draft,
    line: u64,
    rest: Option<&str>,
) -> Result<(), ScriptFault>
    ensures { Makes result draft.new (lines.file_at line draft.old (words_after (option_map (λ r. r.now) rest.entry))) }
{
    let Some((path, form, more)) = two_and_more(rest) else {
        return Err(ScriptFault::BadLine(line));
    };
    let bytes = content_of(alloc, line, form, more)?;
    if !is_path(path.as_bytes()) {
        return Err(ScriptFault::BadPath(line));
    }
    if is_hidden(path.as_bytes()) {
        return Err(ScriptFault::HiddenPath(line));
    }
    let path = Text::copied(alloc, path)?;
    if draft.attempts.last_has(&path) {
        return Err(ScriptFault::RepeatedName(line));
    }
    if draft.files >= 20_000 {
        return Err(ScriptFault::TooLarge);
    }
    let length = bytes.as_slice().len() as u64;
    if draft.bytes > MOST_SCRIPT_BYTES || length > MOST_SCRIPT_BYTES - draft.bytes {
        return Err(ScriptFault::TooLarge);
    }
    draft.attempts.add_file(path, bytes)?;
    draft.files += 1;
    draft.bytes += length;
    Ok(())
}
