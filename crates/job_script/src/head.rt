ghost use Rattle.std.specs.Prelude.{◌≡◌, ◌≤◌, ◌++◌, Some, Ok, codes, option_map, string_bytes, IfOk, IfErr, OnOk};
ghost use Rattle.std.specs.Fmt.{decimal};
ghost use Rattle.std.specs.List.{list_all};
ghost use Rattle.text_and_lists.specs.Reading.{Fails, GivesBy, need};
ghost use Rattle.text_and_lists.specs.Shapes.{one};
ghost use Rattle.text_and_lists.specs.Words.{text_of, words_after};
ghost use Rattle.path_keys.specs.Paths.{path_in};
ghost use Rattle.s3_types.specs.Names.{is_id_byte, is_job_id};
ghost use Rattle.job_model.specs.JobScript.{Script};
ghost use Rattle.job_model.specs.Legal.{IsLegal};
ghost use Rattle.job_script.specs.Fault.{Gives, wanting};
ghost use Rattle.job_script.specs.inner.Fault.{Makes};
ghost use Rattle.job_script.specs.Kinds.{named};
ghost use Rattle.job_script.specs.HeadLines as lines;
ghost use Rattle.job_script.specs.Script as script;
ghost use Rattle.job_script.specs.inner.Script.{IsChosen};
ghost use Rattle.job_script.specs.declared.fault.ScriptFault.TheVariants.{BadLine, MissingHead};

use crate::draft::Draft;
use crate::fault::ScriptFault;
use crate::kinds::{answer_of, mode_of};
use crate::paths::is_dest_key;
use crate::print_losses::put_losses;
use crate::print_words::{answer_word, mode_word};
use job_model::Script;
use path_keys::{PathFault, S3Path};
use pending_json::{committer_of, committer_word};
use s3_types::{Committer, Fates, MOST_SCRIPT_BYTES, Mode, Text, let_go};
use std::alloc::{AllocError, Global};
use text_and_lists::{number_within, one};

/// The values of a script's head that are chosen from words or numbers.
#[derive(Clone, Copy)]
struct Chosen {
    committer: Committer,
    tasks: u32,
    mode: Mode,
    unique: bool,
}

/// The kinds of head lines that give one value.
#[derive(Clone, Copy)]
pub enum HeadWord {
    Job,
    Dest,
    Committer,
    Tasks,
    Mode,
    Unique,
    Retries,
    Block,
    Lanes,
    Stamp,
}

/// The contents of the head lines so far. A mode and a word `unique` are kept with their lines.
#[derive(Drop)]
pub struct Head {
    pub job: Option<Text>,
    pub dest: Option<S3Path>,
    pub committer: Option<Committer>,
    pub tasks: Option<u32>,
    pub mode: Option<(u64, Mode)>,
    pub unique: Option<(u64, bool)>,
    pub retries: Option<u32>,
    pub block: Option<u64>,
    pub lanes: Option<u32>,
    pub stamp: Option<u64>,
    pub fates: Fates,
    /// The number of lines `loss` that may still come.
    pub losses_left: u32,
}

pub fn head_word(word: &str) -> Option<HeadWord>
    ensures { result ≡ named lines.head_words word.now }
{
    match word {
        "job" => Some(HeadWord::Job),
        "dest" => Some(HeadWord::Dest),
        "committer" => Some(HeadWord::Committer),
        "tasks" => Some(HeadWord::Tasks),
        "mode" => Some(HeadWord::Mode),
        "unique" => Some(HeadWord::Unique),
        "retries" => Some(HeadWord::Retries),
        "block" => Some(HeadWord::Block),
        "lanes" => Some(HeadWord::Lanes),
        "stamp" => Some(HeadWord::Stamp),
        _ => None,
    }
}

/// The head before the first line. At most 10,000 lines `loss` may come.
pub fn no_head(alloc: Global) -> Head
    ensures { result ≡ lines.no_head 10000 }
{
    Head {
        job: None,
        dest: None,
        committer: None,
        tasks: None,
        mode: None,
        unique: None,
        retries: None,
        block: None,
        lanes: None,
        stamp: None,
        fates: Fates::new(alloc),
        losses_left: 10_000,
    }
}

// ---- reading a line

/// The only word after a line's first word.
pub fn one_word(line: u64, rest: Option<&str>) -> Result<&str, ScriptFault>
    ensures { GivesBy wanting (λ w. w.now) result (need (one (words_after (option_map (λ r. r.now) rest.entry)))
        (BadLine line)) }
{
    match one(rest) {
        Some(word) => Ok(word),
        None => Err(ScriptFault::BadLine(line)),
    }
}

/// The number that a word writes, from `low` to `high`.
#[tactic(auto, unfolding(crate::specs::HeadLines::number))]
pub fn number(low: u64, high: u64, line: u64, word: &str) -> Result<u64, ScriptFault>
    ensures number { Gives result (lines.number low high line word.now) }
    ensures within { IfOk result (λ n. n ≤ high) }
{
    match number_within(low, high, word) {
        Some(number) => Ok(number),
        None => Err(ScriptFault::BadNumber(line)),
    }
}

fn is_id_byte(b: u8) -> bool
    ensures { result ≡ is_id_byte b }
{
    97 <= b && b <= 122 || 65 <= b && b <= 90 || 48 <= b && b <= 57 || b == 95 || b == 45
}

fn are_id_bytes(text: &[u8]) -> bool
    ensures { result ≡ list_all is_id_byte text.now }
{
    text.iter().all(|b| is_id_byte(*b))
}

/// True if the text may be a job's id: 1 to 64 letters, digits, `_` or `-`.
fn is_job_id(text: &str) -> bool
    ensures { result ≡ is_job_id text.now }
{
    1 <= text.len() && text.len() <= 64 && are_id_bytes(text.as_bytes())
}

/// The job's id in a word.
#[tactic(auto, unfolding(crate::specs::HeadLines::job_of))]
fn job_of(alloc: Global, line: u64, word: &str) -> Result<Text, ScriptFault>
    ensures { Gives result (lines.job_of line word.now) }
{
    if !is_job_id(word) {
        return Err(ScriptFault::BadLine(line));
    }
    Ok(Text::copied(alloc, word)?)
}

/// The path in a word.
fn path_of(alloc: Global, line: u64, word: &str) -> Result<S3Path, ScriptFault>
    ensures { Gives result (lines.as_path line (path_in word.now)) }
{
    match S3Path::read(alloc, word) {
        Ok(path) => Ok(path),
        Err(PathFault::NoMemory) => Err(ScriptFault::NoMemory),
        Err(_) => Err(ScriptFault::BadPath(line)),
    }
}

/// The destination in a word.
#[tactic(auto, unfolding(crate::specs::HeadLines::dest_of))]
fn dest_of(alloc: Global, line: u64, word: &str) -> Result<S3Path, ScriptFault>
    ensures { Gives result (lines.dest_of line word.now) }
{
    let path = path_of(alloc, line, word)?;
    if path.is_root() {
        return Err(ScriptFault::DestIsRoot);
    }
    if !is_dest_key(path.key().as_bytes()) {
        return Err(ScriptFault::BadPath(line));
    }
    Ok(path)
}

/// Stores the value of a line. The error is RepeatedName if an earlier line gave one.
fn keep<T: Drop>(place: &mut Option<T>, line: u64, value: T) -> Result<(), ScriptFault>
    ensures { Makes result place.new (lines.first_value line place.old value) }
{
    if let Some(_) = place {
        return Err(ScriptFault::RepeatedName(line));
    }
    *place = Some(value);
    Ok(())
}

/// Adds the value of a head line.
pub fn head_line(
    alloc: Global,
    head: &mut Head,
    line: u64,
    word: HeadWord,
    rest: Option<&str>,
) -> Result<(), ScriptFault>
    ensures { Makes result head.new (lines.head_at line word head.old
        (words_after (option_map (λ r. r.now) rest.entry))) }
{
    let value = one_word(line, rest)?;
    match word {
        HeadWord::Job => keep(&mut head.job, line, job_of(alloc, line, value)?),
        HeadWord::Dest => keep(&mut head.dest, line, dest_of(alloc, line, value)?),
        HeadWord::Committer => {
            let Some(committer) = committer_of(value) else {
                return Err(ScriptFault::BadLine(line));
            };
            keep(&mut head.committer, line, committer)
        }
        HeadWord::Tasks => keep(&mut head.tasks, line, number(0, 1000, line, value)? as u32),
        HeadWord::Mode => {
            let Some(mode) = mode_of(value) else {
                return Err(ScriptFault::BadLine(line));
            };
            keep(&mut head.mode, line, (line, mode))
        }
        HeadWord::Unique => {
            let Some(unique) = answer_of(value) else {
                return Err(ScriptFault::BadLine(line));
            };
            keep(&mut head.unique, line, (line, unique))
        }
        HeadWord::Retries => keep(&mut head.retries, line, number(0, 9, line, value)? as u32),
        HeadWord::Block => keep(
            &mut head.block,
            line,
            number(1, MOST_SCRIPT_BYTES, line, value)?,
        ),
        HeadWord::Lanes => keep(&mut head.lanes, line, number(1, 8, line, value)? as u32),
        HeadWord::Stamp => {
            keep(
                &mut head.stamp,
                line,
                number(0, 999_999_999_999_999_999, line, value)?,
            )
        }
    }
}

// ---- after the last line

/// The value of a head line that must not be missing.
fn required<T: Drop>(value: Option<T>) -> Result<T, ScriptFault>
    ensures { Gives result (need value MissingHead) }
{
    match value {
        Some(value) => Ok(value),
        None => Err(ScriptFault::MissingHead),
    }
}

/// The mode. It is `append` if no line gives one, and must be `append` with `magic`.
fn mode_in(committer: Committer, mode: Option<(u64, Mode)>) -> Result<Mode, ScriptFault>
    ensures { Gives result (script.mode_in committer mode) }
{
    match (committer, mode) {
        (_, None) => Ok(Mode::Append),
        (Committer::Magic, Some((_, Mode::Append))) => Ok(Mode::Append),
        (Committer::Magic, Some((line, _))) => Err(ScriptFault::BadLine(line)),
        (_, Some((_, mode))) => Ok(mode),
    }
}

/// True if names are made unique. It is false if no line says so, and must be false with `magic`.
fn unique_in(committer: Committer, unique: Option<(u64, bool)>) -> Result<bool, ScriptFault>
    ensures { Gives result (script.unique_in committer unique) }
{
    match (committer, unique) {
        (_, None) => Ok(false),
        (Committer::Magic, Some((line, true))) => Err(ScriptFault::BadLine(line)),
        (_, Some((_, unique))) => Ok(unique),
    }
}

/// Checks that each attempt's task is below the number of tasks.
fn all_inside(outside: Option<u64>) -> Result<(), ScriptFault>
    ensures { Gives result (script.all_inside outside) }
{
    match outside {
        None => Ok(()),
        Some(line) => Err(ScriptFault::UnknownActor(line)),
    }
}

/// The values that the head lines choose, or the first fault of the checks after the last line.
#[tactic(auto, unfolding(crate::specs::Script::complete))]
fn chosen_in(draft: &Draft) -> Result<Chosen, ScriptFault>
    ensures chosen { IfOk result (λ chosen. IsChosen draft.now chosen) }
    ensures refused { IfErr result (λ fault. Fails wanting fault (script.complete draft.now)) }
{
    let head = &draft.head;
    let (Some(_), Some(_)) = (&head.job, &head.dest) else {
        return Err(ScriptFault::MissingHead);
    };
    let committer = required(head.committer)?;
    let tasks = required(head.tasks)?;
    let mode = mode_in(committer, head.mode)?;
    let unique = unique_in(committer, head.unique)?;
    all_inside(draft.outside)?;
    Ok(Chosen {
        committer,
        tasks,
        mode,
        unique,
    })
}

/// The script, or the first fault of the checks after the last line.
#[tactic(auto, unfolding(crate::specs::Script::complete))]
pub fn complete(draft: Draft) -> Result<Script, ScriptFault>
    requires legal { (s : Script) → script.complete draft ≡ Ok s → IsLegal s }
    ensures { Gives result (script.complete draft) }
{
    let chosen = match chosen_in(&draft) {
        Ok(chosen) => chosen,
        Err(fault) => {
            let_go(draft);
            return Err(fault);
        }
    };
    let head = draft.head;
    Ok(Script {
        job: head.job.unwrap(),
        dest: head.dest.unwrap(),
        committer: chosen.committer,
        mode: chosen.mode,
        unique: chosen.unique,
        tasks: chosen.tasks,
        retries: head.retries.unwrap_or(3),
        block: head.block.unwrap_or(0),
        lanes: head.lanes.unwrap_or(1),
        stamp: head.stamp,
        fates: head.fates,
        attempts: draft.attempts,
        events: draft.events,
    })
}

// ---- printing lines

/// Appends a line of a name and a word.
fn put_word(out: &mut String, name: &str, word: &str) -> Result<(), AllocError>
    ensures { OnOk result (string_bytes out.new ≡ string_bytes out.old
        ++ text_of (lines.value_lines name.now (Some word.now))) }
{
    write!(out, "{name} {word}\n")
}

/// Appends a line of a name and a number, if there is a number.
fn put_number(out: &mut String, name: &str, number: Option<u64>) -> Result<(), AllocError>
    ensures { OnOk result (string_bytes out.new ≡ string_bytes out.old
        ++ text_of (lines.value_lines name.now (option_map decimal number))) }
{
    match number {
        Some(number) => write!(out, "{name} {number}\n"),
        None => Ok(()),
    }
}

fn put_dest(out: &mut String, dest: &S3Path) -> Result<(), AllocError>
    ensures { OnOk result (string_bytes out.new ≡ string_bytes out.old
        ++ text_of (lines.value_lines (codes "dest") (Some (lines.path_text dest.now)))) }
{
    let bucket = dest.bucket().as_text().as_str();
    let key = dest.key().as_str();
    write!(out, "dest s3a://{bucket}/{key}\n")
}

/// The number, or none if it is the default, which has no line.
fn unless(default: u64, number: u64) -> Option<u64>
    ensures { result ≡ lines.unless default number }
{
    if number == default {
        None
    } else {
        Some(number)
    }
}

/// Appends the lines of the head in the format's order.
pub fn put_head(out: &mut String, script: &Script) -> Result<(), AllocError>
    ensures { OnOk result (string_bytes out.new ≡ string_bytes out.old ++ text_of (lines.head_lines script.now)) }
{
    put_word(out, "job", script.job.as_str())?;
    put_dest(out, &script.dest)?;
    put_word(out, "committer", committer_word(script.committer))?;
    put_number(out, "tasks", Some(u64::from(script.tasks)))?;
    put_word(out, "mode", mode_word(script.mode))?;
    put_word(out, "unique", answer_word(script.unique))?;
    put_number(out, "retries", Some(u64::from(script.retries)))?;
    put_number(out, "block", unless(0, script.block))?;
    put_number(out, "lanes", unless(1, u64::from(script.lanes)))?;
    put_number(out, "stamp", script.stamp)?;
    put_losses(out, &script.fates)
}
