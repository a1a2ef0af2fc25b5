ghost use Rattle.std.specs.Prelude.{◌≡◌, Some, None, IfOk};
ghost use Rattle.std.specs.List.{list_all};
ghost use Rattle.s3a_words.specs.Words.{is_plain, path_named, alone, with_path, with_operand, with_paths, with_two, made, with_three, said, command_of, IsBounded, Reads};
ghost use Rattle.s3a_words.specs.inner.Grammar.{given};

use crate::command::{Command, WordFault};
use crate::grammar::{as_texts, matches_in};
use crate::numbers::{minimum_in, number_within};
use clap::ArgMatches;
use path_keys::{PathFault, S3Path};
use s3_types::{Text, let_go};
use std::alloc::{AllocError, Global};

/// The most tasks of a script that `gen` makes.
const MOST_TASKS: u32 = 200;

/// The most files of one task of such a script.
const MOST_FILES: u32 = 50;

/// The path that a word names, if it is a path.
#[tactic(auto, unfolding(crate::specs::Words::path_named))]
fn path_named(alloc: Global, word: &str) -> Result<Option<S3Path>, AllocError>
    ensures { IfOk result (λ path. path ≡ path_named word.now) }
{
    match S3Path::read(alloc, word) {
        Ok(path) => Ok(Some(path)),
        Err(PathFault::NoMemory) => Err(AllocError),
        Err(_) => Ok(None),
    }
}

/// The command with this name and no operand.
#[tactic(auto, unfolding(crate::specs::Words::alone))]
fn alone(name: &str) -> Option<Command>
    ensures { result ≡ alone name.now }
{
    match name {
        "job" => Some(Command::Job),
        "twins" => Some(Command::Twins),
        "init" => Some(Command::Init { minimum: None }),
        _ => None,
    }
}

/// The command with this name and a path.
#[tactic(auto, unfolding(crate::specs::Words::with_path))]
fn with_path(name: &str, path: S3Path) -> Option<Command>
    ensures { result ≡ with_path name.now path }
{
    match name {
        "ls" => Some(Command::Ls { path }),
        "stat" => Some(Command::Stat { path }),
        "cat" => Some(Command::Cat { path }),
        "put" => Some(Command::Put { path }),
        "put-force" => Some(Command::PutForce { path }),
        "put-drop" => Some(Command::PutDrop { path }),
        "mkdir" => Some(Command::Mkdir { path }),
        "rm" => Some(Command::Rm { path }),
        "rmr" => Some(Command::Rmr { path }),
        "uploads" => Some(Command::Uploads { path }),
        "abort-uploads" => Some(Command::AbortUploads { path }),
        "markers" => Some(Command::Markers { path }),
        "clean-markers" => Some(Command::CleanMarkers { path }),
        "fill-markers" => Some(Command::FillMarkers { path }),
        _ => {
            let_go(path);
            None
        }
    }
}

/// The command with this name and one operand.
#[tactic(auto, unfolding(crate::specs::Words::with_operand))]
fn with_operand(alloc: Global, name: &str, operand: &str) -> Result<Option<Command>, AllocError>
    ensures { IfOk result (λ o. o ≡ with_operand name.now operand.now) }
{
    match name {
        "init" => match minimum_in(alloc, operand)? {
            Some(minimum) => Ok(Some(Command::Init {
                minimum: Some(minimum),
            })),
            None => Ok(None),
        },
        "mb" => {
            let name = Text::copied(alloc, operand)?;
            Ok(Some(Command::Mb { name }))
        }
        _ => match path_named(alloc, operand)? {
            Some(path) => Ok(with_path(name, path)),
            None => Ok(None),
        },
    }
}

/// The command with this name and two paths.
#[tactic(auto, unfolding(crate::specs::Words::with_paths))]
fn with_paths(name: &str, from: S3Path, to: S3Path) -> Option<Command>
    ensures { result ≡ with_paths name.now from to }
{
    match name {
        "mv" => Some(Command::Mv { from, to }),
        "cp" => Some(Command::Cp { from, to }),
        _ => {
            let_go((from, to));
            None
        }
    }
}

/// The command with this name and two operands, which must be paths.
#[tactic(auto, unfolding(crate::specs::Words::with_two))]
fn with_two(
    alloc: Global,
    name: &str,
    first: &str,
    second: &str,
) -> Result<Option<Command>, AllocError>
    ensures { IfOk result (λ o. o ≡ with_two name.now first.now second.now) }
{
    let Some(from) = path_named(alloc, first)? else {
        return Ok(None);
    };
    match path_named(alloc, second) {
        Ok(Some(to)) => Ok(with_paths(name, from, to)),
        Ok(None) => {
            let_go(from);
            Ok(None)
        }
        Err(error) => {
            let_go(from);
            Err(error)
        }
    }
}

/// The `gen` command with this seed, number of tasks and number of files.
#[tactic(auto, unfolding(crate::specs::Words::made))]
fn made(alloc: Global, seed: &str, tasks: &str, files: &str) -> Result<Option<Command>, AllocError>
    ensures { IfOk result (λ o. o ≡ made seed.now tasks.now files.now) }
{
    let Some(seed) = number_within(alloc, seed, 0, u32::MAX)? else {
        return Ok(None);
    };
    let Some(tasks) = number_within(alloc, tasks, 1, MOST_TASKS)? else {
        return Ok(None);
    };
    match number_within(alloc, files, 1, MOST_FILES)? {
        Some(files) => Ok(Some(Command::Gen { seed, tasks, files })),
        None => Ok(None),
    }
}

/// The command with this name and three operands.
#[tactic(auto, unfolding(crate::specs::Words::with_three))]
fn with_three(
    alloc: Global,
    name: &str,
    first: &str,
    second: &str,
    third: &str,
) -> Result<Option<Command>, AllocError>
    ensures { IfOk result (λ o. o ≡ with_three name.now first.now second.now third.now) }
{
    match name {
        "gen" => made(alloc, first, second, third),
        _ => Ok(None),
    }
}

/// True if no word begins with `-`.
fn are_plain(words: &[Text]) -> bool
    ensures { result ≡ list_all is_plain words.now }
{
    words.iter().all(|word| !word.as_str().starts_with("-"))
}

/// The command that clap's matches name.
fn said(alloc: Global, matches: &ArgMatches<'_>) -> Result<Option<Command>, AllocError>
    ensures { IfOk result (λ o. o ≡ said (given matches.now)) }
{
    let Some(name) = matches.get_str("command") else {
        return Ok(None);
    };
    let Some(first) = matches.get_str("first") else {
        return Ok(alone(name));
    };
    let Some(second) = matches.get_str("second") else {
        return with_operand(alloc, name, first);
    };
    let Some(third) = matches.get_str("third") else {
        return with_two(alloc, name, first, second);
    };
    with_three(alloc, name, first, second, third)
}

/// The command that the words name.
#[tactic(auto, unfolding(crate::specs::Words::command_of))]
fn command_in(alloc: Global, words: &[Text]) -> Result<Option<Command>, AllocError>
    ensures { IfOk result (λ o. o ≡ command_of words.now) }
{
    let Some((_, words)) = words.split_first() else {
        return Ok(None);
    };
    if !are_plain(words) {
        return Ok(None);
    }
    let words = as_texts(alloc, words)?;
    match matches_in(alloc, words.as_slice())? {
        Some(matches) => said(alloc, &matches),
        None => Ok(None),
    }
}

/// Reads the command that the words name: word 0 is the folder, word 1 the command's name, and the
/// others are its operands.
///
/// - Without operand: `init`, `job` and `twins`.
/// - With a path: `ls`, `stat`, `cat`, `put`, `put-force`, `put-drop`, `mkdir`, `rm`, `rmr`,
///   `uploads`, `abort-uploads`, `markers`, `clean-markers` and `fill-markers`.
/// - With two paths: `mv` and `cp`.
/// - With other operands: `init MIN`, `mb NAME` and `gen SEED TASKS FILES`.
///
/// No word after the folder begins with `-`. A number has 1 to 18 decimal digits, no sign and no
/// leading zero. MIN is from 1 to 5,242,880, SEED from 0 to 4,294,967,295, TASKS from 1 to 200 and
/// FILES from 1 to 50. A path is one that `S3Path::read` accepts.
///
/// Fails with `Usage` exactly if the words name no command, so for `--help` too, and with
/// `NoMemory` only if memory runs out.
pub fn read_words(alloc: Global, words: &[Text]) -> Result<Command, WordFault>
    ensures exact { Reads (command_of words.now) result }
    ensures bounded { IfOk result IsBounded }
{
    match command_in(alloc, words) {
        Ok(Some(command)) => Ok(command),
        Ok(None) => Err(WordFault::Usage),
        Err(_) => Err(WordFault::NoMemory),
    }
}
