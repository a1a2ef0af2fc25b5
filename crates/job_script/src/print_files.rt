ghost use Rattle.std.specs.Prelude.{◌≡◌, ◌++◌, ◌∷◌, [], map, codes, string_bytes, OnOk, IfOk};
ghost use Rattle.std.specs.List.{flat_map};
ghost use Rattle.text_and_lists.specs.Words.{ended, text_of};
ghost use Rattle.s3_types.specs.declared.request.Actor.TheVariants.{Attempt};
ghost use Rattle.s3_types.specs.Spelling.{actor_text};
ghost use Rattle.job_script.specs.Print.{hex_word, file_line, attempt_lines};

use job_model::{AttemptName, Attempts, FileList};
use s3_types::{Actor, Bytes, Text};
use std::alloc::{AllocError, Global};

/// The bytes in hex; `-` means none.
fn hex_word(alloc: Global, bytes: &[u8]) -> Result<String, AllocError>
    ensures { IfOk result (λ word. string_bytes word ≡ hex_word bytes.now) }
{
    if bytes.is_empty() {
        return String::from_str(alloc, "-");
    }
    hex::encode(alloc, bytes)
}

fn put_file(alloc: Global, out: &mut String, path: &Text, bytes: &Bytes) -> Result<(), AllocError>
    ensures { OnOk result (string_bytes out.new ≡ string_bytes out.old ++ ended (file_line (path.now, bytes.now))) }
{
    let path = path.as_str();
    let digits = hex_word(alloc, bytes.as_slice())?;
    write!(out, "file {path} hex {digits}\n")
}

fn put_files(alloc: Global, out: &mut String, files: &FileList) -> Result<(), AllocError>
    ensures { OnOk result (string_bytes out.new ≡ string_bytes out.old ++ text_of (map file_line files.now)) }
{
    for (path, bytes) in files.held() {
        put_file(alloc, out, path, bytes)?;
    }
    Ok(())
}

fn put_name(out: &mut String, name: AttemptName) -> Result<(), AllocError>
    ensures { OnOk result (string_bytes out.new ≡ string_bytes out.old ++ ended
        (codes "attempt" ∷ actor_text (Attempt name.task name.attempt) ∷ [])) }
{
    let actor = Actor::Attempt {
        task: name.task,
        attempt: name.attempt,
    };
    write!(out, "attempt {actor}\n")
}

/// Appends an attempt and its files.
fn put_attempt(
    alloc: Global,
    out: &mut String,
    name: AttemptName,
    files: &FileList,
) -> Result<(), AllocError>
    ensures { OnOk result (string_bytes out.new ≡ string_bytes out.old ++ text_of (attempt_lines (name, files.now))) }
{
    put_name(out, name)?;
    put_files(alloc, out, files)
}

/// Appends the lines of the attempts, each followed by its files.
pub fn put_attempts(alloc: Global, out: &mut String, attempts: &Attempts) -> Result<(), AllocError>
    ensures { OnOk result (string_bytes out.new ≡ string_bytes out.old
        ++ text_of (flat_map attempt_lines attempts.now)) }
{
    for (name, files) in attempts.held() {
        put_attempt(alloc, out, *name, files)?;
    }
    Ok(())
}
