ghost use Rattle.std.specs.Prelude.{◌≡◌, ◌≤◌, length, option_map, is_some, IfSome, IfOk, Ok};
ghost use Rattle.std.specs.Str.{is_utf8};
ghost use Rattle.text_and_lists.specs.Lines.{lines_of};
ghost use Rattle.text_and_lists.specs.Words.{words_after};
ghost use Rattle.job_model.specs.JobScript.{Script};
ghost use Rattle.job_script.specs.Fault.{Gives};
ghost use Rattle.job_script.specs.inner.Fault.{Makes};
ghost use Rattle.job_script.specs.Script as script;

use crate::attempts::{attempt_line, file_line};
use crate::draft::{Draft, Group};
use crate::events::event_line;
use crate::fault::ScriptFault;
use crate::head::{complete, head_line, no_head};
use crate::kinds::{Kind, enters, kind_of};
use crate::loss::loss_line;
use job_model::{Attempts, EventList, Script};
use s3_types::{MOST_SCRIPT_BYTES, let_go};
use std::alloc::Global;
use text_and_lists::{next_field, next_line};

fn nothing(alloc: Global) -> Draft
    ensures { result ≡ script.nothing 10000 }
{
    Draft {
        group: Group::Head,
        head: no_head(alloc),
        attempts: Attempts::new(alloc),
        outside: None,
        files: 0,
        bytes: 0,
        events: EventList::new(alloc),
    }
}

#[tactic(auto, unfolding(crate::specs::Script::said_at))]
fn kind_line(
    alloc: Global,
    draft: &mut Draft,
    line: u64,
    kind: Kind,
    rest: Option<&str>,
) -> Result<(), ScriptFault>
    ensures { Makes result draft.new (script.said_at line kind draft.old
        (words_after (option_map (λ r. r.now) rest.entry))) }
{
    match kind {
        Kind::Head(word) => head_line(alloc, &mut draft.head, line, word, rest),
        Kind::Loss => loss_line(&mut draft.head, line, rest),
        Kind::Attempt => attempt_line(alloc, draft, line, rest),
        Kind::File => file_line(alloc, draft, line, rest),
        Kind::Event(word) => event_line(draft, line, word, rest),
    }
}

/// True if the line is empty or begins with `#`.
fn is_skipped(text: &str) -> bool
    ensures { result ≡ script.is_skipped text.now }
{
    match text.as_bytes().first() {
        Some(b) => *b == b'#',
        None => true,
    }
}

#[tactic(auto, unfolding(crate::specs::Script::words_at))]
fn line_of(alloc: Global, draft: &mut Draft, line: u64, text: &str) -> Result<(), ScriptFault>
    ensures { Makes result draft.new (script.line_at line draft.old text.now) }
{
    if is_skipped(text) {
        return Ok(());
    }
    let (word, rest) = next_field(' ', text);
    let Some(kind) = kind_of(word) else {
        return Err(ScriptFault::UnknownWord(line));
    };
    let Some(group) = enters(kind, draft.group) else {
        return Err(ScriptFault::BadLine(line));
    };
    draft.group = group;
    kind_line(alloc, draft, line, kind, rest)
}

#[tactic(auto, unfolding(crate::specs::Script::lines_at))]
fn draft_of(alloc: Global, text: &str) -> Result<Draft, ScriptFault>
    requires { length text.now ≤ MOST_SCRIPT_BYTES }
    ensures { Gives result (script.lines_at 1 (script.nothing 10000) (lines_of text.now)) }
{
    let mut draft = nothing(alloc);
    let mut line = 1u64;
    let mut rest = text;
    while !rest.is_empty() {
        let (words, after) = next_line(rest);
        if let Err(fault) = line_of(alloc, &mut draft, line, words) {
            let_go(draft);
            return Err(fault);
        }
        line += 1;
        rest = after;
    }
    Ok(draft)
}

/// The input as text, or none if it is not UTF-8.
fn text_of(bytes: &[u8]) -> Option<&str>
    ensures same { IfSome result (λ text. text.now ≡ bytes.now) }
    ensures found { is_some result ≡ is_utf8 bytes.now }
{
    match str::from_utf8(bytes) {
        Ok(text) => Some(text),
        Err(_) => None,
    }
}

#[tactic(auto, unfolding(crate::specs::Script::script_of))]
fn script_in(alloc: Global, bytes: &[u8]) -> Result<Script, ScriptFault>
    ensures { Gives result (script.script_of bytes.now) }
{
    if bytes.len() > MOST_SCRIPT_BYTES as usize {
        return Err(ScriptFault::TooLarge);
    }
    let Some(text) = text_of(bytes) else {
        return Err(ScriptFault::NotUtf8);
    };
    let draft = draft_of(alloc, text)?;
    complete(draft)
}

/// Reads a job script. The result keeps the bounds of `IsLegal`. The error is the first fault in
/// the order of `script_of`: TooLarge for more than 67,108,864 bytes, NotUtf8, the first fault of
/// the first faulty line, and then the faults of the script as a whole. NoMemory alone may come at
/// any place. Takes one pass over the input.
pub fn read_script(alloc: Global, bytes: &[u8]) -> Result<Script, ScriptFault>
    ensures exact { Gives result (script.script_of bytes.now) }
    ensures found { IfOk result (λ s. script.script_of bytes.now ≡ Ok s) }
    ensures only { (s : Script) → script.script_of bytes.now ≡ Ok s → Gives result (Ok s) }
{
    script_in(alloc, bytes)
}
