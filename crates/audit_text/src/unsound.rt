ghost use Rattle.std.specs.Prelude.{◌≡◌, ◌++◌, string_bytes, IfOk, OnOk};
ghost use Rattle.audit_text.specs.Answer.{path_text, reason_text, unsound_text};

use audit_judge::Reason;
use s3_types::Text;
use serde_json::Value;
use std::alloc::{AllocError, Global};

/// Returns a path as a JSON string.
fn quoted(alloc: Global, path: &Text) -> Result<String, AllocError>
    ensures { IfOk result (λ text. string_bytes text ≡ path_text path.now) }
{
    let path = Value::String(String::from_str(alloc, path.as_str())?);
    path.to_string(alloc)
}

/// Writes a word, a blank and a path.
fn write_path(alloc: Global, text: &mut String, word: &str, path: &Text) -> Result<(), AllocError>
    ensures { OnOk result (string_bytes text.new ≡ string_bytes text.old ++ (word.now ++ path_text path.now)) }
{
    let path = quoted(alloc, path)?;
    text.push_str(word)?;
    text.push_str(path.as_str())
}

/// Writes a reason: its word, a blank, and its path or the number of its task.
fn write_reason(alloc: Global, text: &mut String, reason: &Reason) -> Result<(), AllocError>
    ensures { OnOk result (string_bytes text.new ≡ string_bytes text.old ++ reason_text reason.now) }
{
    match reason {
        Reason::Early(path) => write_path(alloc, text, "early ", path),
        Reason::Missing(task) => write!(text, "missing {task}"),
        Reason::Foreign(path) => write_path(alloc, text, "foreign ", path),
        Reason::Lost(path) => write_path(alloc, text, "lost ", path),
        Reason::Torn(task) => write!(text, "torn {task}"),
        Reason::Stale(path) => write_path(alloc, text, "stale ", path),
        Reason::Half(task) => write!(text, "half {task}"),
        Reason::Left(path) => write_path(alloc, text, "left ", path),
    }
}

/// Returns the text that reports that readers were not safe: the number of the first line with
/// which they were not, and the reason. Fails only if memory runs out.
#[tactic(auto, unfolding(crate::specs::Answer::unsound_text))]
pub fn unsound_text(alloc: Global, number: u64, reason: &Reason) -> Result<String, AllocError>
    ensures text { IfOk result (λ text. string_bytes text ≡ unsound_text number reason.now) }
{
    let mut text = format!(in alloc; "unsound at line {number}: ")?;
    write_reason(alloc, &mut text, reason)?;
    text.push_str("\n")?;
    Ok(text)
}
