ghost use Rattle.std.specs.List.{flat_map};
ghost use Rattle.std.specs.Prelude.{◌≡◌, ◌++◌, string_bytes, IfOk, OnOk};
ghost use Rattle.audit_text.specs.Answer.{marker_word, pick_line, sound_text};

use soundness::Marker;
use std::alloc::{AllocError, Global};

/// A task and the attempt that can be its choice, by their numbers.
#[derive(Clone, Copy, PartialEq, Eq, Debug)]
pub struct Pick {
    pub task: u32,
    pub attempt: u32,
}

/// Returns the word for a success marker.
fn marker_word(marker: Marker) -> &'static str
    ensures { result.now ≡ marker_word marker }
{
    match marker {
        Marker::Absent => "none",
        Marker::Old => "old",
        Marker::New => "new",
    }
}

/// Writes a line for each pick.
fn write_picks(text: &mut String, picks: &[Pick]) -> Result<(), AllocError>
    ensures { OnOk result (string_bytes text.new ≡ string_bytes text.old ++ flat_map pick_line picks.now) }
{
    for pick in picks {
        let task = pick.task;
        let attempt = pick.attempt;
        write!(text, "pick {task} {attempt}\n")?;
    }
    Ok(())
}

/// Returns the text that reports that readers were safe. It says how many lines the trace has, how
/// many of them changed something, which success marker exists at the end, and the attempt of each
/// task that can be its choice. Fails only if memory runs out.
#[tactic(auto, unfolding(crate::specs::Answer::sound_text))]
pub fn sound_text(
    alloc: Global,
    lines: u64,
    changes: u64,
    marker: Marker,
    picks: &[Pick],
) -> Result<String, AllocError>
    ensures text { IfOk result (λ text. string_bytes text ≡ sound_text lines changes marker picks.now) }
{
    let word = marker_word(marker);
    let mut text = format!(in alloc; "sound\nlines {lines}\nchanges {changes}\nmarker {word}\n")?;
    write_picks(&mut text, picks)?;
    Ok(text)
}
