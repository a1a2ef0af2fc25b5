ghost use Rattle.std.specs.Prelude.{◌≡◌};
ghost use Rattle.job_script.specs.Kinds as table;

use s3_types::{Fate, Mode};

/// The name of a conflict mode.
pub fn mode_word(mode: Mode) -> &'static str
    ensures { result.now ≡ table.mode_word mode }
{
    match mode {
        Mode::Fail => "fail",
        Mode::Append => "append",
        Mode::Replace => "replace",
    }
}

/// `yes` or `no`.
pub fn answer_word(answer: bool) -> &'static str
    ensures { result.now ≡ table.answer_word answer }
{
    if answer { "yes" } else { "no" }
}

/// The name of a fate.
pub fn fate_word(fate: Fate) -> &'static str
    ensures { result.now ≡ table.fate_word fate }
{
    match fate {
        Fate::Answer => "answer",
        Fate::Slow => "slow",
        Fate::Before => "before",
        Fate::After => "after",
    }
}
