ghost use Rattle.std.specs.Prelude.{◌≡◌, ◌++◌, ◌∷◌, string_bytes, codes, OnOk};
ghost use Rattle.std.specs.List.{join_by};
ghost use Rattle.job_spec.specs.ReportText.{actor_end_text, end_text};

use job_model::{ActorEnd, EventEnd};
use std::alloc::AllocError;

/// Writes an actor with the outcome of its operation.
fn write_actor_end(text: &mut String, actor_end: &ActorEnd) -> Result<(), AllocError>
    ensures { OnOk result (string_bytes text.new ≡ string_bytes text.old ++ actor_end_text actor_end.now) }
{
    let ActorEnd { actor, end } = actor_end;
    write!(text, "{actor} {end}")
}

/// Writes the ends of a mix, at least one, with a comma and a blank between each two.
fn write_mixed(text: &mut String, first: &ActorEnd, rest: &[ActorEnd]) -> Result<(), AllocError>
    ensures { OnOk result (string_bytes text.new ≡ string_bytes text.old
        ++ join_by actor_end_text (codes ", ") (first.now ∷ rest.now)) }
{
    write_actor_end(text, first)?;
    for actor_end in rest {
        text.push_str(", ")?;
        write_actor_end(text, actor_end)?;
    }
    Ok(())
}

/// Writes how an event ended. If memory runs out, the text may be cut off anywhere.
pub fn write_end(text: &mut String, end: &EventEnd) -> Result<(), AllocError>
    ensures { OnOk result (string_bytes text.new ≡ string_bytes text.old ++ end_text end.now) }
{
    match end {
        EventEnd::Done => text.push_str("ok"),
        EventEnd::Ended(outcome) => write!(text, "{outcome}"),
        EventEnd::Mixed(ends) => match ends.as_slice().split_first() {
            Some((first, rest)) => write_mixed(text, first, rest),
            None => text.push_str("ok"),
        },
        EventEnd::Refused(fault) => write!(text, "refused {fault}"),
    }
}
