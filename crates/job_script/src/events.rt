ghost use Rattle.std.specs.Prelude.{◌≡◌, option_map};
ghost use Rattle.text_and_lists.specs.Words.{words_after};
ghost use Rattle.job_model.specs.Attempts.{is_known};
ghost use Rattle.job_script.specs.Fault.{Gives};
ghost use Rattle.job_script.specs.inner.Fault.{Makes};
ghost use Rattle.job_script.specs.EventLines as lines;

use crate::attempts::name_of;
use crate::draft::Draft;
use crate::fault::ScriptFault;
use crate::head::{number, one_word};
use crate::kinds::{EventWord, attempt_op, driver_op};
use job_model::{AttemptName, Attempts, Event, Op};
use s3_types::Actor;
use text_and_lists::{number_within, two};

fn is_driver(word: &str) -> bool
    ensures { result ≡ lines.is_driver word.now }
{
    word == "driver"
}

#[tactic(auto, unfolding(crate::specs::EventLines::actor_at))]
fn actor_of(line: u64, word: &str) -> Result<Actor, ScriptFault>
    ensures { Gives result (lines.actor_at line word.now) }
{
    if is_driver(word) {
        return Ok(Actor::Driver);
    }
    let name = name_of(line, word)?;
    Ok(Actor::Attempt {
        task: name.task,
        attempt: name.attempt,
    })
}

fn is_known(attempts: &Attempts, actor: Actor) -> bool
    ensures { result ≡ is_known attempts.now actor }
{
    match actor {
        Actor::Driver => true,
        Actor::Attempt { task, attempt } => attempts.declares(AttemptName { task, attempt }),
        Actor::Shell => false,
    }
}

fn op_of(actor: &str, word: &str) -> Option<Op>
    ensures { result ≡ lines.op_of actor.now word.now }
{
    if is_driver(actor) {
        return driver_op(word);
    }
    attempt_op(word)
}

#[tactic(auto, unfolding(crate::specs::EventLines::order_at))]
fn order_of(draft: &Draft, line: u64, rest: Option<&str>) -> Result<(Actor, Op), ScriptFault>
    ensures { Gives result (lines.order_at line draft.now (words_after (option_map (λ r. r.now) rest.entry))) }
{
    let Some((actor, op)) = two(rest) else {
        return Err(ScriptFault::BadLine(line));
    };
    let Some(op) = op_of(actor, op) else {
        return Err(ScriptFault::BadLine(line));
    };
    let actor = actor_of(line, actor)?;
    if !is_known(&draft.attempts, actor) {
        return Err(ScriptFault::UnknownActor(line));
    }
    Ok((actor, op))
}

#[tactic(auto, unfolding(crate::specs::EventLines::alone_at))]
fn alone_of(draft: &Draft, line: u64, rest: Option<&str>) -> Result<Actor, ScriptFault>
    ensures { Gives result (lines.alone_at line draft.now (words_after (option_map (λ r. r.now) rest.entry))) }
{
    let word = one_word(line, rest)?;
    let actor = actor_of(line, word)?;
    if !is_known(&draft.attempts, actor) {
        return Err(ScriptFault::UnknownActor(line));
    }
    Ok(actor)
}

#[tactic(auto, unfolding(crate::specs::EventLines::step_at))]
fn step_event(draft: &Draft, line: u64, rest: Option<&str>) -> Result<Event, ScriptFault>
    ensures { Gives result (lines.step_at line draft.now (words_after (option_map (λ r. r.now) rest.entry))) }
{
    let Some((actor, count)) = two(rest) else {
        return Err(ScriptFault::BadLine(line));
    };
    let actor = actor_of(line, actor)?;
    let Some(count) = number_within(1, 1_000_000, count) else {
        return Err(ScriptFault::BadNumber(line));
    };
    if !is_known(&draft.attempts, actor) {
        return Err(ScriptFault::UnknownActor(line));
    }
    Ok(Event::Step {
        actor,
        count: count as u32,
    })
}

#[tactic(auto, unfolding(crate::specs::EventLines::restart_at))]
fn restart_event(line: u64, rest: Option<&str>) -> Result<Event, ScriptFault>
    ensures { Gives result (lines.restart_at line (words_after (option_map (λ r. r.now) rest.entry))) }
{
    let word = one_word(line, rest)?;
    if !is_driver(word) {
        return Err(ScriptFault::BadLine(line));
    }
    Ok(Event::Restart)
}

#[tactic(auto, unfolding(crate::specs::EventLines::recover_at))]
fn recover_event(draft: &Draft, line: u64, rest: Option<&str>) -> Result<Event, ScriptFault>
    ensures { Gives result (lines.recover_at line draft.now (words_after (option_map (λ r. r.now) rest.entry))) }
{
    let word = one_word(line, rest)?;
    let name = name_of(line, word)?;
    if !draft.attempts.declares(name) {
        return Err(ScriptFault::UnknownActor(line));
    }
    Ok(Event::Recover {
        actor: Actor::Attempt {
            task: name.task,
            attempt: name.attempt,
        },
    })
}

fn event_of(
    draft: &Draft,
    line: u64,
    word: EventWord,
    rest: Option<&str>,
) -> Result<Event, ScriptFault>
    ensures { Gives result (lines.event_at line word draft.now (words_after (option_map (λ r. r.now) rest.entry))) }
{
    match word {
        EventWord::Do => {
            let (actor, op) = order_of(draft, line, rest)?;
            Ok(Event::Do { actor, op })
        }
        EventWord::Start => {
            let (actor, op) = order_of(draft, line, rest)?;
            Ok(Event::Start { actor, op })
        }
        EventWord::Step => step_event(draft, line, rest),
        EventWord::Run => Ok(Event::Run {
            actor: alone_of(draft, line, rest)?,
        }),
        EventWord::Kill => Ok(Event::Kill {
            actor: alone_of(draft, line, rest)?,
        }),
        EventWord::Mix => Ok(Event::Mix {
            seed: number(0, 2_147_483_647, line, one_word(line, rest)?)? as u32,
        }),
        EventWord::Restart => restart_event(line, rest),
        EventWord::Recover => recover_event(draft, line, rest),
    }
}

/// Reads the line of an event, after its first word `word`, and adds the event to the draft. The
/// error is the line's first fault.
#[tactic(auto, unfolding(crate::specs::EventLines::event_line_at))]
pub fn event_line(
    draft: &mut Draft,
    line: u64,
    word: EventWord,
    rest: Option<&str>,
) -> Result<(), ScriptFault>
    ensures { Makes result draft.new (lines.event_line_at line word draft.old
        (words_after (option_map (λ r. r.now) rest.entry))) }
{
    let event = event_of(draft, line, word, rest)?;
    if draft.events.len() >= 100_000 {
        return Err(ScriptFault::TooLarge);
    }
    draft.events.push(event)?;
    Ok(())
}
