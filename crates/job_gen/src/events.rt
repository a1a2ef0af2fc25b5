ghost use Rattle.std.specs.Prelude.{◌≡◌, ◌++◌, ◌∷◌, [], map, filter, IfOk, OnOk};
ghost use Rattle.std.specs.List.{flat_map};
ghost use Rattle.s3_types.specs.declared.request.Actor.TheVariants.{Attempt};
ghost use Rattle.job_gen.specs.Made.{is_twice, below, start_write, second_writes, start_commit, committer_of, made_events};

use crate::attempts::is_twice;
use job_model::{Event, EventList, Op};
use s3_types::Actor;
use std::alloc::{AllocError, Global};

/// Appends the events that start the writes of the first attempts.
fn push_writes(events: &mut EventList, tasks: u32) -> Result<(), AllocError>
    ensures { OnOk result (events.new ≡ events.old ++ map start_write (below tasks)) }
{
    for task in 0..tasks {
        let actor = Actor::Attempt { task, attempt: 0 };
        let op = Op::Write;
        events.push(Event::Start { actor, op })?;
    }
    Ok(())
}

/// Appends the events that kill the first attempt of a task and run the write of the second one.
fn push_second(events: &mut EventList, task: u32) -> Result<(), AllocError>
    ensures { OnOk result (events.new ≡ events.old ++ second_writes task) }
{
    let first = Actor::Attempt { task, attempt: 0 };
    let second = Actor::Attempt { task, attempt: 1 };
    events.push(Event::Kill { actor: first })?;
    events.push(Event::Do {
        actor: second,
        op: Op::Write,
    })
}

/// Appends such events for each task that has two attempts.
fn push_seconds(events: &mut EventList, tasks: u32) -> Result<(), AllocError>
    ensures { OnOk result (events.new ≡ events.old ++ flat_map second_writes (filter is_twice (below tasks))) }
{
    for task in 0..tasks {
        if is_twice(task) {
            push_second(events, task)?;
        }
    }
    Ok(())
}

/// The attempt of a task that commits: its last one.
fn committer_of(task: u32) -> Actor
    ensures { result ≡ committer_of task }
{
    let attempt = if is_twice(task) { 1 } else { 0 };
    Actor::Attempt { task, attempt }
}

/// Appends the events that start the commits of the tasks' last attempts.
fn push_commits(events: &mut EventList, tasks: u32) -> Result<(), AllocError>
    ensures { OnOk result (events.new ≡ events.old ++ map start_commit (below tasks)) }
{
    for task in 0..tasks {
        let actor = committer_of(task);
        let op = Op::Commit;
        events.push(Event::Start { actor, op })?;
    }
    Ok(())
}

/// Appends the event that runs an operation of the driver.
fn push_driver(events: &mut EventList, op: Op) -> Result<(), AllocError>
    ensures { OnOk result (events.new ≡ events.old ++ Event.Do Actor.Driver op ∷ []) }
{
    events.push(Event::Do {
        actor: Actor::Driver,
        op,
    })
}

/// All events.
pub fn all_events(alloc: Global, seed: u32, tasks: u32) -> Result<EventList, AllocError>
    ensures { IfOk result (λ events. events ≡ made_events seed tasks) }
{
    let mut events = EventList::new(alloc);
    let mix = Event::Mix {
        seed: seed % 2147483648,
    };
    push_driver(&mut events, Op::Setup)?;
    push_writes(&mut events, tasks)?;
    events.push(mix)?;
    push_seconds(&mut events, tasks)?;
    push_commits(&mut events, tasks)?;
    events.push(mix)?;
    push_driver(&mut events, Op::Commit)?;
    push_driver(&mut events, Op::Clean)?;
    Ok(events)
}
