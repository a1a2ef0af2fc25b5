ghost use Rattle.std.specs.Prelude.{◌≡◌, ◌<◌, ◌≤◌, ◌+◌, ◌-◌, ◌^◌, ◌&&◌, ℕ, Bool, true, map, replicate, nat_lt, length, slice_get, option_map, Some, IfOk};
ghost use Rattle.s3_types.specs.declared.request.Actor.TheVariants.{Driver};
ghost use Rattle.job_model.specs.Attempts.{is_known};
ghost use Rattle.job_model.specs.JobScript.{Script};
ghost use Rattle.job_model.specs.Jobs.{has_task};
ghost use Rattle.job_model.specs.Legal.{IsEvent};
ghost use Rattle.commit_lanes.specs.Fitting.{least_missing};
ghost use Rattle.job_spec.specs.States.{Past, actors, begin, kill, restart, open_event, actor_named, end_op, end_ops, is_committing, is_done, is_reported, told, count, after_event, nothing_past, past, refuse_op, refuse_begin, refusal, missing, verdict_or};
ghost use Rattle.job_spec.specs.Turns.{is_busy, busy_actors};
ghost use Rattle.job_states.specs.inner.Standing.{fresh, unreported_in};
ghost use Rattle.job_states.specs.Stands.{Stands, tested};
ghost use Rattle.job_states.specs.inner.Stands.{told_by, busy_from};

use crate::places::{put_standing, standing_of};
use crate::refusals::{refuse_begin, refuse_kill, refuse_move, refuse_restart};
use crate::reports::Reports;
use crate::standing::{
    Decision, FRESH, Standing, after_end, begun, commit_begun, decided, is_reporting, killed,
    renewed, setup_begun, unreported,
};
use job_model::{
    ActorEnd, ActorStage, ActorState, Event, EventEnd, EventFault, Life, Op, OpEnd, Script, TaskSet,
};
use s3_types::Actor;
use std::alloc::{AllocError, Global};
use std::marker::Model;

/// The state of a script's actors during its run. All its memory is taken when it is made. It has:
///
/// - the life and stage of the driver and of each declared attempt, and the operation that each
///   began last
/// - the number of events, and the number of the job attempt, from 1
/// - the reported tasks
/// - what is known of the driver's last set-up and of its commit
#[derive(Drop)]
pub struct States {
    events: u32,
    actors: Vec<Standing>,
    attempt: u32,
    reports: Reports,
    setup: Decision,
    commit: Decision,
}

impl Model for States {
    ghost use Rattle.job_states.specs.Stands.{Kept};

    ghost Value = { Kept };

    ghost view = { λ s. record {
      events = s.events;
      actors = s.actors.items;
      attempt = s.attempt;
      reported = s.reports;
      setup = s.setup;
      commit = s.commit;
    } };
}

/// The standings of `count` actors that have begun nothing.
fn fresh_standings(alloc: Global, count: usize) -> Result<Vec<Standing>, AllocError>
    ensures { IfOk result (λ standings. standings.items ≡ replicate count fresh) }
{
    vec![in alloc; FRESH; count]
}

/// The standings of the driver and all attempts, which have begun nothing.
fn all_fresh(alloc: Global, script: &Script) -> Result<Vec<Standing>, AllocError>
    ensures { IfOk result (λ standings. standings.items ≡ map (λ a. fresh) (actors script.now)) }
{
    let standings = fresh_standings(alloc, script.attempts.len() + 1)?;
    Ok(standings)
}

fn is_busy(life: Life) -> bool
    ensures { result ≡ is_busy life }
{
    matches!(life, Life::Busy)
}

/// The places of the busy actors.
fn busy_places(alloc: Global, standings: &[Standing]) -> Result<Vec<usize>, AllocError>
    ensures { IfOk result (λ places. places.items ≡ busy_from 0 standings.now) }
{
    let mut places = Vec::new(alloc);
    for (place, standing) in standings.iter().enumerate() {
        if is_busy(standing.state.life) {
            places.push(place)?;
        }
    }
    Ok(places)
}

/// The actor of an event. A mix has none, and gives an actor outside the job.
fn named(event: Event) -> Actor
    ensures { result ≡ actor_named event }
{
    match event {
        Event::Do { actor, op: _ }
        | Event::Start { actor, op: _ }
        | Event::Step { actor, count: _ }
        | Event::Run { actor }
        | Event::Kill { actor }
        | Event::Recover { actor } => actor,
        Event::Restart => Actor::Driver,
        Event::Mix { seed: _ } => Actor::Shell,
    }
}

/// The reports after the end of an actor's operation at this stage.
fn report(reports: &mut Reports, actor: Actor, stage: ActorStage, end: &OpEnd)
    ensures { (tasks : ℕ) (f : ℕ → Bool) → reports.old ≡ tested tasks f → reports.new
        ≡ tested tasks (told_by actor (is_committing stage && is_done end.now) f) }
{
    let Actor::Attempt { task, attempt: _ } = actor else {
        return;
    };
    if is_reporting(stage, end) {
        reports.tell(task);
    }
}

/// Marks no actor as one that has reported.
fn unreport(standings: &mut [Standing])
    ensures { standings.new ≡ map unreported_in standings.old }
{
    for standing in standings.iter_mut() {
        *standing = unreported(*standing);
    }
}

impl States {
    /// The state before the first event: the driver and each declared attempt are idle and new, the
    /// job attempt is 1, and nothing was begun or reported.
    pub fn new(alloc: Global, script: &Script) -> Result<States, AllocError>
        ensures { IfOk result (λ states. Stands script.now states nothing_past) }
    {
        let actors = all_fresh(alloc, script)?;
        let reports = Reports::new(alloc, script.tasks)?;
        Ok(States {
            events: 0,
            actors,
            attempt: 1,
            reports,
            setup: Decision::NotBegun,
            commit: Decision::NotBegun,
        })
    }

    /// The states after the first events of a script, which had these ends. Ends without an event
    /// are skipped.
    pub fn after(alloc: Global, script: &Script, ends: &[EventEnd]) -> Result<States, AllocError>
        ensures { IfOk result (λ states. Stands script.now states (past script.now ends.now)) }
    {
        let mut states = States::new(alloc, script)?;
        let events = script.events.as_slice();
        for (index, end) in ends.iter().enumerate() {
            let Some(event) = events.get(index) else {
                return Ok(states);
            };
            states.pass(script, *event, end);
        }
        Ok(states)
    }

    /// An actor's life and stage. Takes no memory.
    pub fn state(&self, script: &Script, actor: Actor) -> ActorState
        requires { is_known script.now.attempts actor ≡ true }
        ensures { (p : Past) → Stands script.now self.now p → result ≡ p.state actor }
    {
        standing_of(&self.actors, script, actor).state
    }

    /// True if an actor runs an operation. Takes no memory.
    pub fn is_busy(&self, script: &Script, actor: Actor) -> bool
        requires { is_known script.now.attempts actor ≡ true }
        ensures { (p : Past) → Stands script.now self.now p → result ≡ is_busy (p.state actor).life }
    {
        is_busy(self.state(script, actor).life)
    }

    /// The operation that an actor began last, or none. Takes no memory.
    pub fn begun_last(&self, script: &Script, actor: Actor) -> Option<Op>
        requires { is_known script.now.attempts actor ≡ true }
        ensures { (p : Past) → Stands script.now self.now p → result ≡ option_map (λ d. d.op) (p.doing actor) }
    {
        standing_of(&self.actors, script, actor).begun
    }

    /// The places of the busy actors, rising: 0 for the driver, then the attempts in script order.
    pub fn busy(&self, alloc: Global) -> Result<Vec<usize>, AllocError>
        ensures { (w : Script) (p : Past) → Stands w self.now p
            → IfOk result (λ places. map (slice_get (actors w)) places.items ≡ map Some (busy_actors w p.state)) }
    {
        let places = busy_places(alloc, &self.actors)?;
        Ok(places)
    }

    /// The lowest task without an attempt whose commit ended with Done since the last restart, or
    /// none. Takes no memory.
    pub fn missing(&self) -> Option<u32>
        ensures { (w : Script) (p : Past) → Stands w self.now p → result ≡ missing w p.reported }
    {
        self.reports.missing()
    }

    /// The tasks with such an attempt. A job's commit with these misses the same task.
    pub fn reported(&self, alloc: Global) -> Result<TaskSet, AllocError>
        ensures exact { (w : Script) (p : Past) → Stands w self.now p
            → IfOk result (λ set. (t : ℕ) → has_task set t ≡ (nat_lt t w.tasks && is_reported w p.reported t)) }
        ensures missing { (w : Script) (p : Past) → Stands w self.now p
            → IfOk result (λ set. least_missing w.tasks set ≡ missing w p.reported) }
    {
        let tasks = self.reports.tasks(alloc)?;
        Ok(tasks)
    }

    /// True if an actor's commit has ended with Done since the last restart. Takes no memory.
    pub fn has_reported(&self, script: &Script, actor: Actor) -> bool
        requires { is_known script.now.attempts actor ≡ true }
        ensures { (p : Past) → Stands script.now self.now p → result ≡ p.reported actor }
    {
        standing_of(&self.actors, script, actor).reported
    }

    /// The number of the job attempt: one more than the number of restarts so far.
    pub fn attempt(&self) -> u32
        ensures { (w : Script) (p : Past) → Stands w self.now p → result ≡ p.attempt }
    {
        self.attempt
    }

    /// The number of events so far.
    pub fn events(&self) -> u32
        ensures { (w : Script) (p : Past) → Stands w self.now p → result ≡ p.events }
    {
        self.events
    }

    /// The status of the run: 0 if the driver's commit ended with Committed, 8 if one of its
    /// requests ran out of retries, 9 if memory ran out, and 1 otherwise. If no commit was begun,
    /// its last set-up decides in the same way.
    pub fn verdict(&self) -> u8
        ensures { (w : Script) (p : Past) → Stands w self.now p → result ≡ verdict_or (verdict_or 1 p.setup) p.commit }
    {
        self.commit.status_or(self.setup.status_or(1))
    }

    /// Why an event of the script is refused, or none. Takes no memory.
    pub fn refusal(&self, script: &Script, event: Event) -> Option<EventFault>
        requires { IsEvent script.now.attempts event }
        ensures { (p : Past) → Stands script.now self.now p → result ≡ refusal p.state event }
    {
        match event {
            Event::Do { actor, op } | Event::Start { actor, op } => {
                self.refuse_begin(script, actor, op)
            }
            Event::Step { actor, count: _ } | Event::Run { actor } => {
                refuse_move(self.state(script, actor).life)
            }
            Event::Kill { actor } => refuse_kill(self.state(script, actor).life),
            Event::Mix { seed: _ } => None,
            Event::Restart => refuse_restart(self.state(script, Actor::Driver).life),
            Event::Recover { actor: _ } => Some(EventFault::NoRecovery),
        }
    }

    fn refuse_begin(&self, script: &Script, actor: Actor, op: Op) -> Option<EventFault>
        requires { is_known script.now.attempts actor ≡ true }
        ensures { (p : Past) → Stands script.now self.now p
            → result ≡ refuse_begin (p.state actor).life (refuse_op (p.state Driver).stage actor op
            (p.state actor).stage) }
    {
        let state = self.state(script, actor);
        let driver = self.state(script, Actor::Driver);
        refuse_begin(state.life, driver.stage, actor, op, state.stage)
    }

    /// Begins an event of the script that is not refused, before its requests. Takes no memory. A
    /// script has fewer than 2^32 - 1 restarts.
    pub fn open(&mut self, script: &Script, event: Event)
        requires event { IsEvent script.now.attempts event }
        requires room { self.old.attempt < 2 ^ 32 - 1 }
        ensures stands { (p : Past) → Stands script.now self.old p
            → Stands script.now self.new (open_event script.now p event) }
        ensures attempt { self.new.attempt ≤ self.old.attempt + 1 }
        ensures events { self.new.events ≡ self.old.events }
    {
        match event {
            Event::Do { actor, op } | Event::Start { actor, op } => self.begin(script, actor, op),
            Event::Kill { actor } => self.kill(script, actor),
            Event::Restart => self.restart(script),
            _ => {}
        }
    }

    /// Ends an actor's operation. Takes no memory.
    pub fn end(&mut self, script: &Script, actor_end: &ActorEnd)
        ensures stands { (p : Past) → Stands script.now self.old p
            → Stands script.now self.new (end_op p actor_end.now) }
        ensures attempt { self.new.attempt ≡ self.old.attempt }
        ensures events { self.new.events ≡ self.old.events }
    {
        self.end_of(script, actor_end.actor, &actor_end.end);
    }

    /// Counts one more event. Takes no memory.
    pub fn count(&mut self)
        requires { self.old.events < 2 ^ 32 - 1 }
        ensures stands { (w : Script) (p : Past) → Stands w self.old p → Stands w self.new (count p) }
        ensures attempt { self.new.attempt ≡ self.old.attempt }
        ensures events { self.new.events ≡ self.old.events + 1 }
    {
        self.events += 1;
    }

    /// Adds one more event of the script with its end: the event begins unless it was refused, then
    /// the operations that ended in it end, and it is counted. Takes no memory.
    pub fn pass(&mut self, script: &Script, event: Event, end: &EventEnd)
        requires event { IsEvent script.now.attempts event }
        requires attempt { self.old.attempt < 2 ^ 32 - 1 }
        requires events { self.old.events < 2 ^ 32 - 1 }
        ensures stands { (p : Past) → Stands script.now self.old p
            → Stands script.now self.new (after_event script.now p event end.now) }
        ensures attempt { self.new.attempt ≤ self.old.attempt + 1 }
        ensures events { self.new.events ≡ self.old.events + 1 }
    {
        self.play(script, event, end);
        self.count();
    }

    /// A refused event changes nothing. Any other one begins, and then its operations end.
    fn play(&mut self, script: &Script, event: Event, end: &EventEnd)
        requires event { IsEvent script.now.attempts event }
        requires room { self.old.attempt < 2 ^ 32 - 1 }
        ensures stands { (p : Past) → Stands script.now self.old p
            → (q : Past) × Stands script.now self.new q × (after_event script.now p event end.now ≡ count q) }
        ensures attempt { self.new.attempt ≤ self.old.attempt + 1 }
        ensures events { self.new.events ≡ self.old.events }
    {
        match end {
            EventEnd::Refused(_) => {}
            _ => {
                self.open(script, event);
                self.finish(script, event, end);
            }
        }
    }

    /// Ends the operations that ended in an event.
    fn finish(&mut self, script: &Script, event: Event, end: &EventEnd)
        ensures stands { (p : Past) → Stands script.now self.old p
            → Stands script.now self.new (end_ops p (told event end.now)) }
        ensures attempt { self.new.attempt ≡ self.old.attempt }
        ensures events { self.new.events ≡ self.old.events }
    {
        match end {
            EventEnd::Ended(end) => self.end_of(script, named(event), end),
            EventEnd::Mixed(ends) => self.end_all(script, ends.as_slice()),
            _ => {}
        }
    }

    fn end_all(&mut self, script: &Script, ends: &[ActorEnd])
        ensures stands { (p : Past) → Stands script.now self.old p → Stands script.now self.new (end_ops p ends.now) }
        ensures attempt { self.new.attempt ≡ self.old.attempt }
        ensures events { self.new.events ≡ self.old.events }
    {
        for actor_end in ends {
            self.end(script, actor_end);
        }
    }

    fn end_of(&mut self, script: &Script, actor: Actor, end: &OpEnd)
        ensures stands { (p : Past) → Stands script.now self.old p
            → Stands script.now self.new (end_op p (record { actor = actor; end = end.now })) }
        ensures attempt { self.new.attempt ≡ self.old.attempt }
        ensures events { self.new.events ≡ self.old.events }
    {
        let standing = standing_of(&self.actors, script, actor);
        put_standing(&mut self.actors, script, actor, after_end(end, standing));
        report(&mut self.reports, actor, standing.state.stage, end);
        self.setup = decided(actor, standing.began(Op::Setup), end, self.setup);
        self.commit = decided(actor, standing.began(Op::Commit), end, self.commit);
    }

    fn begin(&mut self, script: &Script, actor: Actor, op: Op)
        requires { is_known script.now.attempts actor ≡ true }
        ensures stands { (p : Past) → Stands script.now self.old p
            → Stands script.now self.new (begin script.now p actor op) }
        ensures attempt { self.new.attempt ≡ self.old.attempt }
        ensures events { self.new.events ≡ self.old.events }
    {
        let standing = standing_of(&self.actors, script, actor);
        put_standing(&mut self.actors, script, actor, begun(actor, op, standing));
        self.setup = setup_begun(actor, op, self.setup);
        self.commit = commit_begun(actor, op, self.commit);
    }

    fn kill(&mut self, script: &Script, actor: Actor)
        requires { is_known script.now.attempts actor ≡ true }
        ensures stands { (p : Past) → Stands script.now self.old p → Stands script.now self.new (kill p actor) }
        ensures attempt { self.new.attempt ≡ self.old.attempt }
        ensures events { self.new.events ≡ self.old.events }
    {
        let standing = standing_of(&self.actors, script, actor);
        put_standing(&mut self.actors, script, actor, killed(standing));
    }

    fn restart(&mut self, script: &Script)
        requires { self.old.attempt < 2 ^ 32 - 1 }
        ensures stands { (p : Past) → Stands script.now self.old p → Stands script.now self.new (restart p) }
        ensures attempt { self.new.attempt ≡ self.old.attempt + 1 }
        ensures events { self.new.events ≡ self.old.events }
    {
        let standing = standing_of(&self.actors, script, Actor::Driver);
        put_standing(&mut self.actors, script, Actor::Driver, renewed(standing));
        unreport(&mut self.actors);
        self.attempt += 1;
        self.reports.forget();
    }
}
