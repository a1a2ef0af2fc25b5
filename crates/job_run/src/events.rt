ghost use Rattle.std.specs.Prelude.{◌≡◌, ◌≢◌, ◌⊎◌, ◌+◌, ◌<◌, ◌≤◌, ◌-◌, ◌^◌, [], ◌∷◌, ◌++◌, length, slice_get, Option, Some, None, IfOk, OnOk, OnErr, IsSome, true, vec_len, vec_capacity};
ghost use Rattle.s3_types.specs.declared.request.Actor.{Actor};
ghost use Rattle.s3_types.specs.declared.request.Actor.TheVariants.{Driver};
ghost use Rattle.job_model.specs.Known.{Known};
ghost use Rattle.job_model.specs.Attempts.{is_known};
ghost use Rattle.job_model.specs.Legal.{IsEvent, HasOp, IsLegal};
ghost use Rattle.commit_lanes.specs.Fitting.{least_missing};
ghost use Rattle.job_protocol.specs.Operations.{Setting, start_of};
ghost use Rattle.job_spec.specs.States.{Past, reports, told};
ghost use Rattle.job_safety.specs.RunsKeep.{KeptAmong};
ghost use Rattle.job_states.specs.Stands.{Stands, IsPlace};
ghost use Rattle.job_actor.specs.Plans.{IsPlanOf};
ghost use Rattle.job_run.specs.declared.hands.Hand.TheVariants.{Empty};
ghost use Rattle.job_run.specs.Sending.{Asks, hand_end};
ghost use Rattle.job_run.specs.Holds.{Holds, Going, Quiet, IsTurn, Same, seen_by, all_sound, setting_of, is_busy_at};
ghost use Rattle.job_run.specs.Beside.{RestsBeside};
ghost use Rattle.job_run.specs.Events.{Next, Grown, IsAsBefore, picks_in, knows_of};
ghost use Rattle.job_run.specs.inner.Events.{Refuses, IsFine, HasRoom, end_of, ByTurns, IsOpened, Emptied, GivesPlan, of_tasks, IsWork, Begun, InHand, TakenUp, EndsAtOnce, AllOf, BeginsBy, BeginsNone, HasBegun, HasEntered, AreBusy, IsStill, MayPlay, IsPast, event_entries};

use crate::body::Body;
use crate::hands::Hand;
use crate::picks::into_picks;
use job_actor::{Plan, Reported, Works};
use job_model::{ActorEnd, Event, EventEnd, EventFault, Op, PickList, TaskSet};
use job_plans::job_plan;
use job_states::{mix, place_of, run, step};
use s3_types::{Actor, Sequence, put};
use std::alloc::{AllocError, Global};
use std::mem;

/// The end of an event, made from the operations that ended in it.
fn taken_end(alloc: Global, finished: &mut Vec<ActorEnd>, event: Event) -> EventEnd
    requires { told event (end_of event finished.old.items) ≡ finished.old.items }
    ensures end { result ≡ end_of event finished.old.items }
    ensures none { finished.new.items ≡ [] }
{
    match event {
        Event::Mix { seed: _ } => {
            EventEnd::Mixed(Sequence::from_vec(mem::replace(finished, Vec::new(alloc))))
        }
        _ => match finished.pop() {
            Some(ended) => EventEnd::Ended(ended.end),
            None => EventEnd::Done,
        },
    }
}

/// The plan in a hand.
fn into_plan<W: Works>(hand: Hand<W>) -> Plan
    requires { hand ≢ Empty }
    ensures { (g : Setting) (a : Actor) (k : Known) → GivesPlan W.wants W.is_of W.running g a k (Some hand)
        → IsPlanOf g a k result }
{
    match hand {
        Hand::Plan(plan) => plan,
        Hand::At(work) => work.into_plan(),
        Hand::Empty => unreachable!(),
    }
}

impl<W: Works> Body<W> {
    /// The place of an actor of the job.
    fn place(&self, actor: Actor) -> usize
        requires { is_known self.now.side.script.attempts actor ≡ true }
        ensures { IsPlace self.now.side.script actor (Some result) }
    {
        match place_of(&self.side.script, actor) {
            Some(place) => place,
            None => unreachable!(),
        }
    }

    /// Refuses the script's next event: adds the refusal as its end, and changes nothing else.
    fn refuse(&mut self, event: Event, fault: EventFault)
        requires next { Next self.old event }
        requires refused { Refuses self.old event fault }
        requires turn { IsTurn self.old }
        requires room { HasRoom self.old }
        requires quiet { Quiet W.wants W.is_of W.running W.picks_of self.old }
        ensures { IsPast W.wants W.is_of W.running W.picks_of self.old self.new }
    {
        self.side.ends.push_reserved(EventEnd::Refused(fault));
        self.side.states.count();
        self.shared.events += 1;
    }

    /// Changes the states as the event requires before its first request, and makes it the event in
    /// progress.
    fn open(&mut self, event: Event)
        requires event { IsEvent self.old.side.script.attempts event }
        requires few { self.old.side.states.attempt < 2 ^ 32 - 1 }
        ensures { IsOpened event self.old self.new }
    {
        self.side.states.open(&self.side.script, event);
        self.side.event = Some(event);
    }

    /// Opens an event that begins no operation.
    fn enter(&mut self, event: Event)
        requires none { BeginsNone event }
        requires ready { MayPlay W.wants W.is_of W.running W.picks_of event self.old }
        ensures { HasEntered W.wants W.is_of W.running W.picks_of event self.old self.new }
    {
        self.open(event);
    }

    /// Ends the event in progress.
    fn close(&mut self, event: Event)
        requires now { self.old.side.event ≡ Some event }
        requires turns { ByTurns self.old event }
        requires room { vec_len self.old.side.ends < vec_capacity self.old.side.ends }
        requires going { Going W.wants W.is_of W.running W.picks_of self.old }
        ensures { IsPast W.wants W.is_of W.running W.picks_of self.old self.new }
    {
        W::laws();
        let end = taken_end(self.shared.alloc, &mut self.side.finished, event);
        self.side.ends.push_reserved(end);
        self.side.states.count();
        self.side.event = None;
        self.shared.events += 1;
    }

    /// Takes out the plan that an attempt goes by.
    fn take_plan(&mut self, place: usize, actor: Actor) -> Plan
        requires { GivesPlan W.wants W.is_of W.running (setting_of self.old) actor (knows_of self.old actor)
            (slice_get self.old.side.hands.items place) }
        ensures plan { IsPlanOf (setting_of self.old) actor (knows_of self.old actor) result }
        ensures emptied { Emptied place self.old self.new }
        ensures picks { self.new.side.picks ≡ self.old.side.picks }
    {
        into_plan(mem::replace(&mut self.side.hands[place], Hand::Empty))
    }

    /// Takes out what the driver has in hand, and puts by its picks.
    fn put_by(&mut self, place: usize)
        requires { place < length self.old.side.hands.items }
        ensures emptied { Emptied place self.old self.new }
        ensures picks { self.new.side.picks
            ≡ picks_in W.picks_of self.old.side.picks (slice_get self.old.side.hands.items place) }
    {
        let hand = mem::replace(&mut self.side.hands[place], Hand::Empty);
        let before = mem::replace(&mut self.side.picks, PickList::new(self.shared.alloc));
        put(&mut self.side.picks, into_picks(hand, before));
    }

    /// The driver's operation, from a new plan of the job.
    fn driver_work(&self, op: Op) -> Result<W, AllocError>
        requires legal { IsLegal self.now.side.script }
        requires op { HasOp Driver op }
        ensures { IfOk result (IsWork W.is_of W.running W.picks_of self.now Driver op) }
    {
        let told = self.told(op)?;
        let plan = job_plan(&self.side.script)?;
        W::begin(self.shared.alloc, Plan::Job(plan), Actor::Driver, op, told)
    }

    /// An attempt's operation, from its plan.
    fn attempt_work(&self, plan: Plan, actor: Actor, op: Op) -> Result<W, AllocError>
        requires legal { IsLegal self.now.side.script }
        requires attempt { actor ≡ Driver → ⊥ }
        requires op { HasOp actor op }
        requires plan { IsPlanOf (setting_of self.now) actor (knows_of self.now actor) plan }
        ensures { IfOk result (IsWork W.is_of W.running W.picks_of self.now actor op) }
    {
        let none = self.untold();
        W::begin(self.shared.alloc, plan, actor, op, none)
    }

    /// Ends an operation that has nothing to send. Its end is the operation's own, or NoMemory if
    /// memory runs out while a path in the end is shared. Returns whether the operation has more to
    /// send.
    fn goes_on(&mut self, place: usize, actor: Actor) -> bool
        requires { InHand W.wants W.is_of W.running W.picks_of place actor self.old }
        ensures going { Going W.wants W.is_of W.running W.picks_of self.new }
        ensures same { Same self.old self.new }
        ensures journal { self.new.shared.journal ≡ self.old.shared.journal }
        ensures taken { TakenUp place actor self.new result }
        ensures ended { EndsAtOnce (hand_end W.end_of (slice_get self.old.side.hands.items place)) actor self.new result }
    {
        match self.end_at(place) {
            Ok(None) => true,
            Ok(Some(end)) => {
                self.over(place, actor, end);
                false
            }
            Err(_) => {
                self.die(place, actor);
                false
            }
        }
    }

    /// Gives the actor at a place the operation that it began, or lets it die if memory ran out.
    /// Returns whether it has more to send: an operation that has nothing to send ends at once.
    fn take_up(&mut self, place: usize, actor: Actor, work: Result<W, AllocError>) -> bool
        requires { Begun W.wants W.is_of W.running W.picks_of place actor self.old work }
        ensures going { Going W.wants W.is_of W.running W.picks_of self.new }
        ensures same { Same self.old self.new }
        ensures journal { self.new.shared.journal ≡ self.old.shared.journal }
        ensures taken { TakenUp place actor self.new result }
    {
        match work {
            Ok(work) => {
                put(&mut self.side.hands[place], Hand::At(work));
                self.goes_on(place, actor)
            }
            Err(_) => {
                self.die(place, actor);
                false
            }
        }
    }

    /// The driver begins an operation, after its earlier picks were put by. Returns whether it has
    /// more to send.
    fn begin_driver(&mut self, event: Event, place: usize, op: Op) -> bool
        requires begins { BeginsBy event Driver op }
        requires actor { IsPlace self.old.side.script Driver (Some place) }
        requires ready { MayPlay W.wants W.is_of W.running W.picks_of event self.old }
        ensures { HasBegun W.wants W.is_of W.running W.picks_of event place Driver self.old self.new result }
    {
        W::laws();
        self.put_by(place);
        self.open(event);
        let work = self.driver_work(op);
        self.take_up(place, Actor::Driver, work)
    }

    /// An attempt begins an operation. Returns whether it has more to send.
    fn begin_attempt(&mut self, event: Event, place: usize, actor: Actor, op: Op) -> bool
        requires begins { BeginsBy event actor op }
        requires attempt { actor ≡ Driver → ⊥ }
        requires actor { IsPlace self.old.side.script actor (Some place) }
        requires ready { MayPlay W.wants W.is_of W.running W.picks_of event self.old }
        ensures { HasBegun W.wants W.is_of W.running W.picks_of event place actor self.old self.new result }
    {
        W::laws();
        let plan = self.take_plan(place, actor);
        self.open(event);
        let work = self.attempt_work(plan, actor, op);
        self.take_up(place, actor, work)
    }

    /// An actor begins an operation. Returns whether it has more to send.
    fn begin(&mut self, event: Event, place: usize, actor: Actor, op: Op) -> bool
        requires begins { BeginsBy event actor op }
        requires actor { IsPlace self.old.side.script actor (Some place) }
        requires ready { MayPlay W.wants W.is_of W.running W.picks_of event self.old }
        ensures { HasBegun W.wants W.is_of W.running W.picks_of event place actor self.old self.new result }
    {
        match actor {
            Actor::Driver => self.begin_driver(event, place, op),
            _ => self.begin_attempt(event, place, actor, op),
        }
    }

    /// Gives the actor at a place turns until its operation ends, if it has more to send.
    fn carry_on(&mut self, place: usize, actor: Actor, goes_on: bool)
        requires actor { IsPlace self.old.side.script actor (Some place) }
        requires taken { TakenUp place actor self.old goes_on }
        requires fresh { event_entries self.old ≡ [] }
        requires going { Going W.wants W.is_of W.running W.picks_of self.old }
        ensures going { Going W.wants W.is_of W.running W.picks_of self.new }
        ensures same { Same self.old self.new }
        ensures all { AllOf actor self.new }
    {
        if goes_on {
            run(self, place);
        }
    }

    /// An actor begins an operation and has turns until the operation ends.
    fn do_event(&mut self, event: Event, actor: Actor, op: Op)
        requires is { event ≡ Event.Do actor op }
        requires ready { MayPlay W.wants W.is_of W.running W.picks_of event self.old }
        ensures { IsPast W.wants W.is_of W.running W.picks_of self.old self.new }
    {
        let place = self.place(actor);
        let goes_on = self.begin(event, place, actor, op);
        self.carry_on(place, actor, goes_on);
        self.close(event);
    }

    /// An actor begins an operation and has no turn yet.
    fn start_event(&mut self, event: Event, actor: Actor, op: Op)
        requires is { event ≡ Event.Start actor op }
        requires ready { MayPlay W.wants W.is_of W.running W.picks_of event self.old }
        ensures { IsPast W.wants W.is_of W.running W.picks_of self.old self.new }
    {
        let place = self.place(actor);
        let _ = self.begin(event, place, actor, op);
        self.close(event);
    }

    /// A busy actor has turns until its operation ends.
    fn run_event(&mut self, event: Event, actor: Actor)
        requires is { event ≡ Event.Run actor }
        requires ready { MayPlay W.wants W.is_of W.running W.picks_of event self.old }
        ensures { IsPast W.wants W.is_of W.running W.picks_of self.old self.new }
    {
        let place = self.place(actor);
        self.enter(event);
        run(self, place);
        self.close(event);
    }

    /// A busy actor has at most `count` turns.
    fn step_event(&mut self, event: Event, actor: Actor, count: u32)
        requires is { event ≡ Event.Step actor count }
        requires ready { MayPlay W.wants W.is_of W.running W.picks_of event self.old }
        ensures { IsPast W.wants W.is_of W.running W.picks_of self.old self.new }
    {
        let place = self.place(actor);
        self.enter(event);
        let _ = step(self, place, count);
        self.close(event);
    }

    /// An event in which nobody sends: a kill, a restart or a recovery.
    fn still_event(&mut self, event: Event)
        requires still { IsStill event }
        requires ready { MayPlay W.wants W.is_of W.running W.picks_of event self.old }
        ensures { IsPast W.wants W.is_of W.running W.picks_of self.old self.new }
    {
        self.enter(event);
        self.close(event);
    }

    /// The busy actors, at the places `busy`, have turns as the seed chooses, until none is busy.
    fn mix_event(&mut self, event: Event, seed: u32, busy: Vec<usize>)
        requires is { event ≡ Event.Mix seed }
        requires busy { AreBusy self.old busy.items }
        requires ready { MayPlay W.wants W.is_of W.running W.picks_of event self.old }
        ensures { IsPast W.wants W.is_of W.running W.picks_of self.old self.new }
    {
        self.enter(event);
        mix(self, seed, busy);
        self.close(event);
    }

    /// Plays the script's next event, which is not refused.
    fn play(&mut self, event: Event) -> Result<(), AllocError>
        requires { MayPlay W.wants W.is_of W.running W.picks_of event self.old }
        ensures quiet { Quiet W.wants W.is_of W.running W.picks_of self.new }
        ensures grown { OnOk result (Grown self.old self.new) }
        ensures err { OnErr result (self.new ≡ self.old) }
    {
        match event {
            Event::Do { actor, op } => self.do_event(event, actor, op),
            Event::Start { actor, op } => self.start_event(event, actor, op),
            Event::Step { actor, count } => self.step_event(event, actor, count),
            Event::Run { actor } => self.run_event(event, actor),
            Event::Mix { seed } => {
                let busy = self.side.states.busy(self.shared.alloc)?;
                self.mix_event(event, seed, busy);
            }
            Event::Kill { actor: _ } | Event::Restart | Event::Recover { actor: _ } => {
                self.still_event(event);
            }
        }
        Ok(())
    }

    /// Makes room for the event's end, and for the ends of all actors' operations.
    fn make_room(&mut self) -> Result<(), AllocError>
        requires quiet { Quiet W.wants W.is_of W.running W.picks_of self.old }
        ensures quiet { Quiet W.wants W.is_of W.running W.picks_of self.new }
        ensures same { IsAsBefore self.old self.new }
        ensures room { OnOk result (HasRoom self.new) }
    {
        self.side.ends.reserve(1)?;
        self.side.finished.reserve(self.side.hands.len())
    }

    /// Proves what holds of a job between its events, whoever else sends between them. Does
    /// nothing.
    pub fn keeps(&self)
        requires { Quiet W.wants W.is_of W.running W.picks_of self.now }
        ensures { KeptAmong (setting_of self.now) self.now.shared.opening (seen_by self.now)
            (picks_in W.picks_of self.now.side.picks (slice_get self.now.side.hands.items 0)) self.now.side.ends.items }
    {
        W::laws();
    }

    /// Proves that a job keeps what it keeps while another job's event is played. Does nothing.
    pub fn beside()
        ensures { RestsBeside W.wants W.is_of W.running W.picks_of }
    {}

    /// Plays the script's next event, which may end as refused. It takes its own memory before
    /// anything happens. If there is none, it fails with AllocError, and only spare room has
    /// changed.
    pub fn event(&mut self, event: Event) -> Result<(), AllocError>
        requires next { Next self.old event }
        requires turn { IsTurn self.old }
        requires quiet { Quiet W.wants W.is_of W.running W.picks_of self.old }
        ensures quiet { Quiet W.wants W.is_of W.running W.picks_of self.new }
        ensures grown { OnOk result (Grown self.old self.new) }
        ensures err { OnErr result (IsAsBefore self.old self.new) }
    {
        self.make_room()?;
        match self.side.states.refusal(&self.side.script, event) {
            Some(fault) => {
                self.refuse(event, fault);
                Ok(())
            }
            None => self.play(event),
        }
    }
}
