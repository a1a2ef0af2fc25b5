ghost use Rattle.std.specs.Prelude.{◌≡◌, length, slice_get, Some, IfOk, OnOk, OnErr, IsErr, true};
ghost use Rattle.s3_types.specs.Moment.{moment};
ghost use Rattle.job_model.specs.Attempts.{is_known};
ghost use Rattle.job_spec.specs.States.{past, verdict};
ghost use Rattle.job_spec.specs.Promise.{Finished};
ghost use Rattle.job_world.specs.Worlds.{MayBegin, begun, Keeps, WentOn, FoundNone};

use crate::played::{Played, left_by};
use job_actor::Works;
use job_model::{ActorState, Event, EventEnd, PickList, Script};
use job_run::{Body, picks_in};
use s3_service::Service;
use s3_types::{Actor, Journal};
use std::alloc::{AllocError, Global};
use std::marker::Model;

/// The driver and the attempts of one job over one store, moved by the events of a script. Callers
/// see the script, the store's content as the run began, the journal, the picks of the job's
/// commit, the ends of the events so far, and whether an event ran out of memory. After each call
/// all that is promised of the job holds (`Keeps`).
#[derive(Drop)]
pub struct World<W: Works> {
    body: Body<W>,
    stuck: bool,
}

impl<W: Works> Model for World<W> {
    ghost use Rattle.std.specs.Coded.{codes};
    ghost use Rattle.s3_types.specs.Coded.{coded_content};
    ghost use Rattle.job_model.specs.Codes.{coded_script};
    ghost use Rattle.job_world.specs.inner.Alone.{Rests};
    ghost use Rattle.job_world.specs.Worlds.{Run, run_of};

    ghost Value = { Run };

    ghost coded = { Prim.hlevel (codes, coded_content, coded_script) };

    ghost view = { λ w. run_of W.picks_of w.body w.stuck };

    ghost invariant = { λ w. Rests W.wants W.is_of W.running W.picks_of w.body };
}

impl<W: Works> World<W> {
    /// A world in which no event has happened yet. It copies the store's content, so that the
    /// opening stays known; the copies share bytes. Fails with AllocError only if memory runs out.
    pub fn new(alloc: Global, script: Script, service: Service) -> Result<World<W>, AllocError>
        requires store { MayBegin service }
        ensures { IfOk result (λ world. world ≡ begun script service) }
    {
        let body = Body::new(alloc, script, service)?;
        Ok(World { body, stuck: false })
    }

    /// Plays the script's next event and adds its end. It takes its own memory before anything
    /// happens. If there is none, it fails with AllocError, nothing has happened, and each later
    /// call fails too. An actor that runs out of memory during the event dies; its operation ends
    /// with that, and the call succeeds.
    pub fn event(&mut self, event: &Event) -> Result<(), AllocError>
        requires next { slice_get self.old.script.events (length self.old.ends) ≡ Some event.now }
        ensures keeps { Keeps self.new }
        ensures ok { OnOk result (WentOn self.old self.new) }
        ensures err { OnErr result (FoundNone self.old self.new) }
        ensures stuck { self.old.stuck ≡ true → IsErr result }
    {
        W::laws();
        if self.stuck {
            return Err(AllocError);
        }
        match self.body.event(*event) {
            Ok(()) => Ok(()),
            Err(error) => {
                self.stuck = true;
                Err(error)
            }
        }
    }

    /// The script. Takes no memory.
    pub fn script(&self) -> &Script
        ensures { result.now ≡ self.now.script }
    {
        &self.body.side.script
    }

    /// The script's next event, or None if each event has its end. Takes no memory.
    pub fn next(&self) -> Option<Event>
        ensures { result ≡ slice_get self.now.script.events (length self.now.ends) }
    {
        self.body
            .side
            .script
            .events
            .as_slice()
            .get(self.body.side.ends.len())
            .copied()
    }

    /// Proves that every world keeps what is promised of its job. Does nothing.
    pub fn keeps(&self)
        ensures { Keeps self.now }
    {
        W::laws();
        let _ = &self.body;
    }

    /// The state of an actor of the script, in O(1). Takes no memory.
    pub fn state(&self, actor: Actor) -> ActorState
        requires { is_known self.now.script.attempts actor ≡ true }
        ensures { result ≡ (past self.now.script self.now.ends).state actor }
    {
        self.body.side.states.state(&self.body.side.script, actor)
    }

    /// The status of the run by the ends so far: 0, 1, 8 or 9. Takes no memory.
    pub fn verdict(&self) -> u8
        ensures { result ≡ verdict self.now.script self.now.ends }
    {
        self.body.side.states.verdict()
    }

    /// The job attempt's number: one more than the restarts so far.
    pub fn job_attempt(&self) -> u32
        ensures { result ≡ (past self.now.script self.now.ends).attempt }
    {
        self.body.side.states.attempt()
    }

    /// The journal: every send so far, in order. Takes no memory.
    pub fn journal(&self) -> &Journal
        ensures { result.now.entries ≡ self.now.journal }
    {
        &self.body.shared.journal
    }

    /// The attempts whose sets the job's commit has read, by task. Takes no memory.
    pub fn picks(&self) -> &PickList
        ensures { result.now ≡ self.now.picks }
    {
        picks_in(&self.body.side.hands[0], &self.body.side.picks)
    }

    /// The ends of the events so far. Takes no memory.
    pub fn ends(&self) -> &[EventEnd]
        ensures { result.now ≡ self.now.ends }
    {
        self.body.side.ends.as_slice()
    }

    /// The store as the requests so far have left it. Takes no memory.
    pub fn service(&self) -> &Service
        ensures { result.now ≡ (moment self.now.opening self.now.journal (length self.now.journal)).content }
    {
        self.body.shared.store.service()
    }

    /// Takes the world apart into what its run leaves. Takes no memory.
    pub fn finish(self) -> Played
        ensures script { result.script ≡ self.script }
        ensures service { result.service ≡ (moment self.opening self.journal (length self.journal)).content }
        ensures journal { result.journal.entries ≡ self.journal }
        ensures picks { result.picks ≡ self.picks }
        ensures ends { result.ends ≡ self.ends }
        ensures keeps { Keeps self }
        ensures finished { length self.ends ≡ length self.script.events
            → Finished self.script self.opening self.journal self.picks self.ends }
    {
        W::laws();
        let World { body, stuck: _ } = self;
        left_by(body)
    }
}
