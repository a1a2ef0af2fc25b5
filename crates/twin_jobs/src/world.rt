ghost use Rattle.std.specs.Prelude.{◌≡◌, ◌≤◌, ◌^◌, length, slice_get, true, IfOk, OnErr, IsErr};
ghost use Rattle.s3_types.specs.Moment.{moment};
ghost use Rattle.job_spec.specs.States.{verdict};
ghost use Rattle.twin_jobs.specs.Worlds.{job_of, played, begun, Keeps, Turned, FoundNone};
ghost use Rattle.twin_jobs.specs.Played.{told_of};

use crate::order::sides_of;
use crate::pair::{Pair, paired};
use crate::played::{TwinPlayed, left_by};
use job_actor::Works;
use job_model::PickList;
use job_run::{Shared, picks_in};
use s3_service::Service;
use s3_types::{Journal, let_go};
use std::alloc::{AllocError, Global};
use std::marker::Model;
use twin_script::{Side, Twins};

/// Two jobs over one store, moved by an order of the events of both scripts. Callers see both
/// scripts, the order, the store's content as the run began, the journal, the picks and the ends so
/// far of each job, and whether an event ran out of memory. After each call all that is promised of
/// both jobs holds (`Keeps`).
#[derive(Drop)]
pub struct TwinWorld<W: Works> {
    pair: Pair<W>,
    stuck: bool,
}

impl<W: Works> Model for TwinWorld<W> {
    ghost use Rattle.std.specs.Coded.{codes};
    ghost use Rattle.s3_types.specs.Coded.{coded_content};
    ghost use Rattle.job_model.specs.Codes.{coded_script};
    ghost use Rattle.twin_script.specs.declared.turns.Side.TheVariants.{First, Second};
    ghost use Rattle.twin_jobs.specs.inner.Pairs.{Rests};
    ghost use Rattle.twin_jobs.specs.Pairs.{run_of, side_in};
    ghost use Rattle.twin_jobs.specs.Worlds.{Run};

    ghost Value = { Run };

    ghost coded = { Prim.hlevel (codes, coded_content, coded_script) };

    ghost view = { λ w. run_of W.picks_of w.pair.sides.items (side_in First w.pair) (side_in Second w.pair) w.pair.body.shared w.stuck };

    ghost invariant = { λ w. Rests W.wants W.is_of W.running W.picks_of w.pair };
}

impl<W: Works> TwinWorld<W> {
    /// A world in which no event has happened yet. It copies the store's content, so that the
    /// opening stays known; the copies share bytes. Fails with AllocError only if memory runs out.
    pub fn new(alloc: Global, twins: Twins, service: Service) -> Result<TwinWorld<W>, AllocError>
        requires few { service.next ≤ 2 ^ 62 }
        ensures { IfOk result (λ world. world ≡ begun twins service) }
    {
        twins.keeps();
        service.next_upload();
        let Ok(sides) = sides_of(alloc, twins.order.as_slice()) else {
            let_go(twins);
            let_go(service);
            return Err(AllocError);
        };
        let Ok(shared) = Shared::new(alloc, &twins.first, service) else {
            let_go(twins);
            let_go(sides);
            return Err(AllocError);
        };
        let Twins {
            first,
            second,
            order,
        } = twins;
        let_go(order);
        let pair = paired(alloc, shared, sides, first, second)?;
        Ok(TwinWorld { pair, stuck: false })
    }

    /// The side whose event is next, or None after the last event of the order. Takes no memory.
    pub fn next(&self) -> Option<Side>
        ensures { result ≡ slice_get self.now.sides (played self.now) }
    {
        self.pair.next()
    }

    /// Plays the order's next event, adds its end to those of its side, and returns that side.
    /// Returns None exactly if the order has no more events. It takes its own memory before
    /// anything happens. If there is none, it fails with AllocError, nothing has happened, and each
    /// later call fails too.
    pub fn turn(&mut self) -> Result<Option<Side>, AllocError>
        ensures keeps { Keeps self.new }
        ensures ok { IfOk result (Turned self.old self.new) }
        ensures err { OnErr result (FoundNone self.old self.new) }
        ensures stuck { self.old.stuck ≡ true → IsErr result }
    {
        W::laws();
        twin_safety::shared();
        if self.stuck {
            return Err(AllocError);
        }
        let Some(side) = self.next() else {
            return Ok(None);
        };
        match self.pair.play(side) {
            Ok(()) => Ok(Some(side)),
            Err(error) => {
                self.stuck = true;
                Err(error)
            }
        }
    }

    /// The journal: every send so far, in order. Takes no memory.
    pub fn journal(&self) -> &Journal
        ensures { result.now.entries ≡ self.now.journal }
    {
        &self.pair.body.shared.journal
    }

    /// The attempts whose sets the commit of this side's job has read, by task. Takes no memory.
    pub fn picks(&self, side: Side) -> &PickList
        ensures { result.now ≡ (job_of self.now side).picks }
    {
        let side = self.pair.side(side);
        picks_in(&side.hands[0], &side.picks)
    }

    /// The status of this side's job by its ends so far: 0, 1, 8 or 9. Takes no memory.
    pub fn verdict(&self, side: Side) -> u8
        ensures { result ≡ verdict (job_of self.now side).script (job_of self.now side).ends }
    {
        self.pair.side(side).states.verdict()
    }

    /// The store as the requests so far have left it. Takes no memory.
    pub fn service(&self) -> &Service
        ensures { result.now ≡ (moment self.now.opening self.now.journal (length self.now.journal)).content }
    {
        self.pair.body.shared.store.service()
    }

    /// Takes the world apart into what its run leaves. Takes no memory.
    pub fn finish(self) -> TwinPlayed
        ensures service { result.service ≡ (moment self.opening self.journal (length self.journal)).content }
        ensures journal { result.journal.entries ≡ self.journal }
        ensures first { told_of result.first ≡ self.first }
        ensures second { told_of result.second ≡ self.second }
        ensures sides { result.sides ≡ self.sides }
        ensures keeps { Keeps self }
    {
        W::laws();
        twin_safety::shared();
        let TwinWorld { pair, stuck: _ } = self;
        left_by(pair)
    }
}
