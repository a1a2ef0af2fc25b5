ghost use Rattle.std.specs.Prelude.{◌≡◌, ◌+◌, ◌<◌, ◌≤◌, ◌^◌, length, slice_get, Some, IfOk, IsSome, OnOk, OnErr};
ghost use Rattle.s3_types.specs.declared.limits.TheConstants.{MOST_MINIMUM};
ghost use Rattle.job_run.specs.Events.{Next};
ghost use Rattle.twin_jobs.specs.Order.{others_in};
ghost use Rattle.twin_jobs.specs.Pairs.{side_in};
ghost use Rattle.twin_jobs.specs.inner.Pairs.{Rests, IsFresh, IsPaired, IsTurnedTo, IsPlayed, IsUnplayed};

use crate::order::others_of;
use job_actor::Works;
use job_model::{Event, Script};
use job_run::{Body, JobRun, Shared};
use s3_types::let_go;
use std::alloc::{AllocError, Global};
use std::mem;
use twin_script::Side;

/// Two sides and what they share: the side whose event is played is in `body`, the other one in
/// `other`. `moving` names the first, and `sides` has the side of each event.
#[derive(Drop)]
pub struct Pair<W> {
    pub body: Body<W>,
    pub other: JobRun<W>,
    pub moving: Side,
    pub sides: Vec<Side>,
}

/// A side of which nothing has happened, and whose events are its own in the order. `minimum` is
/// the store's least size of a part, in bytes.
fn fresh_side<W: Works>(
    alloc: Global,
    script: Script,
    sides: &[Side],
    side: Side,
    minimum: u64,
) -> Result<JobRun<W>, AllocError>
    requires some { 1 ≤ minimum }
    requires most { minimum ≤ MOST_MINIMUM }
    requires few { length sides.now + 1 < 2 ^ 32 }
    ensures { IfOk result (IsFresh script minimum (others_in side 1 sides.now)) }
{
    let others = others_of(alloc, sides, side)?;
    let fresh = JobRun::new(alloc, script, others, true, minimum)?;
    Ok(fresh)
}

/// Two sides of which nothing has happened, with what they share.
pub fn paired<W: Works>(
    alloc: Global,
    shared: Shared,
    sides: Vec<Side>,
    first: Script,
    second: Script,
) -> Result<Pair<W>, AllocError>
    requires few { length sides.items + 1 < 2 ^ 32 }
    ensures { IfOk result (IsPaired first second shared sides.items) }
{
    let minimum = shared.opening.minimum();
    let names = sides.as_slice();
    let Ok(side) = fresh_side(alloc, first, names, Side::First, minimum) else {
        let_go(second);
        let_go(sides);
        let_go(shared);
        return Err(AllocError);
    };
    let Ok(other) = fresh_side(alloc, second, names, Side::Second, minimum) else {
        let_go(side);
        let_go(sides);
        let_go(shared);
        return Err(AllocError);
    };
    let body = Body { side, shared };
    let moving = Side::First;
    Ok(Pair {
        body,
        other,
        moving,
        sides,
    })
}

impl<W: Works> Pair<W> {
    /// Moves this side into `body`.
    pub fn turn_to(&mut self, side: Side)
        ensures { IsTurnedTo side self.old self.new }
    {
        if self.moving != side {
            mem::swap(&mut self.body.side, &mut self.other);
            self.moving = side;
        }
    }

    /// The side with this name.
    pub fn side(&self, side: Side) -> &JobRun<W>
        ensures { result.now ≡ side_in side self.now }
    {
        if self.moving == side {
            &self.body.side
        } else {
            &self.other
        }
    }

    /// The side whose event is next, or None after the last event of the order.
    pub fn next(&self) -> Option<Side>
        ensures { result ≡ slice_get self.now.sides.items self.now.body.shared.events }
    {
        let played = self.body.shared.events as usize;
        self.sides.as_slice().get(played).copied()
    }

    /// The next event of the script of the side in `body`.
    fn next_event(&self) -> Event
        requires { IsSome (slice_get self.now.body.side.script.events (length self.now.body.side.ends.items)) }
        ensures { Next self.now.body result }
    {
        match self
            .body
            .side
            .script
            .events
            .as_slice()
            .get(self.body.side.ends.len())
        {
            Some(event) => *event,
            None => unreachable!(),
        }
    }

    /// Plays the next event of a side's script, which is the order's next. Fails with AllocError if
    /// memory runs out before it; then nothing has happened.
    pub fn play(&mut self, side: Side) -> Result<(), AllocError>
        requires rests { Rests W.wants W.is_of W.running W.picks_of self.old }
        requires turn { slice_get self.old.sides.items self.old.body.shared.events ≡ Some side }
        ensures rests { Rests W.wants W.is_of W.running W.picks_of self.new }
        ensures ok { OnOk result (IsPlayed side self.old self.new) }
        ensures err { OnErr result (IsUnplayed side self.old self.new) }
    {
        W::laws();
        self.turn_to(side);
        let event = self.next_event();
        self.body.event(event)
    }
}
