ghost use Rattle.std.specs.Prelude.{◌≡◌, ◌+◌, ◌<◌, ◌^◌, [], ◌∷◌, ◌++◌, drop, reverse, ◌&&◌, nat_eq, nat_lt, IfOk, OnOk};
ghost use Rattle.std.specs.List.{list_any};
ghost use Rattle.job_protocol.specs.Lanes.{fresh_turn, again, first_turns, dealt, is_tried};
ghost use Rattle.commit_lanes.specs.Tables.{first_of, listed, next_turn};

use std::alloc::{AllocError, Global};
use std::collections::VecDeque;
use std::marker::Model;

/// The state of one lane: the number of its lowest upload that is not answered, how many sends of
/// its completion got no answer, and whether one of these was lost.
#[derive(Clone, Copy)]
pub struct LaneTurn {
    number: usize,
    missed: u32,
    lost: bool,
}

impl Model for LaneTurn {
    ghost use Rattle.job_protocol.specs.Lanes.{Turn};

    ghost Value = { Turn };

    ghost view = { λ t. record { number = t.number; missed = t.missed; lost = t.lost } };

    ghost inverse = { λ t. record { number = t.number; missed = t.missed; lost = t.lost } };
}

impl LaneTurn {
    /// Returns the turn of an upload whose completion was never sent.
    pub fn fresh(number: usize) -> LaneTurn
        ensures { result ≡ fresh_turn number }
    {
        LaneTurn {
            number,
            missed: 0,
            lost: false,
        }
    }

    /// Returns the turn of the same upload after one more send without an answer.
    pub fn again(self, lost: bool) -> LaneTurn
        requires { self.missed + 1 < 2 ^ 32 }
        ensures { result ≡ again self lost }
    {
        LaneTurn {
            number: self.number,
            missed: self.missed + 1,
            lost: self.lost || lost,
        }
    }

    /// Returns the number of the upload in turn.
    pub fn number(self) -> usize
        ensures { result ≡ self.number }
    {
        self.number
    }

    /// Returns how many sends of the upload's completion got no answer.
    pub fn missed(self) -> u32
        ensures { result ≡ self.missed }
    {
        self.missed
    }

    /// Returns whether one of these sends was lost, not merely slow.
    pub fn lost(self) -> bool
        ensures { result ≡ self.lost }
    {
        self.lost
    }
}

/// Returns the first turn of the next upload in the lane of upload `number`, if there is one.
pub fn next_turn(lanes: u32, total: usize, number: usize) -> Option<LaneTurn>
    ensures { result ≡ next_turn lanes total number }
{
    let lanes = lanes as usize;
    if lanes < total.saturating_sub(number) {
        Some(LaneTurn::fresh(number + lanes))
    } else {
        None
    }
}

/// The lanes that still have uploads to complete, in the order of their turns, and the numbers of
/// the completed uploads, in the order of their completion.
#[derive(Drop)]
pub struct Lanes {
    turns: VecDeque<LaneTurn>,
    finished: Vec<usize>,
}

impl Model for Lanes {
    ghost use Rattle.std.specs.Prelude.{reverse};
    ghost use Rattle.commit_lanes.specs.Tables.{LaneTable};

    ghost Value = { LaneTable };

    ghost view = { λ l. record { turns = l.turns.items; finished = reverse l.finished.items } };
}

/// Returns the first turns of `count` lanes.
fn first_turns(alloc: Global, count: usize) -> Result<VecDeque<LaneTurn>, AllocError>
    ensures { IfOk result (λ turns. turns.items ≡ first_turns count) }
{
    let mut turns = VecDeque::new(alloc);
    for n in 0..count {
        turns.push_back(LaneTurn::fresh(n))?;
    }
    Ok(turns)
}

impl Lanes {
    /// Deals `total` uploads to `lanes` lanes.
    pub fn dealt(alloc: Global, lanes: u32, total: usize) -> Result<Lanes, AllocError>
        ensures { IfOk result (λ l. l ≡ record { turns = dealt lanes total; finished = [] }) }
    {
        let turns = first_turns(alloc, total.min(lanes as usize))?;
        Ok(Lanes {
            turns,
            finished: Vec::new(alloc),
        })
    }

    /// Returns the turn that is next. Takes no memory.
    pub fn first(&self) -> Option<LaneTurn>
        ensures { result ≡ first_of self.now.turns }
    {
        match self.turns.front() {
            Some(turn) => Some(*turn),
            None => None,
        }
    }

    /// Moves the lane in turn to the end of the queue with turn `next`, or removes it if `next` is
    /// None.
    pub fn go_on(&mut self, next: Option<LaneTurn>) -> Result<(), AllocError>
        ensures { OnOk result (self.new ≡ record {
          turns = drop 1 self.old.turns ++ listed next;
          finished = self.old.finished;
        }) }
    {
        self.turns.pop_front();
        if let Some(turn) = next {
            self.turns.push_back(turn)?;
        }
        Ok(())
    }

    /// Notes that the completion of an upload was answered.
    pub fn finish(&mut self, number: usize) -> Result<(), AllocError>
        ensures { OnOk result (self.new ≡ record { turns = self.old.turns; finished = number ∷ self.old.finished }) }
    {
        self.finished.push(number)?;
        Ok(())
    }

    fn some_tried(&self, number: usize) -> bool
        ensures { result ≡ list_any (λ turn. nat_eq number turn.number && nat_lt 0 turn.missed) self.now.turns }
    {
        self.turns
            .iter()
            .any(|turn| number == turn.number && 0 < turn.missed)
    }

    /// Returns whether an upload is in turn and its completion was sent. Takes no memory.
    pub fn is_tried(&self, number: usize) -> bool
        ensures { result ≡ is_tried self.now.turns number }
    {
        self.some_tried(number)
    }

    /// Returns the numbers of the completed uploads, in the order of their completion. Takes no
    /// memory.
    pub fn finished(&self) -> &[usize]
        ensures { reverse result.now ≡ self.now.finished }
    {
        self.finished.as_slice()
    }
}
