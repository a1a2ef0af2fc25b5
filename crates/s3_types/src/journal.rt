ghost use Rattle.std.specs.Prelude.{◌≡◌, ◌+◌, ◌<◌, ◌^◌, [], ◌∷◌, ◌++◌, length, OnOk};

use crate::reply::Reply;
use crate::request::{Actor, Request};
use std::alloc::{AllocError, Global};
use std::marker::Model;

/// What happened to a send. Its actor cannot tell the last two apart.
#[derive(Drop)]
pub enum Outcome {
    Answered(Reply),
    /// It was answered SlowDown, and had no effect.
    Slow,
    /// It was lost on the way to the store, and had no effect.
    RequestLost,
    /// It took effect, but the reply was lost.
    ReplyLost,
}

/// One send of a request by an actor, in an event of a run. The entries of a shell command have
/// event 0.
#[derive(Drop)]
pub struct Entry {
    pub event: u32,
    pub actor: Actor,
    pub request: Request,
    pub outcome: Outcome,
}

/// More entries than a 64-bit machine can address.
const TOO_MANY: usize = 1 << 62;

/// The sends of a run in order, fewer than 2^62.
#[derive(Drop)]
pub struct Journal {
    entries: Vec<Entry>,
}

impl Model for Journal {
    ghost use Rattle.std.specs.Prelude.{ℕ, List, ◌-◌, ◌<◌, ◌^◌, vec_len, vec_capacity};
    ghost use Rattle.s3_types.specs.Ledger.{Ledger};

    ghost Value = { Ledger };

    ghost view = { λ j. record { entries = j.entries.items; room = vec_capacity j.entries - vec_len j.entries } };

    ghost invariant = { λ j. vec_len j.entries < 2 ^ 62 };
}

impl Journal {
    /// No entries. Takes no memory.
    pub fn new(alloc: Global) -> Journal
        ensures { result.entries ≡ [] }
    {
        Journal {
            entries: Vec::new(alloc),
        }
    }

    /// Makes room for one more entry. The entries stay as they are. Fails if memory runs out, or
    /// if there would be 2^62 entries.
    pub fn reserve(&mut self) -> Result<(), AllocError>
        ensures entries { self.new.entries ≡ self.old.entries }
        ensures room { OnOk result (0 < self.new.room) }
        ensures few { OnOk result (length self.new.entries + 1 < 2 ^ 62) }
    {
        if self.entries.len() >= TOO_MANY - 1 {
            return Err(AllocError);
        }
        self.entries.reserve(1)
    }

    /// Adds an entry, for which there is room. Takes no memory.
    pub fn push(&mut self, entry: Entry)
        requires room { 0 < self.old.room }
        requires few { length self.old.entries + 1 < 2 ^ 62 }
        ensures { self.new.entries ≡ self.old.entries ++ entry ∷ [] }
    {
        self.entries.push_reserved(entry);
    }

    /// Returns the entries in the order in which they were sent.
    pub fn as_slice(&self) -> &[Entry]
        ensures entries { result.now ≡ self.now.entries }
        ensures few { length result.now < 2 ^ 62 }
    {
        self.entries.as_slice()
    }

    /// Returns the number of entries.
    pub fn len(&self) -> usize
        ensures len { result ≡ length self.now.entries }
        ensures few { result < 2 ^ 62 }
    {
        self.entries.len()
    }
}
