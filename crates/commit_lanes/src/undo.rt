ghost use Rattle.std.specs.Prelude.{◌≡◌, [], ◌∷◌, drop, OnOk};
ghost use Rattle.commit_lanes.specs.Tables.{first_of};

use std::alloc::{AllocError, Global};
use std::marker::Model;

/// A request of a revert, by the number of its upload.
#[derive(Clone, Copy)]
pub enum Undo {
    /// Aborts the upload.
    Abort(usize),
    /// Deletes the upload's key.
    Delete(usize),
}

/// The requests of a revert, the next one first.
#[derive(Drop)]
pub struct UndoList {
    held: Vec<Undo>,
}

impl Model for UndoList {
    ghost use Rattle.std.specs.Prelude.{List, reverse};
    ghost use Rattle.commit_lanes.specs.declared.undo.Undo.{Undo};

    ghost Value = { List Undo };

    ghost view = { λ u. reverse u.held.items };
}

impl UndoList {
    /// Returns an empty list. Takes no memory.
    pub fn new(alloc: Global) -> UndoList
        ensures { result ≡ [] }
    {
        UndoList {
            held: Vec::new(alloc),
        }
    }

    /// Adds a request in front of the others.
    pub fn add(&mut self, undo: Undo) -> Result<(), AllocError>
        ensures { OnOk result (self.new ≡ undo ∷ self.old) }
    {
        self.held.push(undo)?;
        Ok(())
    }

    /// Returns the next request. Takes no memory.
    pub fn first(&self) -> Option<Undo>
        ensures { result ≡ first_of self.now }
    {
        match self.held.as_slice().last() {
            Some(undo) => Some(*undo),
            None => None,
        }
    }

    /// Drops the next request, if there is one. Takes no memory.
    pub fn drop_first(&mut self)
        ensures { self.new ≡ drop 1 self.old }
    {
        self.held.pop();
    }
}
