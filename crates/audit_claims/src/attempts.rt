ghost use Rattle.std.specs.Prelude.{◌≡◌, ◌↔◌, [], ◌∷◌, ◌++◌, length, is_some, nat_eq, IsTrue, OnOk, OnErr, false};
ghost use Rattle.std.specs.Map.{lookup};
ghost use Rattle.soundness.specs.Claims.{file_at};
ghost use Rattle.judging.specs.Listed.{last_files, with_last};

use crate::etags::Etags;
use crate::files::TagFiles;
use indexmap::IndexMap;
use s3_types::Text;
use std::alloc::{AllocError, Global};
use std::marker::Model;

/// The attempts of one task by their numbers, in the order of the trace, each with its files.
#[derive(Drop)]
pub struct Attempts {
    attempts: IndexMap<u32, TagFiles>,
}

impl Model for Attempts {
    ghost use Rattle.std.specs.Prelude.{ℕ, List};

    ghost Value = { List (ℕ × List (List ℕ × List (List ℕ))) };

    ghost view = { λ a. a.attempts.entries };
}

impl Attempts {
    /// Returns an empty list of attempts. Takes no memory.
    pub fn new(alloc: Global) -> Attempts
        ensures empty { result ≡ [] }
    {
        Attempts {
            attempts: IndexMap::new(alloc),
        }
    }

    /// Returns whether there is no attempt.
    pub fn is_empty(&self) -> bool
        ensures none { IsTrue result ↔ (length self.now ≡ 0) }
    {
        self.attempts.is_empty()
    }

    /// Returns whether there is an attempt with this number.
    pub fn has(&self, attempt: u32) -> bool
        ensures found { result ≡ is_some (lookup (nat_eq attempt) self.now) }
    {
        self.attempts.contains_key(&attempt)
    }

    /// Adds an attempt with another number after the others, with no file yet. Fails only if memory
    /// runs out; the attempts are then unchanged.
    pub fn add(&mut self, alloc: Global, attempt: u32) -> Result<(), AllocError>
        requires other { is_some (lookup (nat_eq attempt) self.old) ≡ false }
        ensures ok { OnOk result (self.new ≡ self.old ++ (attempt, []) ∷ []) }
        ensures err { OnErr result (self.new ≡ self.old) }
    {
        match self.attempts.insert(attempt, TagFiles::new(alloc)) {
            Ok(_) => Ok(()),
            Err(_) => Err(AllocError),
        }
    }

    /// Returns whether the last attempt has a file at this path.
    pub fn last_has(&self, path: &Text) -> bool
        ensures found { result ≡ is_some (file_at (last_files self.now) path.now) }
    {
        match self.attempts.last() {
            Some((_, files)) => files.has(path),
            None => false,
        }
    }

    /// Adds a file to the last attempt, or does nothing if there is no attempt. Fails only if
    /// memory runs out; the attempts are then unchanged.
    pub fn add_file(&mut self, path: Text, etags: Etags) -> Result<(), AllocError>
        requires other { is_some (file_at (last_files self.old) path) ≡ false }
        ensures ok { OnOk result (self.new ≡ with_last path etags self.old) }
        ensures err { OnErr result (self.new ≡ self.old) }
    {
        let Some(files) = self.attempts.last_mut() else {
            return Ok(());
        };
        files.add(path, etags)
    }

    /// Returns the attempts' numbers and files, in the order of the trace.
    pub fn held(&self) -> &IndexMap<u32, TagFiles>
        ensures entries { result.now.entries ≡ self.now }
    {
        &self.attempts
    }
}
