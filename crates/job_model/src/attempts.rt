ghost use Rattle.std.specs.Prelude.{◌≡◌, [], ◌∷◌, ◌++◌, length, OnOk, OnErr, false};
ghost use Rattle.job_model.specs.Files.{has_path};
ghost use Rattle.job_model.specs.Attempts.{declares, last_files, with_file};

use crate::files::FileList;
use indexmap::IndexMap;
use s3_types::{Bytes, Text};
use std::alloc::{AllocError, Global};
use std::marker::Model;

/// The name of an attempt: the number of its task, and its own number.
#[derive(Clone, Copy, PartialEq, Eq, Hash)]
pub struct AttemptName {
    pub task: u32,
    pub attempt: u32,
}

/// The declared attempts in script order, each with its files. Each name occurs once.
#[derive(Drop)]
pub struct Attempts {
    declared: IndexMap<AttemptName, FileList>,
}

impl Model for Attempts {
    ghost use Rattle.std.specs.Prelude.{ℕ, List};
    ghost use Rattle.job_model.specs.declared.attempts.AttemptName.{AttemptName};

    ghost Value = { List (AttemptName × List (List ℕ × List ℕ)) };

    ghost view = { λ a. a.declared.entries };
}

impl Attempts {
    /// An empty list of attempts. Takes no memory.
    pub fn new(alloc: Global) -> Attempts
        ensures { result ≡ [] }
    {
        Attempts {
            declared: IndexMap::new(alloc),
        }
    }

    /// The number of declared attempts.
    pub fn len(&self) -> usize
        ensures { result ≡ length self.now }
    {
        self.declared.len()
    }

    /// True if this attempt is declared.
    pub fn declares(&self, name: AttemptName) -> bool
        ensures { result ≡ declares self.now name }
    {
        self.declared.contains_key(&name)
    }

    /// Declares one more attempt, at the end and with no files yet. The name must not be declared.
    /// If memory runs out, the attempts stay as they were.
    pub fn declare(&mut self, alloc: Global, name: AttemptName) -> Result<(), AllocError>
        requires { declares self.old name ≡ false }
        ensures ok { OnOk result (self.new ≡ self.old ++ (name, []) ∷ []) }
        ensures err { OnErr result (self.new ≡ self.old) }
    {
        match self.declared.insert(name, FileList::new(alloc)) {
            Ok(_) => Ok(()),
            Err(_) => Err(AllocError),
        }
    }

    /// True if the last attempt has a file with this path. False if there is no attempt.
    pub fn last_has(&self, path: &Text) -> bool
        ensures { result ≡ has_path (last_files self.now) path.now }
    {
        match self.declared.last() {
            Some((_, files)) => files.has(path),
            None => false,
        }
    }

    /// Adds a file to the last attempt, after its other files. If there is no attempt, nothing
    /// changes.
    /// The last attempt must not have this path. If memory runs out, the attempts stay as they
    /// were.
    pub fn add_file(&mut self, path: Text, bytes: Bytes) -> Result<(), AllocError>
        requires { has_path (last_files self.old) path ≡ false }
        ensures ok { OnOk result (self.new ≡ with_file self.old path bytes) }
        ensures err { OnErr result (self.new ≡ self.old) }
    {
        let Some(files) = self.declared.last_mut() else {
            return Ok(());
        };
        files.add(path, bytes)
    }

    /// The names of the attempts with their files.
    pub fn held(&self) -> &IndexMap<AttemptName, FileList>
        ensures { result.now.entries ≡ self.now }
    {
        &self.declared
    }
}
