ghost use Rattle.std.specs.Option.{option_copied};
ghost use Rattle.std.specs.Prelude.{◌≡◌, ◌<◌, ◌↔◌, ℕ, List, [], Some, cond, false, length, not, is_some, nat_eq, IfOk, IfSome, IfNone, IsTrue, OnOk, OnErr};
ghost use Rattle.std.specs.Map.{lookup};
ghost use Rattle.text_and_lists.specs.Order.{text_eq};
ghost use Rattle.soundness.specs.Claims.{file_at};
ghost use Rattle.judging.specs.Listed.{has_attempt, last_files, numbered, owner, with_attempt, with_file};
ghost use Rattle.indexmap.specs.IndexMap.{spare};
ghost use Rattle.audit_claims.specs.Claims.{AllListed, IsFirstMissing, with_next};
ghost use Rattle.audit_claims.specs.Fits.{after_fit, fit_by, fit_of};

use crate::attempts::Attempts;
use crate::etags::Etags;
use indexmap::IndexMap;
use s3_types::Text;
use std::alloc::{AllocError, Global};
use std::marker::Model;

/// The result of listing a file.
#[derive(Clone, Copy, Debug, PartialEq, Eq)]
pub enum FileFit {
    /// The file is a file of the last attempt now.
    Added,
    /// The last attempt has a file at its path already.
    Repeated,
    /// An attempt of another task has a file at its path.
    SamePath,
}

/// The claim in the first lines of a trace: the attempts of each task with their files. An index
/// finds in O(1) which task writes a path.
#[derive(Drop)]
pub struct Claims {
    alloc: Global,
    tasks: IndexMap<u32, Attempts>,
    owners: IndexMap<Text, u32>,
    current: u32,
}

impl Model for Claims {
    ghost use Rattle.audit_claims.specs.Claims.{Claimed};
    ghost use Rattle.audit_claims.specs.inner.Claims.{IsIndexed};

    ghost Value = { Claimed };

    ghost view = { λ c. record { listed = c.tasks.entries; current = c.current } };

    ghost invariant = { λ c. IsIndexed c.tasks.entries c.owners.entries c.current };
}

/// Adds the first attempt of another task.
fn start_task(
    alloc: Global,
    tasks: &mut IndexMap<u32, Attempts>,
    task: u32,
    attempt: u32,
) -> Result<(), AllocError>
    requires other { is_some (lookup (nat_eq task) tasks.old.entries) ≡ false }
    ensures ok { OnOk result (tasks.new.entries ≡ with_attempt task attempt tasks.old.entries) }
    ensures err { OnErr result (tasks.new.entries ≡ tasks.old.entries) }
{
    let mut attempts = Attempts::new(alloc);
    attempts.add(alloc, attempt)?;
    match tasks.insert(task, attempts) {
        Ok(_) => Ok(()),
        Err(_) => Err(AllocError),
    }
}

/// Adds another attempt of a task.
fn put_attempt(
    alloc: Global,
    tasks: &mut IndexMap<u32, Attempts>,
    task: u32,
    attempt: u32,
) -> Result<(), AllocError>
    requires other { has_attempt task attempt tasks.old.entries ≡ false }
    ensures ok { OnOk result (tasks.new.entries ≡ with_attempt task attempt tasks.old.entries) }
    ensures err { OnErr result (tasks.new.entries ≡ tasks.old.entries) }
{
    match tasks.get_mut(&task) {
        Some(attempts) => attempts.add(alloc, attempt),
        None => start_task(alloc, tasks, task, attempt),
    }
}

/// Adds a file to the last attempt of a task.
fn put_last(
    tasks: &mut IndexMap<u32, Attempts>,
    task: u32,
    path: Text,
    etags: Etags,
) -> Result<(), AllocError>
    requires some { 0 < length (numbered task tasks.old.entries) }
    requires other { is_some (file_at (last_files (numbered task tasks.old.entries)) path) ≡ false }
    ensures ok { OnOk result (tasks.new.entries ≡ with_file task path etags tasks.old.entries) }
    ensures err { OnErr result (tasks.new.entries ≡ tasks.old.entries) }
{
    match tasks.get_mut(&task) {
        Some(attempts) => attempts.add_file(path, etags),
        None => unreachable!(),
    }
}

/// Notes that a task writes a path.
fn own(owners: &mut IndexMap<Text, u32>, path: Text, task: u32)
    requires room { 0 < spare owners.old }
    ensures owners { (q : List ℕ) → lookup (text_eq q) owners.new.entries
        ≡ cond (text_eq q path) (Some task) (lookup (text_eq q) owners.old.entries) }
{
    match owners.insert(path, task) {
        Ok(_) => {}
        Err(_) => unreachable!(),
    }
}

/// Adds a file to the last attempt of a task, and notes that the task writes its path.
fn put_file(
    tasks: &mut IndexMap<u32, Attempts>,
    owners: &mut IndexMap<Text, u32>,
    task: u32,
    path: Text,
    etags: Etags,
) -> Result<(), AllocError>
    requires some { 0 < length (numbered task tasks.old.entries) }
    requires other { is_some (file_at (last_files (numbered task tasks.old.entries)) path) ≡ false }
    ensures tasks { OnOk result (tasks.new.entries ≡ with_file task path etags tasks.old.entries) }
    ensures owners { OnOk result ((q : List ℕ) → lookup (text_eq q) owners.new.entries
        ≡ cond (text_eq q path) (Some task) (lookup (text_eq q) owners.old.entries)) }
    ensures err { OnErr result (tasks.new.entries ≡ tasks.old.entries) }
    ensures owners_err { OnErr result (owners.new.entries ≡ owners.old.entries) }
{
    owners.reserve(1)?;
    let owned = path.clone()?;
    put_last(tasks, task, path, etags)?;
    own(owners, owned, task);
    Ok(())
}

impl Claims {
    /// Returns a claim without attempts. Takes no memory.
    pub fn new(alloc: Global) -> Claims
        ensures listed { result.listed ≡ [] }
        ensures current { result.current ≡ 0 }
    {
        Claims {
            alloc,
            tasks: IndexMap::new(alloc),
            owners: IndexMap::new(alloc),
            current: 0,
        }
    }

    /// Returns whether no attempt is listed.
    pub fn is_empty(&self) -> bool
        ensures none { IsTrue result ↔ (length self.now.listed ≡ 0) }
    {
        self.tasks.is_empty()
    }

    /// Returns whether the task has an attempt with this number.
    pub fn has_attempt(&self, task: u32, attempt: u32) -> bool
        ensures found { result ≡ has_attempt task attempt self.now.listed }
    {
        match self.tasks.get(&task) {
            Some(attempts) => attempts.has(attempt),
            None => false,
        }
    }

    /// Lists an attempt of a task, with no file yet; the files that are added next are its files.
    /// Returns false and lists nothing if the task has an attempt with this number already. Fails
    /// only if memory runs out; the claim is then unchanged.
    pub fn add_attempt(&mut self, task: u32, attempt: u32) -> Result<bool, AllocError>
        ensures is_new { IfOk result (λ is_new. is_new ≡ not (has_attempt task attempt self.old.listed)) }
        ensures after { IfOk result (λ is_new. self.new ≡ cond is_new (with_next task attempt self.old) self.old) }
        ensures err { OnErr result (self.new ≡ self.old) }
    {
        if self.has_attempt(task, attempt) {
            return Ok(false);
        }
        put_attempt(self.alloc, &mut self.tasks, task, attempt)?;
        self.current = task;
        Ok(true)
    }

    fn last_has(&self, path: &Text) -> bool
        ensures found { result ≡ is_some (file_at (last_files (numbered self.now.current self.now.listed)) path.now) }
    {
        match self.tasks.get(&self.current) {
            Some(attempts) => attempts.last_has(path),
            None => false,
        }
    }

    /// Returns the task of which an attempt has a file at this path, if there is one, in O(1).
    pub fn owner(&self, path: &Text) -> Option<u32>
        ensures owner { result ≡ owner path.now self.now.listed }
    {
        self.owners.get(path).copied()
    }

    fn own_or_other(&self, owner: u32) -> FileFit
        ensures fit { result ≡ fit_by self.now.current (Some owner) }
    {
        if owner == self.current {
            FileFit::Added
        } else {
            FileFit::SamePath
        }
    }

    /// Returns the result of adding a file at this path next.
    pub fn fit(&self, path: &Text) -> FileFit
        ensures fit { result ≡ fit_of self.now path.now }
    {
        if self.last_has(path) {
            return FileFit::Repeated;
        }
        match self.owner(path) {
            None => FileFit::Added,
            Some(task) => self.own_or_other(task),
        }
    }

    /// Adds a file to the attempt that was listed last. Adds nothing if that attempt has a file at
    /// this path (`Repeated`), or an attempt of another task has one (`SamePath`). Fails only if
    /// memory runs out; the claim is then unchanged.
    pub fn add_file(&mut self, path: Text, etags: Etags) -> Result<FileFit, AllocError>
        requires some { 0 < length self.old.listed }
        ensures fit { IfOk result (λ fit. fit ≡ fit_of self.old path) }
        ensures after { IfOk result (λ fit. self.new ≡ after_fit fit path etags self.old) }
        ensures err { OnErr result (self.new ≡ self.old) }
    {
        let fit = self.fit(&path);
        match fit {
            FileFit::Added => {}
            _ => return Ok(fit),
        }
        put_file(&mut self.tasks, &mut self.owners, self.current, path, etags)?;
        Ok(FileFit::Added)
    }

    /// Returns the attempts of a task, if it has any.
    pub fn attempts(&self, task: u32) -> Option<&Attempts>
        ensures found { option_copied result ≡ lookup (nat_eq task) self.now.listed }
    {
        self.tasks.get(&task)
    }

    /// Returns the attempts by task, in the order of the tasks' first attempts.
    pub fn held(&self) -> &IndexMap<u32, Attempts>
        ensures entries { result.now.entries ≡ self.now.listed }
    {
        &self.tasks
    }

    fn has_some(&self, task: u32) -> bool
        ensures some { IsTrue result ↔ (0 < length (numbered task self.now.listed)) }
    {
        match self.tasks.get(&task) {
            Some(attempts) => !attempts.is_empty(),
            None => false,
        }
    }

    /// Returns the least number below `tasks` of a task that has no attempt, or None if each one
    /// has an attempt. Checks at most one number more than there are listed tasks, and takes no
    /// memory.
    pub fn missing(&self, tasks: u32) -> Option<u32>
        ensures below { IfSome result (λ task. task < tasks) }
        ensures first { IfSome result (IsFirstMissing self.now.listed) }
        ensures none { IfNone result (AllListed self.now.listed tasks) }
    {
        for task in 0..tasks {
            if !self.has_some(task) {
                return Some(task);
            }
        }
        None
    }
}
