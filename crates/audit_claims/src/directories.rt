ghost use Rattle.std.specs.Prelude.{◌≡◌, ◌||◌, ℕ, List, IfOk, OnOk};
ghost use Rattle.std.specs.List.{list_any};
ghost use Rattle.soundness.specs.Claims.{writes_into};
ghost use Rattle.judging.specs.Listed.{Listed};
ghost use Rattle.audit_claims.specs.Claims.{Tags};
ghost use Rattle.audit_claims.specs.Directories.{AreOf, all_write, files_of, has_dir, some_always_reaches, some_reaches};

use crate::attempts::Attempts;
use crate::claims::Claims;
use crate::dir_set::{DirSet, directory};
use crate::files::TagFiles;
use s3_types::Text;
use std::alloc::{AllocError, Global};
use std::marker::Model;

/// The parent directories of claimed files: those that some attempt writes into, and those that every attempt of
/// some task writes into.
#[derive(Drop)]
pub struct Directories {
    some: DirSet,
    always: DirSet,
}

impl Model for Directories {
    ghost use Rattle.audit_claims.specs.Directories.{Reached};

    ghost Value = { Reached };

    ghost view = { λ d. record { some = d.some; always = d.always } };
}

/// Adds the directories that an attempt writes into.
fn add_files(alloc: Global, dirs: &mut DirSet, files: &TagFiles) -> Result<(), AllocError>
    ensures ok { OnOk result ((d : List ℕ) → has_dir d dirs.new ≡ (has_dir d dirs.old || writes_into d files.now)) }
{
    for (path, _) in files.held() {
        dirs.add(alloc, directory(path.as_bytes()))?;
    }
    Ok(())
}

/// Returns the directories that an attempt writes into.
fn written(alloc: Global, files: &TagFiles) -> Result<DirSet, AllocError>
    ensures dirs { IfOk result (λ s. (d : List ℕ) → has_dir d s ≡ writes_into d files.now) }
{
    let mut dirs = DirSet::new(alloc);
    add_files(alloc, &mut dirs, files)?;
    Ok(dirs)
}

/// Adds the directories that some attempt of a task writes into.
fn add_attempts(alloc: Global, dirs: &mut DirSet, attempts: &Attempts) -> Result<(), AllocError>
    ensures ok { OnOk result ((d : List ℕ) → has_dir d dirs.new
        ≡ (has_dir d dirs.old || list_any (writes_into d) (files_of attempts.now))) }
{
    for (_, files) in attempts.held() {
        add_files(alloc, dirs, files)?;
    }
    Ok(())
}

/// Returns the directories that every attempt of a task writes into; none if there is no attempt.
fn common(alloc: Global, attempts: &Attempts) -> Result<DirSet, AllocError>
    ensures all { IfOk result (λ s. (d : List ℕ) → has_dir d s ≡ all_write d (files_of attempts.now)) }
{
    let mut rest = attempts.held().iter();
    let Some((_, first)) = rest.next() else {
        return Ok(DirSet::new(alloc));
    };
    let mut common = written(alloc, first)?;
    for (_, files) in rest {
        let own = written(alloc, files)?;
        common = common.shared(alloc, &own)?;
    }
    Ok(common)
}

impl Directories {
    /// Returns the directories of the claimed files. Visits each file twice, in O(log n) for n
    /// files. Fails only if memory runs out.
    pub fn of(alloc: Global, claims: &Claims) -> Result<Directories, AllocError>
        ensures all { IfOk result (AreOf claims.now.listed) }
    {
        let mut some = DirSet::new(alloc);
        let mut always = DirSet::new(alloc);
        for (_, attempts) in claims.held() {
            add_attempts(alloc, &mut some, attempts)?;
            let shared = common(alloc, attempts)?;
            always.add_all(alloc, &shared)?;
        }
        Ok(Directories { some, always })
    }

    /// Returns whether a path is below a directory that some attempt writes into. Looks up each
    /// prefix of the path that ends in `/`, in O(log n).
    pub fn is_reached(&self, path: &Text) -> bool
        ensures reached { (listed : Listed Tags) → AreOf listed self.now → result ≡ some_reaches path.now listed }
    {
        self.some.reaches(path.as_bytes())
    }

    /// Returns whether a path is below a directory that every attempt of some task writes into, at
    /// the same cost.
    pub fn is_always_reached(&self, path: &Text) -> bool
        ensures reached { (listed : Listed Tags) → AreOf listed self.now → result ≡ some_always_reaches path.now listed }
    {
        self.always.reaches(path.as_bytes())
    }
}
