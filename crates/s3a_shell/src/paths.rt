ghost use Rattle.std.specs.Prelude.{◌≡◌, ◌+◌, ◌*◌, ◌++◌, length, IfOk, OnOk, string_bytes};
ghost use Rattle.dir_markers.specs.Markers.{keys_above};
ghost use Rattle.bucket_ops.specs.Phases.{AlwaysIn};
ghost use Rattle.fs_tree.specs.Answers.{Stats, Reads, Lists, Makes, Deletes};
ghost use Rattle.fs_ops.specs.code.Make as make;
ghost use Rattle.bucket_ops.specs.Uploads.{IsStill};
ghost use Rattle.s3a_shell.specs.Texts.{status_line, entry_line, entry_lines, bytes_alone, nothing, said};
ghost use Rattle.s3a_shell.specs.Asking.{LooksIn, MakeSends, DeleteSends};
ghost use Rattle.s3a_shell.specs.Most.{children_below, count_below, most_on};
ghost use Rattle.s3a_shell.specs.inner.Sendings.{IsCounted, Sent, Asked, AtMost};
ghost use Rattle.s3a_shell.specs.Sendings.{has_changed};
ghost use Rattle.s3a_shell.specs.Doings.{Did, DeletedSome};

use crate::said::{Said, bytes_said, fine, nothing_said, refused};
use crate::session::Session;
use dir_markers::Status;
use fs_ops::{DeletePath, ListDir, MakeDirs, ReadFile, Stat};
use fs_tree::{DirEntry, DirList, FsRefusal};
use path_keys::S3Path;
use s3_types::Bytes;
use std::alloc::{AllocError, Global};

/// `file LENGTH` or `directory`.
fn status_line(alloc: Global, status: Status) -> Result<Bytes, AllocError>
    ensures { IfOk result (λ line. line ≡ status_line status) }
{
    let line = match status {
        Status::File(length) => format!(in alloc; "file {length}\n")?,
        Status::Directory => format!(in alloc; "directory\n")?,
    };
    Bytes::new(alloc, line.into_bytes())
}

/// Adds `f LENGTH NAME` or `d NAME`.
fn put_entry(lines: &mut String, entry: &DirEntry) -> Result<(), AllocError>
    ensures { OnOk result (string_bytes lines.new ≡ string_bytes lines.old ++ entry_line entry.now) }
{
    let name = entry.name.as_str();
    match entry.status {
        Status::File(length) => write!(lines, "f {length} {name}\n"),
        Status::Directory => write!(lines, "d {name}\n"),
    }
}

/// A line for each entry.
fn entry_lines(alloc: Global, entries: &[DirEntry]) -> Result<Bytes, AllocError>
    ensures { IfOk result (λ lines. lines ≡ entry_lines entries.now) }
{
    let mut lines = String::new(alloc);
    for entry in entries {
        put_entry(&mut lines, entry)?;
    }
    Bytes::new(alloc, lines.into_bytes())
}

/// What `stat` says: its line, or its refusal.
fn status_said(alloc: Global, answer: Result<Status, FsRefusal>) -> Result<Said, AllocError>
    ensures { IfOk result (λ what. what ≡ said status_line answer) }
{
    match answer {
        Ok(status) => Ok(fine(status_line(alloc, status)?)),
        Err(refusal) => refused(alloc, &refusal),
    }
}

/// What `ls` says: a line for each entry, or its refusal.
fn list_said(alloc: Global, answer: Result<DirList, FsRefusal>) -> Result<Said, AllocError>
    ensures { IfOk result (λ what. what ≡ said entry_lines answer) }
{
    match answer {
        Ok(entries) => Ok(fine(entry_lines(alloc, entries.as_slice())?)),
        Err(refusal) => refused(alloc, &refusal),
    }
}

impl Session {
    /// Looks whether the path is a file or a directory.
    pub(crate) fn stat(&mut self, path: &S3Path) -> Result<Said, AllocError>
        requires { IsCounted self.old }
        ensures did { IfOk result (λ what. Did path.now (Stats path.now.key) status_line self.old.store.scene
            what self.new.store.scene) }
        ensures looks { OnOk result (has_changed self.new.journal.entries ≡ has_changed self.old.journal.entries) }
        ensures asked { OnOk result (Asked (LooksIn path.now.bucket) self.old self.new) }
        ensures few { OnOk result (AtMost (most_on path.now self.old.store.scene (λ m. 2)) self.old self.new) }
        ensures sent { OnOk result (Sent (IsStill self.old.store.scene) self.old self.new) }
    {
        let stat = Stat::new(self.alloc, path)?;
        let answer = self.perform_at(path, stat)?;
        status_said(self.alloc, answer)
    }

    /// Lists what a directory has.
    pub(crate) fn ls(&mut self, path: &S3Path) -> Result<Said, AllocError>
        requires { IsCounted self.old }
        ensures did { IfOk result (λ what. Did path.now (Lists path.now.key) entry_lines self.old.store.scene
            what self.new.store.scene) }
        ensures looks { OnOk result (has_changed self.new.journal.entries ≡ has_changed self.old.journal.entries) }
        ensures asked { OnOk result (Asked (LooksIn path.now.bucket) self.old self.new) }
        ensures few { OnOk result (AtMost (most_on path.now self.old.store.scene (λ m. 2 + children_below path.now.key m))
            self.old self.new) }
        ensures sent { OnOk result (Sent (IsStill self.old.store.scene) self.old self.new) }
    {
        let dir = ListDir::new(self.alloc, path)?;
        let answer = self.perform_at(path, dir)?;
        list_said(self.alloc, answer)
    }

    /// Reads the bytes of a file.
    pub(crate) fn cat(&mut self, path: &S3Path) -> Result<Said, AllocError>
        requires { IsCounted self.old }
        ensures did { IfOk result (λ what. Did path.now (Reads path.now.key) bytes_alone self.old.store.scene
            what self.new.store.scene) }
        ensures looks { OnOk result (has_changed self.new.journal.entries ≡ has_changed self.old.journal.entries) }
        ensures asked { OnOk result (Asked (LooksIn path.now.bucket) self.old self.new) }
        ensures few { OnOk result (AtMost (most_on path.now self.old.store.scene (λ m. 2)) self.old self.new) }
        ensures sent { OnOk result (Sent (IsStill self.old.store.scene) self.old self.new) }
    {
        let file = ReadFile::new(self.alloc, path)?;
        let answer = self.perform_at(path, file)?;
        bytes_said(self.alloc, answer)
    }

    /// Makes a directory.
    pub(crate) fn mkdir(&mut self, path: &S3Path) -> Result<Said, AllocError>
        requires { IsCounted self.old }
        ensures did { IfOk result (λ what. Did path.now (Makes path.now.key) nothing self.old.store.scene
            what self.new.store.scene) }
        ensures asked { OnOk result (Asked (MakeSends path.now self.old.store.scene) self.old self.new) }
        ensures few { OnOk result (AtMost (most_on path.now self.old.store.scene (λ m. 3 + length (keys_above path.now.key)))
            self.old self.new) }
        ensures sent { OnOk result (Sent (AlwaysIn path.now.bucket (make.always path.now.key) self.old.store.scene)
            self.old self.new) }
    {
        let dirs = MakeDirs::new(self.alloc, path)?;
        let answer = self.perform_at(path, dirs)?;
        nothing_said(self.alloc, answer)
    }

    /// Deletes a path, and all below it if `recursive` is set.
    pub(crate) fn remove(&mut self, path: &S3Path, recursive: bool) -> Result<Said, AllocError>
        requires { IsCounted self.old }
        ensures did { IfOk result (λ what. Did path.now (Deletes recursive path.now.key) nothing self.old.store.scene
            what self.new.store.scene) }
        ensures asked { OnOk result (Asked (DeleteSends recursive path.now self.old.store.scene) self.old self.new) }
        ensures few { OnOk result (AtMost (most_on path.now self.old.store.scene (λ m. 6 + 2 * count_below path.now.key m))
            self.old self.new) }
        ensures sent { OnOk result (Sent (DeletedSome recursive path.now self.old.store.scene) self.old self.new) }
    {
        let deletion = DeletePath::new(self.alloc, path, recursive)?;
        let answer = self.perform_at(path, deletion)?;
        nothing_said(self.alloc, answer)
    }
}
