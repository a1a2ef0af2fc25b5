ghost use Rattle.std.specs.Prelude.{◌≡◌, ◌+◌, ◌*◌, ◌++◌, IfOk, OnOk, string_bytes};
ghost use Rattle.bucket_ops.specs.Phases.{AlwaysIn};
ghost use Rattle.fs_tree.specs.MarkerTool.{Audits, Cleans, Fills, IsCleaning, IsFilling};
ghost use Rattle.bucket_ops.specs.Uploads.{IsStill};
ghost use Rattle.s3a_shell.specs.Texts.{kind_word, marker_line, marker_lines, cleaned_line, filled_line, said};
ghost use Rattle.s3a_shell.specs.Asking.{LooksIn, CleanMarkersSends, FillMarkersSends};
ghost use Rattle.s3a_shell.specs.Most.{count_below, surplus_below, missing_below, most_on};
ghost use Rattle.s3a_shell.specs.inner.Sendings.{IsCounted, Sent, Asked, AtMost};
ghost use Rattle.s3a_shell.specs.Sendings.{has_changed};
ghost use Rattle.s3a_shell.specs.Doings.{Did};

use crate::said::{Said, fine, refused};
use crate::session::Session;
use fs_tree::{FsRefusal, MarkerEntry, MarkerKind, MarkerList};
use marker_tool::{AuditMarkers, CleanMarkers, FillMarkers};
use path_keys::S3Path;
use s3_types::Bytes;
use std::alloc::{AllocError, Global};

fn kind_word(kind: MarkerKind) -> &'static str
    ensures { result.now ≡ kind_word kind }
{
    match kind {
        MarkerKind::Surplus => "surplus",
        MarkerKind::Leaf => "leaf",
        MarkerKind::Odd => "odd",
    }
}

/// Adds `surplus KEY`, `leaf KEY` or `odd KEY`.
fn put_marker(lines: &mut String, entry: &MarkerEntry) -> Result<(), AllocError>
    ensures { OnOk result (string_bytes lines.new ≡ string_bytes lines.old ++ marker_line entry.now) }
{
    let word = kind_word(entry.kind);
    let key = entry.key.as_text().as_str();
    write!(lines, "{word} {key}\n")
}

/// A line for each marker.
fn marker_lines(alloc: Global, entries: &[MarkerEntry]) -> Result<Bytes, AllocError>
    ensures { IfOk result (λ lines. lines ≡ marker_lines entries.now) }
{
    let mut lines = String::new(alloc);
    for entry in entries {
        put_marker(&mut lines, entry)?;
    }
    Bytes::new(alloc, lines.into_bytes())
}

/// `cleaned N`.
fn cleaned_line(alloc: Global, count: u64) -> Result<Bytes, AllocError>
    ensures { IfOk result (λ line. line ≡ cleaned_line count) }
{
    let line = format!(in alloc; "cleaned {count}\n")?;
    Bytes::new(alloc, line.into_bytes())
}

/// `filled N`.
fn filled_line(alloc: Global, count: u64) -> Result<Bytes, AllocError>
    ensures { IfOk result (λ line. line ≡ filled_line count) }
{
    let line = format!(in alloc; "filled {count}\n")?;
    Bytes::new(alloc, line.into_bytes())
}

fn markers_said(alloc: Global, answer: Result<MarkerList, FsRefusal>) -> Result<Said, AllocError>
    ensures { IfOk result (λ what. what ≡ said marker_lines answer) }
{
    match answer {
        Ok(entries) => Ok(fine(marker_lines(alloc, entries.as_slice())?)),
        Err(refusal) => refused(alloc, &refusal),
    }
}

fn cleaned_said(alloc: Global, answer: Result<u64, FsRefusal>) -> Result<Said, AllocError>
    ensures { IfOk result (λ what. what ≡ said cleaned_line answer) }
{
    match answer {
        Ok(count) => Ok(fine(cleaned_line(alloc, count)?)),
        Err(refusal) => refused(alloc, &refusal),
    }
}

fn filled_said(alloc: Global, answer: Result<u64, FsRefusal>) -> Result<Said, AllocError>
    ensures { IfOk result (λ what. what ≡ said filled_line answer) }
{
    match answer {
        Ok(count) => Ok(fine(filled_line(alloc, count)?)),
        Err(refusal) => refused(alloc, &refusal),
    }
}

impl Session {
    /// Lists the markers at a path and below it.
    pub(crate) fn markers(&mut self, path: &S3Path) -> Result<Said, AllocError>
        requires { IsCounted self.old }
        ensures did { IfOk result (λ what. Did path.now (Audits path.now.key) marker_lines self.old.store.scene
            what self.new.store.scene) }
        ensures looks { OnOk result (has_changed self.new.journal.entries ≡ has_changed self.old.journal.entries) }
        ensures asked { OnOk result (Asked (LooksIn path.now.bucket) self.old self.new) }
        ensures few { OnOk result (AtMost (most_on path.now self.old.store.scene (λ m. 3 + 2 * count_below path.now.key m))
            self.old self.new) }
        ensures sent { OnOk result (Sent (IsStill self.old.store.scene) self.old self.new) }
    {
        let audit = AuditMarkers::new(self.alloc, path)?;
        let answer = self.perform_at(path, audit)?;
        markers_said(self.alloc, answer)
    }

    /// Deletes the surplus markers at a path and below it.
    pub(crate) fn clean_markers(&mut self, path: &S3Path) -> Result<Said, AllocError>
        requires { IsCounted self.old }
        ensures did { IfOk result (λ what. Did path.now (Cleans path.now.key) cleaned_line self.old.store.scene
            what self.new.store.scene) }
        ensures asked { OnOk result (Asked (CleanMarkersSends path.now self.old.store.scene) self.old self.new) }
        ensures few { OnOk result (AtMost (most_on path.now self.old.store.scene
            (λ m. 3 + 2 * count_below path.now.key m + surplus_below path.now.key m)) self.old self.new) }
        ensures sent { OnOk result (Sent (AlwaysIn path.now.bucket (IsCleaning path.now.key) self.old.store.scene)
            self.old self.new) }
    {
        let cleaning = CleanMarkers::new(self.alloc, path)?;
        let answer = self.perform_at(path, cleaning)?;
        cleaned_said(self.alloc, answer)
    }

    /// Puts the missing markers at a path and below it.
    pub(crate) fn fill_markers(&mut self, path: &S3Path) -> Result<Said, AllocError>
        requires { IsCounted self.old }
        ensures did { IfOk result (λ what. Did path.now (Fills path.now.key) filled_line self.old.store.scene
            what self.new.store.scene) }
        ensures asked { OnOk result (Asked (FillMarkersSends path.now self.old.store.scene) self.old self.new) }
        ensures few { OnOk result (AtMost (most_on path.now self.old.store.scene
            (λ m. 3 + 2 * count_below path.now.key m + missing_below path.now.key m)) self.old self.new) }
        ensures sent { OnOk result (Sent (AlwaysIn path.now.bucket (IsFilling path.now.key) self.old.store.scene)
            self.old self.new) }
    {
        let filling = FillMarkers::new(self.alloc, path)?;
        let answer = self.perform_at(path, filling)?;
        filled_said(self.alloc, answer)
    }
}
