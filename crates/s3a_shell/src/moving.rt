ghost use Rattle.std.specs.Prelude.{◌≡◌, IfOk, OnOk};
ghost use Rattle.copy_tree.specs.Public.{StandsCopied, most_copies};
ghost use Rattle.fs_rename.specs.Public.{StandsWhole, most_moves};
ghost use Rattle.s3a_shell.specs.Moving.{route, refused_move, said_of_move, DidMove, refused_copy, copied_line, said_of_copy, DidCopy};
ghost use Rattle.s3a_shell.specs.Asking.{MoveSends, CopyTreeSends};
ghost use Rattle.s3a_shell.specs.inner.Sendings.{IsCounted, Sent, Asked, AtMost};

use crate::said::{Said, fine, refusing};
use crate::session::{EVENT, RETRIES, Session, wanting};
use copy_tree::CopyTree;
use fs_rename::Rename;
use fs_tree::{CopyCount, CopyRefusal, RenameRefusal};
use path_keys::S3Path;
use s3_types::{Actor, Bytes};
use std::alloc::{AllocError, Global};

/// What `mv` says if it is refused.
fn refused_move(alloc: Global, refusal: &RenameRefusal) -> Result<Said, AllocError>
    ensures { IfOk result (λ what. what ≡ refused_move refusal.now) }
{
    match refusal {
        RenameRefusal::SourceMissing => refusing(alloc, "source-missing", None),
        RenameRefusal::SourceRoot => refusing(alloc, "source-root", None),
        RenameRefusal::UnderSource => refusing(alloc, "under-source", None),
        RenameRefusal::TargetFile => refusing(alloc, "target-file", None),
        RenameRefusal::TargetExists => refusing(alloc, "target-exists", None),
        RenameRefusal::ParentMissing => refusing(alloc, "parent-missing", None),
        RenameRefusal::ParentIsFile => refusing(alloc, "parent-is-file", None),
        RenameRefusal::OtherBucket => refusing(alloc, "other-bucket", None),
        RenameRefusal::NoSuchBucket => refusing(alloc, "no-such-bucket", None),
        RenameRefusal::TooLong(key) => refusing(alloc, "too-long", Some(key.as_str())),
    }
}

/// What `mv` says: nothing, or its refusal.
fn move_said(alloc: Global, answer: Result<(), RenameRefusal>) -> Result<Said, AllocError>
    ensures { IfOk result (λ what. what ≡ said_of_move answer) }
{
    match answer {
        Ok(()) => Ok(fine(Bytes::empty(alloc)?)),
        Err(refusal) => refused_move(alloc, &refusal),
    }
}

/// What `cp` says if it is refused.
fn refused_copy(alloc: Global, refusal: &CopyRefusal) -> Result<Said, AllocError>
    ensures { IfOk result (λ what. what ≡ refused_copy refusal.now) }
{
    match refusal {
        CopyRefusal::OtherBucket => refusing(alloc, "other-bucket", None),
        CopyRefusal::NoSuchBucket => refusing(alloc, "no-such-bucket", None),
        CopyRefusal::Overlap => refusing(alloc, "overlap", None),
        CopyRefusal::SourceIsFile => refusing(alloc, "source-is-file", None),
        CopyRefusal::SourceMissing => refusing(alloc, "source-missing", None),
        CopyRefusal::TargetFile(path) => refusing(alloc, "target-file", Some(path.as_str())),
        CopyRefusal::TooLong(key) => refusing(alloc, "too-long", Some(key.as_str())),
        CopyRefusal::Differs(key) => refusing(alloc, "differs", Some(key.as_str())),
    }
}

/// `copied N skipped M`.
fn copied_line(alloc: Global, count: CopyCount) -> Result<Bytes, AllocError>
    ensures { IfOk result (λ line. line ≡ copied_line count) }
{
    let CopyCount { copied, skipped } = count;
    let line = format!(in alloc; "copied {copied} skipped {skipped}\n")?;
    Bytes::new(alloc, line.into_bytes())
}

/// What `cp` says: its line, or its refusal.
fn copy_said(alloc: Global, answer: Result<CopyCount, CopyRefusal>) -> Result<Said, AllocError>
    ensures { IfOk result (λ what. what ≡ said_of_copy answer) }
{
    match answer {
        Ok(count) => Ok(fine(copied_line(alloc, count)?)),
        Err(refusal) => refused_copy(alloc, &refusal),
    }
}

impl Session {
    /// Renames a path to another one.
    pub(crate) fn rename(&mut self, from: &S3Path, to: &S3Path) -> Result<Said, AllocError>
        requires { IsCounted self.old }
        ensures did { IfOk result (λ what. DidMove from.now to.now self.old.store.scene what self.new.store.scene) }
        ensures asked { OnOk result (Asked (MoveSends from.now to.now self.old.store.scene) self.old self.new) }
        ensures few { OnOk result (AtMost (most_moves (route from.now to.now) self.old.store.scene) self.old self.new) }
        ensures sent { OnOk result (Sent (StandsWhole (route from.now to.now) self.old.store.scene)
            self.old self.new) }
    {
        let alloc = self.alloc;
        let rename = Rename::new(alloc, from, to)?;
        let store = &mut self.store;
        let journal = &mut self.journal;
        match rename.perform(alloc, RETRIES, store, Actor::Shell, EVENT, journal) {
            Ok(answer) => move_said(alloc, answer),
            Err(stop) => Err(wanting(stop)),
        }
    }

    /// Copies all that is below a path to another one.
    pub(crate) fn copy(&mut self, from: &S3Path, to: &S3Path) -> Result<Said, AllocError>
        requires { IsCounted self.old }
        ensures did { IfOk result (λ what. DidCopy from.now to.now self.old.store.scene what self.new.store.scene) }
        ensures asked { OnOk result (Asked (CopyTreeSends from.now to.now self.old.store.scene) self.old self.new) }
        ensures few { OnOk result (AtMost (most_copies (route from.now to.now) self.old.store.scene) self.old self.new) }
        ensures sent { OnOk result (Sent (StandsCopied (route from.now to.now) self.old.store.scene)
            self.old self.new) }
    {
        let alloc = self.alloc;
        let copy = CopyTree::new(alloc, from, to)?;
        let store = &mut self.store;
        let journal = &mut self.journal;
        match copy.perform(alloc, RETRIES, store, Actor::Shell, EVENT, journal) {
            Ok(answer) => copy_said(alloc, answer),
            Err(stop) => Err(wanting(stop)),
        }
    }
}
