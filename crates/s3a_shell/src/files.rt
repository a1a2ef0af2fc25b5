ghost use Rattle.std.specs.Prelude.{◌≡◌, ◌≤◌, false, length, IfOk, OnOk};
ghost use Rattle.s3a_shell.specs.Asking.{PutSends, PutSendsUnless};
ghost use Rattle.s3a_shell.specs.Most.{most_put};
ghost use Rattle.s3a_shell.specs.inner.Sendings.{IsCounted, Sent, Asked, AtMost};
ghost use Rattle.s3a_shell.specs.Doings.{most_input, Created, FileOrNot, DidPut};

use crate::said::{Said, nothing_said, refusing};
use crate::session::{EVENT, RETRIES, Session, wanting};
use block_stream::block_of;
use dir_markers::MarkerPolicy;
use fs_files::CreateFile;
use operations::perform;
use path_keys::S3Path;
use s3_types::{Actor, Bytes};
use std::alloc::AllocError;

/// The most bytes of an input.
pub const MOST_INPUT: usize = 67_108_864;

impl Session {
    /// Makes a file of bytes that are not too many.
    fn create(
        &mut self,
        path: &S3Path,
        bytes: &Bytes,
        overwrite: bool,
        policy: MarkerPolicy,
    ) -> Result<Said, AllocError>
        requires few { length bytes.now ≤ most_input }
        requires counted { IsCounted self.old }
        ensures did { IfOk result (λ what. Created path.now bytes.now overwrite policy self.old.store.scene
            what self.new.store.scene) }
        ensures asked { OnOk result (Asked (PutSendsUnless false path.now bytes.now overwrite policy self.old.store.scene)
            self.old self.new) }
        ensures few { OnOk result (AtMost (most_put path.now bytes.now) self.old self.new) }
        ensures sent { OnOk result (Sent (FileOrNot policy path.now bytes.now self.old.store.scene) self.old self.new) }
    {
        let alloc = self.alloc;
        let minimum = self.store.service().minimum();
        let block = block_of(bytes.as_slice().len() as u64, 0, minimum);
        let bytes = bytes.clone()?;
        let file = CreateFile::new(alloc, path, bytes, block, overwrite, policy)?;
        let store = &mut self.store;
        let journal = &mut self.journal;
        match perform(alloc, file, RETRIES, store, Actor::Shell, EVENT, journal) {
            Ok(answer) => nothing_said(alloc, answer),
            Err(stop) => Err(wanting(stop)),
        }
    }

    /// Makes a file of the input, and keeps or deletes the markers above it. An input over
    /// `MOST_INPUT` is refused first, with `too-large`, and nothing is sent.
    pub(crate) fn put(
        &mut self,
        path: &S3Path,
        bytes: &Bytes,
        overwrite: bool,
        policy: MarkerPolicy,
    ) -> Result<Said, AllocError>
        requires { IsCounted self.old }
        ensures did { IfOk result (λ what. DidPut path.now bytes.now overwrite policy self.old.store.scene
            what self.new.store.scene) }
        ensures asked { OnOk result (Asked (PutSends path.now bytes.now overwrite policy self.old.store.scene)
            self.old self.new) }
        ensures few { OnOk result (AtMost (most_put path.now bytes.now) self.old self.new) }
        ensures sent { OnOk result (Sent (FileOrNot policy path.now bytes.now self.old.store.scene) self.old self.new) }
    {
        if bytes.as_slice().len() > MOST_INPUT {
            return refusing(self.alloc, "too-large", None);
        }
        self.create(path, bytes, overwrite, policy)
    }
}
