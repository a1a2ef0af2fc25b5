ghost use Rattle.std.specs.Prelude.{◌≡◌, ◌+◌, ◌*◌, ◌++◌, [], length, None, IfOk, OnOk, string_bytes};
ghost use Rattle.s3_types.specs.Answer.{apply};
ghost use Rattle.path_keys.specs.Paths.{below};
ghost use Rattle.bucket_ops.specs.Uploads.{uploads_from, IsStill, IsPageOf};
ghost use Rattle.s3a_shell.specs.Asking.{lists, UploadSends};
ghost use Rattle.s3a_shell.specs.inner.Asking.{OnOne};
ghost use Rattle.s3a_shell.specs.Most.{uploads_at};
ghost use Rattle.s3a_shell.specs.inner.Sendings.{IsCounted, Sent, Asked, AtMost};
ghost use Rattle.s3a_shell.specs.Sendings.{AppliedOrNot, has_changed};
ghost use Rattle.s3a_shell.specs.Uploading.{bytes_in, upload_line, aborted_line};
ghost use Rattle.s3a_shell.specs.inner.Uploading.{sizes_in, asked_line, asked_lines};
ghost use Rattle.s3a_shell.specs.Uploading.{aborts, DidList, DidAbort, AbortedSome};
ghost use Rattle.s3a_shell.specs.inner.Uploading.{after_aborts, AfterSome};

use crate::said::{Said, fine, refusing};
use crate::session::{EVENT, RETRIES, Session, wanting};
use bucket_ops::list_uploads;
use path_keys::S3Path;
use s3_types::{
    Actor, Bucket, Bytes, PartSize, Reply, Request, Text, UploadList, UploadRef, let_go,
};
use std::alloc::{AllocError, Global};

/// The prefix of all keys below a path.
fn prefix_of(alloc: Global, path: &S3Path) -> Result<Text, AllocError>
    ensures { IfOk result (λ prefix. prefix ≡ below path.now.key []) }
{
    let text = path.text_below(alloc, "")?;
    Text::new(alloc, text)
}

/// The sum of the parts' lengths in bytes.
fn bytes_in(parts: &[PartSize]) -> u128
    ensures { result ≡ bytes_in parts.now }
{
    let mut bytes = 0;
    for part in parts {
        bytes += u128::from(part.length);
    }
    bytes
}

/// Adds the line of an upload that has these parts.
fn put_line(lines: &mut String, upload: &UploadRef, parts: &[PartSize]) -> Result<(), AllocError>
    ensures { OnOk result (string_bytes lines.new ≡ string_bytes lines.old ++ upload_line upload.now parts.now) }
{
    let id = upload.upload;
    let count = parts.len();
    let bytes = bytes_in(parts);
    let key = upload.key.as_text().as_str();
    write!(lines, "{id} {count} {bytes} {key}\n")
}

/// Adds the line of an upload whose parts are in a reply.
fn put_reply(lines: &mut String, upload: &UploadRef, reply: &Reply) -> Result<(), AllocError>
    ensures { OnOk result (string_bytes lines.new ≡ string_bytes lines.old
        ++ upload_line upload.now (sizes_in reply.now)) }
{
    match reply {
        Reply::Parts(sizes) => put_line(lines, upload, sizes.as_slice()),
        _ => put_line(lines, upload, &[]),
    }
}

/// `aborted N`.
fn aborted_line(alloc: Global, count: usize) -> Result<Bytes, AllocError>
    ensures { IfOk result (λ line. line ≡ aborted_line count) }
{
    let line = format!(in alloc; "aborted {count}\n")?;
    Bytes::new(alloc, line.into_bytes())
}

impl Session {
    /// The live uploads below a path, or None if the bucket does not exist.
    fn live_uploads(&mut self, path: &S3Path) -> Result<Option<UploadList>, AllocError>
        requires { IsCounted self.old }
        ensures found { IfOk result (λ found. found ≡ uploads_from self.old.store.scene path.now.bucket
            (below path.now.key []) None) }
        ensures same { OnOk result (self.new.store.scene ≡ self.old.store.scene) }
        ensures looks { OnOk result (has_changed self.new.journal.entries ≡ has_changed self.old.journal.entries) }
        ensures asked { OnOk result (Asked (IsPageOf path.now.bucket (below path.now.key [])) self.old self.new) }
        ensures few { OnOk result (AtMost (1 + uploads_at path.now self.old.store.scene) self.old self.new) }
        ensures sent { OnOk result (Sent (IsStill self.old.store.scene) self.old self.new) }
    {
        let bucket = path.bucket().clone()?;
        let prefix = prefix_of(self.alloc, path)?;
        match list_uploads(
            self.alloc,
            bucket,
            prefix,
            RETRIES,
            &mut self.store,
            Actor::Shell,
            EVENT,
            &mut self.journal,
        ) {
            Ok(found) => Ok(found),
            Err(stop) => Err(wanting(stop)),
        }
    }

    /// Asks for the parts of an upload, and adds its line.
    fn put_upload(
        &mut self,
        lines: &mut String,
        bucket: &Bucket,
        upload: &UploadRef,
    ) -> Result<(), AllocError>
        requires { IsCounted self.old }
        ensures line { OnOk result (string_bytes lines.new ≡ string_bytes lines.old ++ asked_line self.old.store.scene
            bucket.now upload.now) }
        ensures same { OnOk result (self.new.store.scene ≡ self.old.store.scene) }
        ensures looks { OnOk result (has_changed self.new.journal.entries ≡ has_changed self.old.journal.entries) }
        ensures asked { OnOk result (Asked (λ r. r ≡ lists bucket.now upload.now) self.old self.new) }
        ensures few { OnOk result (AtMost 1 self.old self.new) }
        ensures sent { OnOk result (Sent (IsStill self.old.store.scene) self.old self.new) }
    {
        let request = Request::list_parts(bucket, &upload.key, upload.upload)?;
        match self.answered(&request) {
            Ok(reply) => {
                let put = put_reply(lines, upload, &reply);
                self.write_down(request, reply);
                put
            }
            Err(error) => {
                let_go(request);
                Err(error)
            }
        }
    }

    /// A line for each upload.
    fn upload_lines(&mut self, bucket: &Bucket, uploads: &[UploadRef]) -> Result<Bytes, AllocError>
        requires { IsCounted self.old }
        ensures lines { IfOk result (λ lines. lines ≡ asked_lines self.old.store.scene bucket.now uploads.now) }
        ensures same { OnOk result (self.new.store.scene ≡ self.old.store.scene) }
        ensures looks { OnOk result (has_changed self.new.journal.entries ≡ has_changed self.old.journal.entries) }
        ensures asked { OnOk result (Asked (OnOne lists bucket.now uploads.now) self.old self.new) }
        ensures few { OnOk result (AtMost (length uploads.now) self.old self.new) }
        ensures sent { OnOk result (Sent (IsStill self.old.store.scene) self.old self.new) }
    {
        let mut lines = String::new(self.alloc);
        for upload in uploads {
            self.put_upload(&mut lines, bucket, upload)?;
        }
        Bytes::new(self.alloc, lines.into_bytes())
    }

    /// Lists the live uploads below a path.
    pub(crate) fn uploads(&mut self, path: &S3Path) -> Result<Said, AllocError>
        requires { IsCounted self.old }
        ensures did { IfOk result (λ what. DidList path.now self.old.store.scene what self.new.store.scene) }
        ensures looks { OnOk result (has_changed self.new.journal.entries ≡ has_changed self.old.journal.entries) }
        ensures asked { OnOk result (Asked (UploadSends lists path.now self.old.store.scene) self.old self.new) }
        ensures few { OnOk result (AtMost (1 + 2 * uploads_at path.now self.old.store.scene) self.old self.new) }
        ensures sent { OnOk result (Sent (IsStill self.old.store.scene) self.old self.new) }
    {
        match self.live_uploads(path)? {
            None => refusing(self.alloc, "no-such-bucket", None),
            Some(found) => Ok(fine(self.upload_lines(path.bucket(), found.as_slice())?)),
        }
    }

    /// Aborts an upload.
    fn abort(&mut self, bucket: &Bucket, upload: &UploadRef) -> Result<(), AllocError>
        requires { IsCounted self.old }
        ensures scene { OnOk result (self.new.store.scene ≡ apply self.old.store.scene
            (Request.AbortUpload bucket.now upload.now.key upload.now.upload)) }
        ensures asked { OnOk result (Asked (λ r. r ≡ aborts bucket.now upload.now) self.old self.new) }
        ensures few { OnOk result (AtMost 1 self.old self.new) }
        ensures sent { OnOk result (Sent (AppliedOrNot (aborts bucket.now upload.now) self.old.store.scene)
            self.old self.new) }
    {
        let request = Request::abort_upload(bucket, &upload.key, upload.upload)?;
        match self.answered(&request) {
            Ok(reply) => {
                self.write_down(request, reply);
                Ok(())
            }
            Err(error) => {
                let_go(request);
                Err(error)
            }
        }
    }

    /// Aborts uploads one by one.
    fn abort_all(&mut self, bucket: &Bucket, uploads: &[UploadRef]) -> Result<(), AllocError>
        requires { IsCounted self.old }
        ensures scene { OnOk result (self.new.store.scene ≡ after_aborts self.old.store.scene bucket.now uploads.now) }
        ensures asked { OnOk result (Asked (OnOne aborts bucket.now uploads.now) self.old self.new) }
        ensures few { OnOk result (AtMost (length uploads.now) self.old self.new) }
        ensures sent { OnOk result (Sent (AfterSome bucket.now uploads.now self.old.store.scene) self.old self.new) }
    {
        for upload in uploads {
            self.abort(bucket, upload)?;
        }
        Ok(())
    }

    /// Aborts the live uploads below a path.
    pub(crate) fn abort_uploads(&mut self, path: &S3Path) -> Result<Said, AllocError>
        requires { IsCounted self.old }
        ensures did { IfOk result (λ what. DidAbort path.now self.old.store.scene what self.new.store.scene) }
        ensures asked { OnOk result (Asked (UploadSends aborts path.now self.old.store.scene) self.old self.new) }
        ensures few { OnOk result (AtMost (1 + 2 * uploads_at path.now self.old.store.scene) self.old self.new) }
        ensures sent { OnOk result (Sent (AbortedSome path.now self.old.store.scene) self.old self.new) }
    {
        match self.live_uploads(path)? {
            None => refusing(self.alloc, "no-such-bucket", None),
            Some(found) => {
                self.abort_all(path.bucket(), found.as_slice())?;
                Ok(fine(aborted_line(self.alloc, found.len())?))
            }
        }
    }
}
