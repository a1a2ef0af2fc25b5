ghost use Rattle.std.specs.Prelude.{◌≡◌, ℕ, ◌≤◌, ◌^◌, true, false, length, None, IfOk, OnOk};
ghost use Rattle.std.specs.List.{AllByRecursion};
ghost use Rattle.s3_types.specs.Store.{opening};
ghost use Rattle.s3_types.specs.Moment.{moment, IsHonest};
ghost use Rattle.s3_types.specs.declared.request.Actor.TheVariants as actors;
ghost use Rattle.machine.specs.Counted.{AreAnswered};
ghost use Rattle.machine.specs.Turns.{AreBy};
ghost use Rattle.s3a_shell.specs.Asking.{MaySend};
ghost use Rattle.s3a_shell.specs.Most.{most_requests};
ghost use Rattle.s3a_shell.specs.inner.Sendings.{IsCounted, Sent, Asked, AtMost};
ghost use Rattle.s3a_shell.specs.Sendings.{is_refusal, is_taken, is_change, has_changed};
ghost use Rattle.s3a_shell.specs.Doings.{is_of_shell, only_looks, Does, MayStandAt};
ghost use Rattle.s3_service.specs.Ids.{AreBelow};
ghost use Rattle.store_frame.specs.Held.{upload_at};
ghost use Rattle.s3a_shell.specs.Stays.{OnlyIn, bucket_in, ended_by};

use crate::said::Said;
use crate::session::Session;
use dir_markers::MarkerPolicy;
use log_format::is_changing;
use s3_service::Service;
use s3_types::{Bytes, Entry, Journal, Outcome, Reply, let_go};
use s3a_words::{Command, CommandKind};
use std::alloc::{AllocError, Global};

/// The end of a command of the shell.
///
/// - `service`: the store that the command leaves.
/// - `changed`: true if that store may differ from the one before.
/// - `refused`: true if the command was refused.
/// - `text`: the text to write.
/// - `journal`: the requests that were sent.
#[derive(Drop)]
pub struct ShellEnd {
    pub service: Service,
    pub changed: bool,
    pub refused: bool,
    pub text: Bytes,
    pub journal: Journal,
}

fn is_refusal(reply: &Reply) -> bool
    ensures { result ≡ is_refusal reply.now }
{
    match reply {
        Reply::Refused(_) => true,
        _ => false,
    }
}

fn is_taken(outcome: &Outcome) -> bool
    ensures { result ≡ is_taken outcome.now }
{
    match outcome {
        Outcome::Answered(reply) => !is_refusal(reply),
        Outcome::Slow => false,
        Outcome::RequestLost => false,
        Outcome::ReplyLost => true,
    }
}

fn is_change(entry: &Entry) -> bool
    ensures { result ≡ is_change entry.now }
{
    is_changing(&entry.request) && is_taken(&entry.outcome)
}

fn has_changed(entries: &[Entry]) -> bool
    ensures { result ≡ has_changed entries.now }
{
    entries.iter().any(|entry| is_change(entry))
}

/// True if the command only looks: `ls`, `stat`, `cat`, `uploads` and `markers`. `shell` sends no
/// change for it.
pub fn only_looks(command: &Command) -> bool
    ensures { result ≡ only_looks command.now }
{
    matches!(command.kind(), CommandKind::Looks)
}

impl Session {
    /// Does a command.
    fn obey(&mut self, command: &Command, bytes: &Bytes) -> Result<Said, AllocError>
        requires one { is_of_shell command.now ≡ true }
        requires counted { IsCounted self.old }
        ensures did { IfOk result (λ what. Does command.now bytes.now self.old.store.scene what self.new.store.scene) }
        ensures reads { OnOk result (only_looks command.now ≡ true
            → has_changed self.new.journal.entries ≡ has_changed self.old.journal.entries) }
        ensures asked { OnOk result (Asked (MaySend command.now bytes.now self.old.store.scene) self.old self.new) }
        ensures few { OnOk result (AtMost (most_requests command.now bytes.now self.old.store.scene) self.old self.new) }
        ensures sent { OnOk result (Sent (MayStandAt command.now bytes.now self.old.store.scene) self.old self.new) }
    {
        match command {
            Command::Mb { name } => self.make_bucket(name),
            Command::Ls { path } => self.ls(path),
            Command::Stat { path } => self.stat(path),
            Command::Cat { path } => self.cat(path),
            Command::Put { path } => self.put(path, bytes, false, MarkerPolicy::Keep),
            Command::PutForce { path } => self.put(path, bytes, true, MarkerPolicy::Keep),
            Command::PutDrop { path } => self.put(path, bytes, false, MarkerPolicy::Delete),
            Command::Mkdir { path } => self.mkdir(path),
            Command::Mv { from, to } => self.rename(from, to),
            Command::Cp { from, to } => self.copy(from, to),
            Command::Rm { path } => self.remove(path, false),
            Command::Rmr { path } => self.remove(path, true),
            Command::Uploads { path } => self.uploads(path),
            Command::AbortUploads { path } => self.abort_uploads(path),
            Command::Markers { path } => self.markers(path),
            Command::CleanMarkers { path } => self.clean_markers(path),
            Command::FillMarkers { path } => self.fill_markers(path),
            Command::Init { .. } => unreachable!(),
            Command::Job => unreachable!(),
            Command::Gen { .. } => unreachable!(),
            Command::Twins => unreachable!(),
        }
    }

    /// Ends a command with its text.
    fn ended(self, said: Said) -> ShellEnd
        ensures below { AreBelow result.service.buckets result.service.next }
        ensures end { result ≡ record {
          service = self.store.scene.content;
          changed = has_changed self.journal.entries;
          refused = said.refused;
          text = said.text;
          journal = self.journal;
        } }
    {
        let Session {
            alloc: _,
            store,
            journal,
        } = self;
        let changed = has_changed(journal.as_slice());
        let Said { refused, text } = said;
        let service = store.into_service();
        let _ = service.next_upload();
        ShellEnd {
            service,
            changed,
            refused,
            text,
            journal,
        }
    }
}

/// Does a command of the shell on a store; `bytes` are the command's input. (Hadoop FileSystem
/// specification.)
///
/// - `text` is what the command says. If it is refused, it is the line `refused WORD`, where some
///   words are followed by a blank and the value that the refusal names.
/// - `changed` is true if some request that is no read and no list was answered and not refused. If
///   it is false, or the command was refused, the store is as it was.
/// - At every point, wherever the command stops, the store is as the command may leave it there
///   (`MayStandAt`).
/// - Each request is one of the command's operation (`MaySend`); the command sends none that it
///   does not need. It sends at most as many as `most_requests` gives for what its bucket holds,
///   and each once.
/// - A command that only looks sends no change. At the end no upload is live that the command
///   began.
/// - Markers are kept, except by `put-drop`.
///
/// Fails with `AllocError` only if memory runs out.
pub fn shell(
    alloc: Global,
    command: &Command,
    service: Service,
    bytes: Bytes,
) -> Result<ShellEnd, AllocError>
    requires one { is_of_shell command.now ≡ true }
    requires few { service.next ≤ 2 ^ 62 }
    ensures did { IfOk result (λ end. Does command.now bytes (opening service) (record {
      refused = end.refused;
      text = end.text;
    }) (moment service end.journal.entries (length end.journal.entries))) }
    ensures content { IfOk result (λ end. end.service ≡
        (moment service end.journal.entries (length end.journal.entries)).content) }
    ensures by { IfOk result (λ end. AreBy actors.Shell 0 end.journal.entries) }
    ensures answered { IfOk result (λ end. AreAnswered end.journal.entries) }
    ensures honest { IfOk result (λ end. IsHonest service end.journal.entries) }
    ensures asked { IfOk result (λ end.
        AllByRecursion (λ e. MaySend command.now bytes (opening service) e.request) end.journal.entries) }
    ensures few { IfOk result (λ end. length end.journal.entries ≤ most_requests command.now bytes (opening service)) }
    ensures moments { IfOk result (λ end. (m : ℕ) →
        MayStandAt command.now bytes (opening service) (moment service end.journal.entries m)) }
    ensures changed { IfOk result (λ end. end.changed ≡ has_changed end.journal.entries) }
    ensures same { IfOk result (λ end. end.changed ≡ false → end.service ≡ service) }
    ensures ended { IfOk result (λ end. (id : ℕ) → service.next ≤ id →
        upload_at end.service (bucket_in command.now) id ≡ None) }
    ensures reads { IfOk result (λ end. only_looks command.now ≡ true → end.changed ≡ false) }
    ensures refused { IfOk result (λ end. end.refused ≡ true → end.service ≡ service) }
    ensures stays { IfOk result (λ end.
        OnlyIn (bucket_in command.now) (ended_by command.now service) service end.service) }
{
    let mut session = Session::new(alloc, service);
    match session.obey(command, &bytes) {
        Ok(said) => Ok(session.ended(said)),
        Err(error) => {
            let_go(session);
            Err(error)
        }
    }
}
