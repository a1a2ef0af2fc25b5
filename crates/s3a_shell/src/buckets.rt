ghost use Rattle.std.specs.Prelude.{◌≡◌, None, IfOk, OnOk, option_map};
ghost use Rattle.s3_types.specs.Answer.{answer, apply};
ghost use Rattle.s3a_shell.specs.inner.Sendings.{IsCounted, Sent, Asked, AtMost};
ghost use Rattle.s3a_shell.specs.Sendings.{AppliedOrNot};
ghost use Rattle.s3a_shell.specs.Doings.{refusal_word, refused_or_fine, DidMake};

use crate::said::{Said, fine, refusing};
use crate::session::Session;
use s3_types::{Bytes, Refusal, Reply, Request, Text, let_go};
use std::alloc::{AllocError, Global};

/// The word for the refusal of a new bucket, if this reply is one.
fn refusal_word(reply: &Reply) -> Option<&'static str>
    ensures { option_map (λ word. word.now) result ≡ refusal_word reply.now }
{
    match reply {
        Reply::Refused(Refusal::BadName) => Some("bad-name"),
        Reply::Refused(Refusal::BucketExists) => Some("bucket-exists"),
        _ => None,
    }
}

/// What `mb` says: nothing, or the refusal.
fn making_said(alloc: Global, why: Option<&str>) -> Result<Said, AllocError>
    ensures { IfOk result (λ what. what ≡ refused_or_fine (option_map (λ w. w.now) why.entry)) }
{
    match why {
        Some(word) => refusing(alloc, word, None),
        None => Ok(fine(Bytes::empty(alloc)?)),
    }
}

impl Session {
    /// Asks the store for a new bucket, and returns the word of the refusal if it is refused.
    fn ask_bucket(&mut self, name: &Text) -> Result<Option<&'static str>, AllocError>
        requires { IsCounted self.old }
        ensures word { IfOk result (λ word. option_map (λ w. w.now) word ≡ refusal_word
            (answer self.old.store.scene (Request.MakeBucket name.now))) }
        ensures scene { OnOk result (self.new.store.scene ≡ apply self.old.store.scene (Request.MakeBucket name.now)) }
        ensures asked { OnOk result (Asked (λ r. r ≡ Request.MakeBucket name.now) self.old self.new) }
        ensures few { OnOk result (AtMost 1 self.old self.new) }
        ensures sent { OnOk result (Sent (AppliedOrNot (Request.MakeBucket name.now) self.old.store.scene)
            self.old self.new) }
    {
        let request = Request::make_bucket(name)?;
        match self.answered(&request) {
            Ok(reply) => {
                let why = refusal_word(&reply);
                self.write_down(request, reply);
                Ok(why)
            }
            Err(error) => {
                let_go(request);
                Err(error)
            }
        }
    }

    /// Makes a bucket.
    pub(crate) fn make_bucket(&mut self, name: &Text) -> Result<Said, AllocError>
        requires { IsCounted self.old }
        ensures did { IfOk result (λ what. DidMake name.now self.old.store.scene what self.new.store.scene) }
        ensures asked { OnOk result (Asked (λ r. r ≡ Request.MakeBucket name.now) self.old self.new) }
        ensures few { OnOk result (AtMost 1 self.old self.new) }
        ensures sent { OnOk result (Sent (AppliedOrNot (Request.MakeBucket name.now) self.old.store.scene)
            self.old self.new) }
    {
        let why = self.ask_bucket(name)?;
        making_said(self.alloc, why)
    }
}
