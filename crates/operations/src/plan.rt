ghost use Rattle.std.specs.Prelude.{◌≡◌, ℕ, Bool, IfOk};
ghost use Rattle.s3_types.specs.Store.{Scene};
ghost use Rattle.s3_types.specs.declared.request.Request.{Request};
ghost use Rattle.s3_types.specs.declared.reply.Reply.{Reply};
ghost use Rattle.operations.specs.declared.plan.Step.{Step};
ghost use Rattle.operations.specs.Courses.{IsCourse, MaySend, IsCalm};

use s3_types::{Reply, Request};
use std::alloc::AllocError;

/// Where a reply leads: to the next phase, or to the answer.
#[derive(Drop)]
pub enum Step<P, A> {
    Next(P),
    End(A),
}

/// An operation, described by its phases. Each phase has one request, and the reply leads on.
pub trait Plan: Drop {
    /// The answer of the operation.
    type Answer: Drop;

    /// This is a first phase of an operation.
    ghost starts: { Self → Type 0 };

    /// The request of a phase.
    ghost asks: { Self → Request };

    /// Where a reply leads; the Bool says whether an earlier send of the request was lost.
    ghost goes: { Self → Reply → Bool → Step Self Self.Answer };

    /// Started with that plan in that scene, the operation may be in this phase in this scene; the
    /// Bool says whether an earlier send of the request was lost.
    ghost holds: { Self → Scene → Self → Scene → Bool → Type 0 };

    /// Started so, it may give this answer and leave this scene.
    ghost gives: { Self → Scene → Self.Answer → Scene → Type 0 };

    /// Started so, this may be the scene at any point between two requests.
    ghost always: { Self → Scene → Scene → Type 0 };

    /// Started so, it may send this request.
    ghost sends: { Self → Scene → Request → Type 0 };

    /// Started so, this holds if every send so far was answered.
    ghost calm: { Self → Scene → Self → Scene → Type 0 };

    /// Started so, it gives this answer and leaves this scene if every send was answered.
    ghost leaves: { Self → Scene → Self.Answer → Scene → Type 0 };

    /// At most this many phases are to come.
    ghost left: { Self → Scene → ℕ };

    /// Returns the request of this phase.
    fn ask(&self) -> Result<Request, AllocError>
        ensures { IfOk result (λ request. request ≡ asks self.now) };

    /// Returns where the reply leads.
    fn next(self, reply: &Reply, repeated: bool) -> Result<Step<Self, Self::Answer>, AllocError>
        ensures { IfOk result (λ step. step ≡ goes self reply.now repeated) };

    /// The laws of these definitions; its phases have only requests that it may send. Does
    /// nothing.
    fn laws()
        ensures course { IsCourse starts asks goes holds gives always left }
        ensures asked { MaySend asks holds sends }
        ensures calms { IsCalm starts asks goes calm leaves };
}
