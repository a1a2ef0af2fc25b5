ghost use Rattle.std.specs.Prelude.{ℕ, Bool, Option};
ghost use Rattle.s3_types.specs.Store.{Scene};
ghost use Rattle.s3_types.specs.declared.request.Request.{Request};
ghost use Rattle.s3_types.specs.declared.reply.Reply.{Reply};
ghost use Rattle.retries.specs.Retries.{Item};
ghost use Rattle.machine.specs.Standing.{Standing};
ghost use Rattle.job_model.specs.Jobs.{Task};
ghost use Rattle.job_model.specs.declared.ends.TaskEnd.{TaskEnd};
ghost use Rattle.job_protocol.specs.AtWork.{Attempting, task_script, who_of, write_wants, write_told, task_commit_wants, task_commit_told, task_abort_wants, task_abort_told};
ghost use Rattle.job_protocol.specs.Writes.{WriteOver, write_start, write_over};
ghost use Rattle.job_protocol.specs.TaskCommits.{TaskCommitOver, task_commit_start, task_commit_over};
ghost use Rattle.job_protocol.specs.TaskAborts.{TaskAbortOver, task_abort_start, task_abort_over};
ghost use Rattle.task_requests.specs.Writing.{write_fits, write_left};
ghost use Rattle.task_operation.specs.Writes.{write_standing};
ghost use Rattle.task_operation.specs.Commits.{commit_fits, commit_left};
ghost use Rattle.task_operation.specs.CommitStands.{commit_standing};
ghost use Rattle.task_operation.specs.Aborts.{abort_fits, abort_left};
ghost use Rattle.task_operation.specs.AbortStands.{abort_standing};
ghost use Rattle.task_operation.specs.Tasks.{TaskLaws, write_is, commit_is, abort_is};

use std::marker::Model;

/// An operation of a task attempt, for every committer. It names types only and has no values.
pub trait TaskOperation {
    /// The operation with which a plan begins.
    ghost start: { Task → Self };

    /// How the operation ended, if it did.
    ghost over: { Self → Option TaskEnd };

    /// The operation that ended so.
    ghost ended: { TaskEnd → Self };

    /// The request that the operation sends now, if any.
    ghost wants: { Attempting Self → Option Request };

    /// The operation after this reply or fault.
    ghost after: { Attempting Self → Item → Attempting Self };

    /// This reply fits the current request. The flag says whether an earlier send of it was lost.
    ghost fits: { Attempting Self → Reply → Bool → Type 0 };

    /// A bound on the replies and exhausted requests that are still to come while nobody else
    /// sends.
    ghost left: { Attempting Self → Scene → ℕ };

    /// Whether a request of the operation exhausted its retries, or memory ran out.
    ghost standing: { Attempting Self → Standing };

    /// The laws of the operation.
    ghost laws: { TaskLaws wants after fits over standing ended };
}

/// An attempt's write of its files: a magic attempt uploads them, a staging attempt stores them in
/// the cluster. (Hadoop, S3A committer architecture.)
pub struct TheWrite {}

impl Model for TheWrite {
    ghost use Rattle.job_model.specs.declared.ends.TaskEnd.TheVariants.{Done};
    ghost use Rattle.job_protocol.specs.Writes.{Write, WriteOver};

    ghost Value = { Write };

    ghost view = { λ _. WriteOver Done };
}

impl TaskOperation for TheWrite {
    ghost start = { λ plan. write_start (task_script plan) (who_of plan) };

    ghost over = { write_over };

    ghost ended = { WriteOver };

    ghost wants = { write_wants };

    ghost after = { write_told };

    ghost fits = { write_fits };

    ghost left = { write_left };

    ghost standing = { write_standing };

    ghost laws = { write_is };
}

/// An attempt's commit of its task, which publishes the set of its uploads. (Hadoop, S3A committer
/// architecture: task commit.)
pub struct TheCommit {}

impl Model for TheCommit {
    ghost use Rattle.job_model.specs.declared.ends.TaskEnd.TheVariants.{Done};
    ghost use Rattle.job_protocol.specs.TaskCommits.{TaskCommit, TaskCommitOver};

    ghost Value = { TaskCommit };

    ghost view = { λ _. TaskCommitOver Done };
}

impl TaskOperation for TheCommit {
    ghost start = { λ plan. task_commit_start (task_script plan) (who_of plan) };

    ghost over = { task_commit_over };

    ghost ended = { TaskCommitOver };

    ghost wants = { task_commit_wants };

    ghost after = { task_commit_told };

    ghost fits = { commit_fits };

    ghost left = { commit_left };

    ghost standing = { commit_standing };

    ghost laws = { commit_is };
}

/// An attempt's abort of its task, which undoes its work unless it has published. (Hadoop, S3A
/// committer architecture: task abort.)
pub struct TheAbort {}

impl Model for TheAbort {
    ghost use Rattle.job_model.specs.declared.ends.TaskEnd.TheVariants.{Done};
    ghost use Rattle.job_protocol.specs.TaskAborts.{TaskAbort, TaskAbortOver};

    ghost Value = { TaskAbort };

    ghost view = { λ _. TaskAbortOver Done };
}

impl TaskOperation for TheAbort {
    ghost start = { λ plan. task_abort_start (task_script plan) plan.known };

    ghost over = { task_abort_over };

    ghost ended = { TaskAbortOver };

    ghost wants = { task_abort_wants };

    ghost after = { task_abort_told };

    ghost fits = { abort_fits };

    ghost left = { abort_left };

    ghost standing = { abort_standing };

    ghost laws = { abort_is };
}
