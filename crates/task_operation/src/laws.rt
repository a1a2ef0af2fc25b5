ghost use Rattle.job_protocol.specs.AtWork.{task_abort_wants, task_abort_told, task_commit_wants, task_commit_told, write_wants, write_told};
ghost use Rattle.job_protocol.specs.Measures.{FallsAmong};
ghost use Rattle.task_operation.specs.Commits.{commit_fits, commit_left};
ghost use Rattle.task_operation.specs.Aborts.{abort_fits, abort_left};
ghost use Rattle.task_requests.specs.Writing.{write_fits, write_left};

/// The bound on the requests that a write of files has left falls with each reply that fits and
/// with each request that exhausts its retries. Another actor's request never raises it.
pub fn writes_end()
    ensures falls { FallsAmong write_wants write_told write_fits write_left 0 }
{}

/// The bound on the requests that a task abort has left falls with each reply that fits and with
/// each request that exhausts its retries. Another actor's request raises it by at most 1.
pub fn aborts_end()
    ensures falls { FallsAmong task_abort_wants task_abort_told abort_fits abort_left 1 }
{}

/// The bound on the requests that a task commit has left falls with each reply that fits and with
/// each request that exhausts its retries. Another actor's request raises it by at most 1.
pub fn commits_end()
    ensures falls { FallsAmong task_commit_wants task_commit_told commit_fits commit_left 1 }
{}
