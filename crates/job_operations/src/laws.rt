ghost use Rattle.job_operations.specs.Beside.{AttemptsStay};
ghost use Rattle.job_operations.specs.Begins.{ActorsGo};

/// The operations of a job's actors go on as the script says.
pub fn actors_go()
    ensures { ActorsGo }
{}

/// A request that puts nothing below an attempt's directory does not raise the bound on the sends
/// that the attempt's operation has left.
pub fn attempts_stay()
    ensures { AttemptsStay }
{}
