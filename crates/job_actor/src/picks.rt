ghost use Rattle.job_actor.specs.Picks.{PicksGo};

/// How the picks of a job's commit come about.
pub fn picks_go()
    ensures { PicksGo }
{}
