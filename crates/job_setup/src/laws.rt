ghost use Rattle.job_setup.specs.SetupsEnd.{SetupsEnd};

/// Bounds the replies and exhausted requests that a set-up has left while other actors send too.
pub fn set_ups_end()
    ensures { SetupsEnd }
{}
