ghost use Rattle.cleanup.specs.CleansEnd.{CleansEnd, SparingsEnd};

/// Bounds the replies and exhausted requests that a clean has left while other actors send too.
pub fn cleans_end()
    ensures { CleansEnd }
{}

/// Bounds the replies and exhausted requests that a sparing clean has left while other actors send
/// too.
pub fn sparings_end()
    ensures { SparingsEnd }
{}
