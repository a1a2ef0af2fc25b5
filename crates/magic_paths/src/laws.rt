ghost use Rattle.magic_paths.specs.Places.{AreApart};

/// The keys and the cluster paths of different places are different, even if they are of two jobs.
pub fn places_apart()
    ensures { AreApart }
{}
