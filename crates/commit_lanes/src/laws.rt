ghost use Rattle.commit_lanes.specs.Apart.{SetsAreApart, PathIsFound};

/// If no two tasks of a job write the same path, the uploads of their sets lead to different
/// requests.
pub fn sets_apart()
    ensures { SetsAreApart }
{}

/// The search by keys finds the path that two tasks write, exactly as `same_path` defines it.
pub fn same_paths()
    ensures { PathIsFound }
{}
