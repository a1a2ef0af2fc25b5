ghost use Rattle.fs_tree.specs.Copies.{CopiesResume};

/// Proves that after a stop at any point a copy can be made again: it is not refused, and ends as
/// one that was never stopped.
pub fn copies_resume()
    ensures { CopiesResume }
{}
