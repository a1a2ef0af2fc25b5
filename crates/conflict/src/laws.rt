ghost use Rattle.conflict.specs.ChecksEnd.{ChecksFall, ChecksTell, DeletionsTell, PartitionsTell};

/// The partitions of paths do not depend on the order of the paths.
pub fn partitions_tell()
    ensures { PartitionsTell }
{}

/// A task commit that checks its partitions goes on as this check does.
pub fn checks_tell()
    ensures { ChecksTell }
{}

/// A job commit that deletes for a replace mode goes on as this deletion does.
pub fn deletions_tell()
    ensures { DeletionsTell }
{}

/// Bounds the replies and exhausted requests that a check before a commit has left while other
/// actors send too.
pub fn checks_end()
    ensures { ChecksFall }
{}
