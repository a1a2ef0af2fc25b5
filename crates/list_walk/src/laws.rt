ghost use Rattle.list_walk.specs.WalksEnd.{Growth, WalkLaws, SweepLaws, UploadLaws};

/// How much one request adds to the keys, the live uploads and the cluster's files that walks
/// find.
pub fn growth()
    ensures { Growth }
{}

/// How many pages a walk over keys has left, while others send too.
pub fn walks_end()
    ensures { WalkLaws }
{}

/// How many pages and batches a sweep has left, while others send too.
pub fn sweeps_end()
    ensures { SweepLaws }
{}

/// How many pages and uploads a walk over live uploads has left, while others send too.
pub fn upload_walks_end()
    ensures { UploadLaws }
{}
