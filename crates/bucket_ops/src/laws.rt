ghost use Rattle.bucket_ops.specs.Walking.{FindsAll};

/// A walk below a prefix that receives the pages that the store gives ends with exactly the
/// existing keys that begin with the prefix, each once, in the order of their bytes. (Amazon S3
/// API: ListObjectsV2.)
pub fn walks_find_all()
    ensures { FindsAll }
{}
