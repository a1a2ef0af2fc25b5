/// Which files at the destination the job deletes, by its conflict mode. (Hadoop, S3A committers:
/// fs.s3a.committer.staging.conflict-mode.)
#[derive(Clone, Copy)]
pub enum Displaced {
    Nothing,
    /// All files at the destination.
    Everything,
    /// The files in the partitions that the job writes.
    Partitions,
}
