use s3_types::Text;

/// Why a run is not sound up to a line. The reasons are checked in this order. A path is below the
/// destination; a task is given by its number.
#[derive(Drop)]
pub enum Reason {
    /// Readers see something else than in the opening at this path, before the commit.
    Early(Text),
    /// Readers see something else than in the opening, or a new marker exists, and this task has no attempt.
    Missing(u32),
    /// The line put a file at this path that is neither the opening's nor any attempt's.
    Foreign(Text),
    /// The line took away an opening file at this path, which is kept and which no attempt writes.
    Lost(Text),
    /// What readers see fits none of this task's attempts that explained all moments before.
    Torn(u32),
    /// An old marker exists, and readers see something else than in the opening at this path.
    Stale(Text),
    /// A new marker exists, and readers see the whole of none of this task's attempts that
    /// explained all moments before.
    Half(u32),
    /// A new marker exists, and a replaced opening file is still at this path, which no attempt writes.
    Left(Text),
}
