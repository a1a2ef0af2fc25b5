/// Which success marker exists at a destination.
#[derive(Clone, Copy, PartialEq, Eq, Debug)]
pub enum Marker {
    /// There is none.
    Absent,
    /// One that existed when the run began, and that no request of the run put.
    Old,
    /// One that a request of the run put.
    New,
}
