/// Which opening files a job keeps.
#[derive(Clone, Copy, PartialEq, Eq, Debug)]
pub enum Keeps {
    /// All of them.
    Everything,
    /// Those that are below no directory that its attempts write into.
    Partitions,
    /// None of them.
    Nothing,
}
