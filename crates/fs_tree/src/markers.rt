use s3_types::{Key, Sequence};

/// The kind of a marker. (Hadoop, S3A: directory markers, the marker tool.)
#[derive(Clone, Copy, PartialEq, Eq)]
pub enum MarkerKind {
    /// It has no bytes, and another key begins with it: the directory exists without it.
    Surplus,
    /// It has no bytes, and no other key begins with it: the directory is empty.
    Leaf,
    /// It has bytes.
    Odd,
}

/// A marker below a path.
#[derive(Drop)]
pub struct MarkerEntry {
    pub key: Key,
    pub kind: MarkerKind,
}

/// The markers below a path, in the order of their keys.
pub type MarkerList = Sequence<MarkerEntry>;
