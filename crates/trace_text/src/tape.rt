use store_link::MemStore;

/// How far a trace is written: its text so far, how many sends are written, and whether the job's
/// commit has begun. While one of the first `lost` sends is left, the store and the cluster are as
/// the next send finds them. After these, no reply was lost.
#[derive(Drop)]
pub struct Tape {
    pub store: MemStore,
    pub lost: usize,
    pub text: String,
    pub at: usize,
    pub begun: bool,
}
