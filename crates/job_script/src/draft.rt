use crate::head::Head;
use job_model::{Attempts, EventList};
use s3_types::Fate;

/// Consecutive sends with the same fate. `first` counts from 1.
#[derive(Clone, Copy)]
pub struct Loss {
    pub first: u64,
    pub fate: Fate,
    pub count: u32,
}

/// The groups of lines, in the order in which they come.
#[derive(Clone, Copy)]
pub enum Group {
    Head,
    Attempts,
    Events,
}

/// The contents of the lines so far.
#[derive(Drop)]
pub struct Draft {
    pub group: Group,
    pub head: Head,
    pub attempts: Attempts,
    /// The line of the first attempt whose task is not below the number of tasks.
    pub outside: Option<u64>,
    /// The number of files.
    pub files: u64,
    /// The number of bytes of all files.
    pub bytes: u64,
    pub events: EventList,
}
