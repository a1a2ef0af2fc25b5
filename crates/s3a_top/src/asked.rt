use s3a_words::Command;
use std::alloc::Global;

/// A command to do, with the allocator to use for it.
#[derive(Clone, Copy)]
pub struct Asked<'c> {
    pub alloc: Global,
    pub command: &'c Command,
}
