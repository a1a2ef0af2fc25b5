//! Moments of runs written out as data, and whether they are sound as `soundness` defines it.
//!
//! # What is proved
//!
//! A run is sound for each way to keep opening files (`sound_runs`). A run is unsound for each of
//! these reasons (`unsound_runs`):
//!
//! - Readers see a new file before the commit.
//! - A marker exists though a task has no attempt.
//! - Readers see a file of no attempt.
//! - A kept file is gone for a moment.
//! - The choice changes between two moments.
//! - An old marker exists together with a new file.
//! - A marker exists without the job's file.
//! - A replaced file is left together with a marker.
#![tactic(auto)]

ghost use Rattle.soundness_examples.specs.Moments.{SoundRuns, UnsoundRuns};

/// Runs that are sound for readers.
pub fn sound_runs()
    ensures sound { SoundRuns }
{}

/// Runs that are not sound for readers.
pub fn unsound_runs()
    ensures unsound { UnsoundRuns }
{}
