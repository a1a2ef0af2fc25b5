//! Where the magic committer keeps its files below a job's destination, and at which path a file
//! that is written there ends up; and where the staging committers keep theirs in the cluster's
//! file system. (Hadoop, S3A committer architecture; the layout below `__magic` and `jobs` is this
//! project's own.)
//!
//! # What is proved
//!
//! - The layout's keys and paths: they have the texts that `Layout` gives, and the keys are valid
//!   keys.
//! - `places_apart`: equal keys, or equal paths in the cluster, belong to equal places, even if
//!   they are of two jobs. Only a job's own places are below its magic directory.
//! - `is_magic`: says whether an element is exactly `__magic`.
//! - `final_path`: returns the path of the final elements, and fails with NotMagic and
//!   NothingAfter exactly if there are none. The program does not call `final_path`.
#![tactic(auto)]

mod cut;
mod finals;
mod laws;
mod layout;
mod refusal;
mod texts;

pub use finals::{final_path, is_magic};
pub use laws::places_apart;
pub use layout::{
    attempt_dir, cluster_prefix, dest_prefix, file_key, magic_prefix, set_key, staged_set_path,
    success_key, temporary_path,
};
pub use refusal::MagicRefusal;
