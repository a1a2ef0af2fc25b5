//! The cluster's file system beside the store: files by their paths.
//!
//! # What is proved
//!
//! `Cluster`: `apply` answers as `answer` says, and changes the cluster's files as `apply` of the
//! definitions says. The files are a finite map.
#![tactic(auto)]

mod cluster;

pub use cluster::Cluster;
