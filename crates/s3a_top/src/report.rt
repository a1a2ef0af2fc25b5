use durable_job::Told;
use s3_types::Journal;

/// What a run did.
///
/// - `status`: the status that the program ends with.
/// - `due`: the status before anything was written.
/// - `journal`: every request of the run, in order.
/// - `told`: for each job the chosen attempts of its commit, and the ends of its events.
#[derive(Drop)]
pub struct Report {
    pub status: u8,
    pub due: u8,
    pub journal: Journal,
    pub told: Told,
}
