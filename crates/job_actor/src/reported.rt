use job_model::TaskSet;
use s3_types::TextList;

/// What a driver knows of its tasks as it begins an operation: the tasks of which an attempt
/// reported its commit, and, if another job shares the destination, the partitions of the files of
/// all attempts that did.
#[derive(Drop)]
pub struct Reported {
    pub tasks: TaskSet,
    pub partitions: Option<TextList>,
}
