use job_model::JobPlan;
use s3_types::TextList;

/// The data of a check before a commit: the job's plan, and the partitions of the files that the
/// commit would make visible.
#[derive(Drop)]
pub struct CheckPlan {
    pub job: JobPlan,
    pub partitions: TextList,
}
