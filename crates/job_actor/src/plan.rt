use job_model::{JobPlan, TaskPlan};

/// What an idle actor keeps for its next operation: the driver the plan of the job, an attempt its
/// own plan.
#[derive(Drop)]
pub enum Plan {
    Job(JobPlan),
    Task(TaskPlan),
}
