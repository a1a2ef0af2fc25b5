use job_actor::Plan;

/// What an actor has in hand.
#[derive(Drop)]
pub enum Hand<W> {
    /// The actor's plan, while the actor is idle.
    Plan(Plan),
    /// The operation that the actor began last.
    At(W),
    /// Nothing: the actor is dead, or gets a new plan when it begins an operation.
    Empty,
}
