use crate::hands::Hand;
use job_model::{ActorEnd, Event, EventEnd, PickList, Script};
use job_states::States;
use s3_service::Service;
use s3_types::Journal;
use std::alloc::Global;
use store_link::Lossy;

/// The part of a run that belongs to one job. The first hand is the driver's; the hands of the
/// attempts follow in script order.
#[derive(Drop)]
pub struct JobRun<W> {
    pub script: Script,
    /// The numbers of the run's events that belong to the other job.
    pub others: Vec<u32>,
    /// Whether another job shares the destination.
    pub shares: bool,
    pub states: States,
    pub hands: Vec<Hand<W>>,
    pub ends: Vec<EventEnd>,
    /// The event in progress, and below it the operations that ended in it.
    pub event: Option<Event>,
    pub finished: Vec<ActorEnd>,
    pub picks: PickList,
}

/// What jobs over one store share: the store's content as the run began, the store as it is, the
/// journal of all that was sent, and the number of events so far.
#[derive(Drop)]
pub struct Shared {
    pub alloc: Global,
    pub opening: Service,
    pub store: Lossy,
    pub journal: Journal,
    pub events: u32,
}

/// A job's own part of a run, with what it shares with other jobs.
#[derive(Drop)]
pub struct Body<W> {
    pub side: JobRun<W>,
    pub shared: Shared,
}
