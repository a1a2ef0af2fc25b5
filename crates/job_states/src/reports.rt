ghost use Rattle.std.specs.Prelude.{◌≡◌, ℕ, ◌&&◌, ◌||◌, ◌<◌, ◌^◌, Bool, false, nat_eq, length, replicate, slice_get, slice_index_or, unwrap_or, IfOk, OnOk};
ghost use Rattle.job_model.specs.Jobs.{has_task};
ghost use Rattle.job_states.specs.Stands.{tested};
ghost use Rattle.job_states.specs.inner.Stands.{first_false};

use job_model::TaskSet;
use std::alloc::{AllocError, Global};
use std::marker::Model;

/// The reported tasks of a job: those with an attempt whose commit ended with Done since the last
/// restart. Contracts see a truth value for each task.
#[derive(Drop)]
pub struct Reports {
    told: Vec<bool>,
}

impl Model for Reports {
    ghost use Rattle.std.specs.Prelude.{Bool, List, length, ◌<◌, ◌^◌};

    ghost Value = { List Bool };

    ghost view = { λ r. r.told.items };

    ghost invariant = { λ r. length r.told.items < 2 ^ 32 };
}

/// A list of `count` tasks, none of which is reported.
fn untold(alloc: Global, count: usize) -> Result<Vec<bool>, AllocError>
    ensures { IfOk result (λ told. told.items ≡ replicate count false) }
{
    vec![in alloc; false; count]
}

/// The lowest task that is not reported, or none.
fn first_untold(told: &[bool]) -> Option<u32>
    requires { length told.now < 2 ^ 32 }
    ensures { result ≡ first_false 0 told.now }
{
    for (task, is_told) in told.iter().enumerate() {
        if !*is_told {
            return Some(task as u32);
        }
    }
    None
}

/// Adds a task to the set, if it is reported.
fn add_told(set: &mut TaskSet, task: u32, is_told: bool) -> Result<(), AllocError>
    ensures { OnOk result ((t : ℕ) → has_task set.new t ≡ ((is_told && nat_eq t task) || has_task set.old t)) }
{
    if is_told {
        set.add(task)?;
    }
    Ok(())
}

/// The reported tasks.
fn told_tasks(alloc: Global, told: &[bool]) -> Result<TaskSet, AllocError>
    requires { length told.now < 2 ^ 32 }
    ensures { IfOk result (λ set. (t : ℕ) → has_task set t ≡ unwrap_or (slice_get told.now t) false) }
{
    let mut set = TaskSet::new(alloc);
    for (task, is_told) in told.iter().enumerate() {
        add_told(&mut set, task as u32, *is_told)?;
    }
    Ok(set)
}

/// Marks all tasks as not reported.
fn untell(told: &mut [bool])
    ensures { (k : ℕ) → k < length told.new → slice_index_or told.new k false ≡ false }
{
    for is_told in told.iter_mut() {
        *is_told = false;
    }
}

impl Reports {
    /// `tasks` tasks, none of which is reported. Later reports take no more memory.
    pub fn new(alloc: Global, tasks: u32) -> Result<Reports, AllocError>
        ensures { IfOk result (λ reports. reports ≡ tested tasks (λ t. false)) }
    {
        let told = untold(alloc, tasks as usize)?;
        Ok(Reports { told })
    }

    /// Marks a task as reported. Takes no memory.
    pub fn tell(&mut self, task: u32)
        ensures { (tasks : ℕ) (f : ℕ → Bool) → self.old ≡ tested tasks f → self.new
            ≡ tested tasks (λ t. f t || nat_eq t task) }
    {
        if (task as usize) < self.told.len() {
            self.told[task as usize] = true;
        }
    }

    /// Marks all tasks as not reported. Takes no memory.
    pub fn forget(&mut self)
        ensures { (tasks : ℕ) (f : ℕ → Bool) → self.old ≡ tested tasks f → self.new ≡ tested tasks (λ t. false) }
    {
        untell(&mut self.told);
    }

    /// The lowest task that is not reported, or none. Takes no memory.
    pub fn missing(&self) -> Option<u32>
        ensures { result ≡ first_false 0 self.now }
    {
        first_untold(&self.told)
    }

    /// The reported tasks.
    pub fn tasks(&self, alloc: Global) -> Result<TaskSet, AllocError>
        ensures { IfOk result (λ set. (t : ℕ) → has_task set t ≡ unwrap_or (slice_get self.now t) false) }
    {
        told_tasks(alloc, &self.told)
    }
}
