//! The demand of a task.
ghost use Rattle.std.specs.Prelude.{◌≡◌, ℕ, ◌*◌, ◌^◌, ◌<◌, ◌≤◌, min, length, get_or, None, vec_len, MatchOption, slice_index_or};
ghost use Rattle.terms.specs.Cores.{number_of};
ghost use Rattle.tables.specs.Ranges.{no_task, no_requests, execution_on, requests_on};
ghost use Rattle.analysis.specs.Demand.{state, state_of_placed, limit, place, own_jobs, other_jobs};
ghost use Rattle.analysis.specs.Examined.{Examines, demand_of};
ghost use Rattle.analysis.specs.Roles.{all_ahead, all_on};
ghost use Rattle.analysis.specs.declared.placement.Placement.{Placement};

use super::examined::Examined;
use super::jobs::Ranged;
use super::placed::{Placed, TaskAt};
use super::reckoned::Reckoned;
use super::role::{Role, Roles};
use arbiter::arbiter::Arbiter;
use arbiter::question::Question;
use tables::held::Tables;
use tables::model::{Partition, Task};
use terms::cores::Core;
use terms::numbers::{Picos, Requests};

/// The task of a number.
fn task_of(tables: &Tables, k: usize) -> Ranged<'_>
    requires { k < vec_len tables.now.tasks }
    ensures is { result.task.now ≡ slice_index_or tables.now.tasks.items k no_task }
    ensures member { result.task.now.partition < vec_len tables.now.partitions }
{
    let task = &tables.tasks()[k];
    Ranged { task }
}

/// The least of a task's deadline, its partition's period and its own period.
fn least_of(x: &Task, partition: &Partition) -> Picos
    ensures { result.0 ≡ min x.now.deadline.0 (min partition.now.period.0 x.now.period.0) }
{
    x.deadline.min(partition.period).min(x.period)
}

/// The limit of task `i`, wherever it is placed: the least of its deadline, its partition's period and its own period.
pub(crate) fn limit_of(tables: &Tables, i: usize) -> Picos
    requires { i < vec_len tables.now.tasks }
    ensures is { (q : Placement) → result.0 ≡ limit (state tables.now q) i }
    ensures small { result.0 ≤ 10 ^ 13 }
{
    let x = task_of(tables, i).task;
    least_of(x, &tables.partitions()[x.partition])
}

/// What jobs ask for: execution time, and requests.
#[derive(Clone, Copy, Debug, PartialEq, Eq)]
struct Share {
    execution: Picos,
    requests: Requests,
}

impl Ranged<'_> {
    /// What one job of the task asks for on its core `p`.
    fn job(&self, p: Core) -> Share
        ensures execution { result.execution.0 ≡ execution_on self.now.task.now (number_of p) }
        ensures requests { result.requests.0 ≡ requests_on self.now.task.now (number_of p) }
        ensures small { (result.execution.0 ≤ 10 ^ 13) × (result.requests.0 ≤ 10 ^ 6) }
    {
        let core = usize::from(p);
        Share {
            execution: self.task.execution[core],
            requests: self.task.requests[core],
        }
    }

    /// What the jobs of a task of the same partition ask for on core `p` up to `t`.
    fn own_share(&self, p: Core, t: Reckoned) -> Share
        ensures execution { result.execution.0 ≡ own_jobs self.now.task.now t.t.0 * execution_on self.now.task.now (number_of p) }
        ensures requests { result.requests.0 ≡ own_jobs self.now.task.now t.t.0 * requests_on self.now.task.now (number_of p) }
        ensures small { (result.execution.0 ≤ 10 ^ 17) × (result.requests.0 ≤ 10 ^ 10) }
    {
        let job = self.job(p);
        let jobs = self.own_jobs(t);
        Share {
            execution: job.execution.times(jobs),
            requests: job.requests.times(jobs),
        }
    }

    /// How many requests the jobs of a task on another core `q` make up to `t`.
    fn other_share(&self, q: Core, t: Reckoned) -> Requests
        ensures is { result.0 ≡ other_jobs self.now.task.now t.t.0 * requests_on self.now.task.now (number_of q) }
        ensures small { result.0 ≤ 10 ^ 10 }
    {
        self.task.requests[usize::from(q)].times(self.other_jobs(t))
    }
}

impl TaskAt<'_> {
    /// The task under examination, if it is placed.
    pub(crate) fn examine(&self) -> Option<Examined>
        ensures { MatchOption result (place (state_of_placed self.now.placed) self.now.i ≡ None) (Examines (state_of_placed self.now.placed) self.now.i) }
    {
        let tables = self.placed.tables;
        let x = task_of(tables, self.i);
        let core = self.placed.placement.core_of(x.task.partition)?;
        let job = x.job(core);
        Some(Examined {
            core,
            execution: job.execution,
            requests: job.requests,
            limit: limit_of(tables, self.i),
            sharing: self.placed.sharing,
            roles: self.roles(core),
        })
    }
}

/// What the jobs of all tasks ask for up to a time: execution time and requests of those ahead, and requests on each
/// other core.
#[derive(Clone, Copy)]
struct Asked {
    execution: Picos,
    requests: Requests,
    others: [Requests; 4],
}

/// What the jobs of all tasks ask for up to `t` in the demand of a task on core `p`, in one pass.
fn asked_by(tables: &Tables, roles: &Roles, p: Core, t: Reckoned) -> Asked
    ensures execution { result.execution.0 ≡ all_ahead tables.now.tasks.items roles.now.of (λ x. execution_on x (number_of p)) t.t.0 }
    ensures requests { result.requests.0 ≡ all_ahead tables.now.tasks.items roles.now.of (λ x. requests_on x (number_of p)) t.t.0 }
    ensures others { (q : ℕ) → q < 4 → (get_or result.others q no_requests).0 ≡ all_on tables.now.tasks.items roles.now.of q t.t.0 }
    ensures four { length result.others ≡ 4 }
    ensures small { (result.execution.0 ≤ 64 * 10 ^ 17) × (result.requests.0 ≤ 64 * 10 ^ 10) }
{
    let tasks = tables.tasks();
    let mut execution = Picos::NONE;
    let mut requests = Requests::NONE;
    let mut others = [Requests::NONE; 4];
    // the part by its number: zipped with the tasks, the invariant lacks the lists that it speaks of
    for (k, task) in tasks.iter().enumerate() {
        let x = Ranged { task };
        match roles.at(k) {
            Role::Ahead => {
                let share = x.own_share(p, t);
                execution += share.execution;
                requests += share.requests;
            }
            Role::Other(q) => {
                others[usize::from(q)] += x.other_share(q, t);
            }
            Role::Aside => {}
        }
    }
    Asked {
        execution,
        requests,
        others,
    }
}

impl Placed<'_> {
    /// The demand of a task under examination up to `t`.
    pub(crate) fn demanded<B: Arbiter>(&self, task: &Examined, t: Reckoned, arbiter: &B) -> Picos
        ensures { result.0 ≡ demand_of self.now.tables.now.tasks.items task.now (B.bound arbiter.now) t.t.0 }
    {
        let asked = asked_by(self.tables, &task.roles, task.core, t);
        let own = task.requests + asked.requests;
        let others = asked.others;
        let question = Question {
            core: task.core,
            t: t.t,
            own,
            others,
            sharing: task.sharing,
        };
        task.execution + asked.execution + arbiter.answer(&question)
    }
}
