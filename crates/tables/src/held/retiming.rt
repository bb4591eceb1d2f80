//! Other numbers for a task.
ghost use Rattle.std.specs.Prelude.{◌≡◌, ℕ, ◌^◌, ◌≤◌};
ghost use Rattle.tables.specs.Ranges.{Period, execution_on, requests_on};
ghost use Rattle.tables.specs.Retimed.{Retimes, Former, timed};
ghost use Rattle.tables.specs.Tabled.{tabled};

use super::super::model::Task;
use super::super::numbers::Numbers;
use super::super::timing::Timing;
use super::Tables;

impl Tables {
    /// Gives a task other numbers, and answers its former ones; changes nothing where there is no such task.
    pub fn retime(&mut self, task: usize, timing: Timing) -> Option<Timing>
        ensures { Retimes (tabled self.old) task timing result (tabled self.new) }
    {
        let former = self.tasks.get(task).copied()?;
        self.tasks[task] = with_timing(former, timing);
        Some(timing_of(former))
    }
}

/// A task with other numbers.
fn with_timing(task: Task, timing: Timing) -> Task
    ensures { result ≡ timed task timing }
{
    let Numbers {
        period,
        deadline,
        execution,
        requests,
    } = timing.numbers;
    Task {
        partition: task.partition,
        period,
        deadline,
        execution,
        requests,
    }
}

// not `From`: a task by itself need not be in range
/// The numbers of a task in range.
fn timing_of(task: Task) -> Timing
    requires due { Period task.period.0 × ((1 ≤ task.deadline.0) × (task.deadline.0 ≤ 10 ^ 13)) }
    requires job { (q : ℕ) → (execution_on task q ≤ 10 ^ 13) × (requests_on task q ≤ 10 ^ 6) }
    ensures { Former task result }
{
    let Task {
        period,
        deadline,
        execution,
        requests,
        ..
    } = task;
    let numbers = Numbers {
        period,
        deadline,
        execution,
        requests,
    };
    Timing { numbers }
}
