//! What the program tells, line by line.
use super::names::{partition_name, task_name};
use super::sentences::sentence_of;
use super::slack::{Limited, least_slack};
use arbiter::arbiter::Arbiter;
use arbiter::station::{Pile, station};
use plan::adoption::UNPLACED;
use plan::plan::Plan;
use std::io;
use tables::reader::Reader;
use tables::room::Room;
use terms::numbers::Picos;
use terms::refusal::Refusal;

/// What is told of: a table file and an allocation.
#[derive(Clone, Copy)]
pub(crate) struct Teller<'a> {
    pub(crate) rt: &'a HostRuntime,
    pub(crate) file: &'a [u8],
    pub(crate) allocation: &'a [u8],
}

impl Teller<'_> {
    /// Tells all of the file and the allocation.
    pub(crate) fn tell_all(&self, room: Room) -> io::Result<()> {
        match Plan::from_file(room, self.file) {
            Ok(plan) => {
                self.tell_counts()?;
                self.tell_allocation()?;
                self.tell_verdict(plan)
            }
            Err(refusal) => {
                println!(self.rt; "Read station.tab: {} bytes.", self.file.len())?;
                self.tell_allocation()?;
                self.tell_refusal(&refusal)
            }
        }
    }

    /// Tells the size of an accepted file, and how many of each kind it has.
    fn tell_counts(&self) -> io::Result<()> {
        let bytes = self.file.len();
        match Reader::new(self.file).header() {
            Ok(header) => {
                let cores = header.cores;
                let partitions = header.partitions;
                let tasks = header.tasks;
                let links = header.links;
                println!(self.rt;
                    "Read station.tab: {bytes} bytes, {cores} cores, {partitions} partitions, {tasks} tasks, {links} links."
                )
            }
            Err(_) => println!(self.rt; "Read station.tab: {bytes} bytes."),
        }
    }

    /// Tells the size of the allocation.
    fn tell_allocation(&self) -> io::Result<()> {
        println!(self.rt; "Read station.alloc: {} bytes.", self.allocation.len())
    }

    /// Tells a refusal.
    fn tell_refusal(&self, refusal: &Refusal) -> io::Result<()> {
        let sentence = sentence_of(refusal);
        println!(self.rt; "Verdict: {refusal}. {sentence}")
    }

    /// Tells what becomes of a plan that is asked to adopt the allocation.
    fn tell_verdict(&self, mut plan: Plan) -> io::Result<()> {
        let pile = station(plan.cores()).unwrap();
        match plan.adopt(self.allocation, &pile) {
            Ok(()) => {
                self.tell_partitions()?;
                println!(self.rt; "Verdict: accepted. Every placed task meets its limit.")?;
                self.tell_least_slack(&plan, &pile)
            }
            Err(Refusal::Late { task }) => {
                self.tell_partitions()?;
                self.tell_refusal(&Refusal::Late { task })?;
                self.tell_late(&plan, task)
            }
            Err(refusal) => self.tell_refusal(&refusal),
        }
    }

    /// Tells where the allocation puts each partition.
    fn tell_partitions(&self) -> io::Result<()> {
        for (k, entry) in self.allocation.iter().enumerate() {
            let name = partition_name(self.file, k);
            if *entry == UNPLACED {
                println!(self.rt; "Partition {k} {name}: unplaced.")?;
            } else {
                println!(self.rt; "Partition {k} {name}: core {entry}.")?;
            }
        }
        Ok(())
    }

    /// Tells of the late task.
    fn tell_late(&self, plan: &Plan, task: usize) -> io::Result<()> {
        let name = task_name(self.file, task);
        let limit = limit_of(plan, task).get();
        println!(self.rt; "Late: task {task} {name}, limit {limit} ps.")
    }

    /// Tells of the task with the least slack.
    fn tell_least_slack(&self, plan: &Plan, pile: &Pile) -> io::Result<()> {
        let mut times = [Picos::NONE; 64];
        let _ = plan.times(&mut times, pile);
        // an array: no memory is asked for once there is a plan
        let mut tasks = times.map(Limited::unlimited);
        for (k, task) in tasks.iter_mut().enumerate() {
            task.limit = limit_of(plan, k);
        }
        let Some(task) = least_slack(&tasks) else {
            return println!(self.rt; "No task is placed.");
        };
        let name = task_name(self.file, task);
        let Limited { time, limit } = tasks[task];
        let slack = tasks[task].slack();
        println!(self.rt;
            "Least slack: task {task} {name}, time {} ps, limit {} ps, slack {slack} ps.",
            time.get(),
            limit.get()
        )
    }
}

/// The limit of a task, and 0 where there is no such task.
fn limit_of(plan: &Plan, task: usize) -> Picos {
    plan.limit(task).unwrap_or(Picos::NONE)
}
