//! Room for the greatest tables, asked for once.
ghost use Rattle.std.specs.Prelude.{◌≡◌, ◌≤◌, [], vec_len, vec_capacity};

use super::model::{Link, Partition, Task};
use super::row::Row;
use std::alloc::{AllocError, Global};

/// Room for as many rows of each kind as a file may have. Reading into it wants no more memory.
#[derive(Drop)]
pub struct Room {
    pub(crate) partitions: Vec<Partition>,
    pub(crate) tasks: Vec<Task>,
    pub(crate) links: Vec<Link>,
    ghost empty: { (partitions.items ≡ []) × (tasks.items ≡ []) × (links.items ≡ []) },
    ghost none: { (vec_len partitions ≡ 0) × (vec_len tasks ≡ 0) × (vec_len links ≡ 0) },
    ghost wide: { (16 ≤ vec_capacity partitions) × (64 ≤ vec_capacity tasks) × (120 ≤ vec_capacity links) },
}

impl Room {
    /// Asks for the room. The only refusal is want of memory.
    pub fn reserve(heap: Global) -> Result<Room, AllocError> {
        Ok(Room {
            partitions: Vec::with_capacity(heap, Partition::GREATEST)?,
            tasks: Vec::with_capacity(heap, Task::GREATEST)?,
            links: Vec::with_capacity(heap, Link::GREATEST)?,
        })
    }
}
