//! The times that a listing shows.
ghost use Rattle.std.specs.Prelude.{◌≡◌, ◌<◌, ◌≤◌, min, length, slice_index_or, take};
ghost use Rattle.tables.specs.Ranges.{no_time};

use terms::numbers::Picos;

/// The times of at most 64 tasks, in the order of their numbers.
// an array with a count: no memory is asked for when a plan is listed
#[derive(Drop)]
pub struct Times {
    entries: [Picos; 64],
    count: usize,
    ghost full: { length entries ≡ 64 },
    ghost few: { count ≤ 64 },
}

impl Times {
    /// The times in the first `count` entries, or in all where there are fewer.
    pub fn new(entries: [Picos; 64], count: usize) -> Times
        ensures entries { result.entries ≡ entries }
        ensures count { result.count ≡ min count 64 }
        ensures given { count ≤ 64 → result.count ≡ count }
    {
        Times {
            entries,
            count: count.min(64),
        }
    }

    /// The times, one after the other.
    pub fn as_slice(&self) -> &[Picos]
        ensures { result.now ≡ take self.now.count self.now.entries }
    {
        &self.entries[..self.count]
    }

    /// How many times there are.
    pub fn count(&self) -> usize
        ensures { result ≡ self.now.count }
    {
        self.count
    }

    /// The time with this number, from 0.
    pub fn at(&self, k: usize) -> Picos
        requires { k < self.now.count }
        ensures is { result ≡ slice_index_or self.now.entries k result }
        ensures entry { result ≡ slice_index_or self.now.entries k no_time }
    {
        self.entries[k]
    }
}
