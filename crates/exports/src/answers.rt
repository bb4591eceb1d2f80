//! Answers as numbers, one after the other.
ghost use Rattle.std.specs.Iterator.{IsFinite};
ghost use Rattle.std.specs.Prelude.{◌≡◌, ◌+◌, ◌<◌, ◌≤◌, length, slice_set};

use super::answer::Answer;
use terms::refusal::Refusal;

/// A buffer that numbers are added to, from its front on; past its end they are lost.
// the buffer is lent by the C side, and does not grow; it is written by index, since what is written through `get_mut` is
// not known afterwards
#[derive(Drop)]
pub(crate) struct Answers<'a> {
    out: &'a mut [u64],
    at: usize,
}

impl<'a> Answers<'a> {
    /// A buffer with nothing added.
    pub(crate) fn new(out: &'a mut [u64]) -> Answers<'a>
        ensures { (result.out.now ≡ out.old) × (result.at ≡ 0) }
    {
        Answers { out, at: 0 }
    }

    /// How many numbers have been added.
    pub(crate) fn len(&self) -> usize
        ensures { result ≡ self.now.at }
    {
        self.at
    }

    /// Adds a number, if there is room.
    pub(crate) fn number(&mut self, n: u64)
        ensures added { self.old.at < length self.old.out.now → (self.new.out.now ≡ slice_set self.old.out.now self.old.at n) × (self.new.at ≡ self.old.at + 1) }
        ensures lost { length self.old.out.now ≤ self.old.at → (self.new.out.now ≡ self.old.out.now) × (self.new.at ≡ self.old.at) }
    {
        if self.at < self.out.len() {
            self.out[self.at] = n;
            self.at += 1;
        }
    }

    /// Adds a count, a length or an index.
    pub(crate) fn count(&mut self, n: usize) {
        self.number(n as u64);
    }

    /// Adds the two numbers of a result.
    pub(crate) fn result(&mut self, res: Result<usize, Refusal>) {
        let answer = Answer::from(res);
        self.count(answer.number);
        self.count(answer.tells);
    }

    /// Adds 0 and 0, or the number of a refusal and what it tells.
    pub(crate) fn verdict(&mut self, verdict: Result<(), Refusal>) {
        self.result(verdict.map(|()| 0));
    }

    /// Adds each of some numbers.
    pub(crate) fn numbers<I: Iterator<Item = u64>>(&mut self, numbers: I)
        requires may { I.can_next numbers }
        requires ends { IsFinite (I.remaining numbers) }
    {
        for n in numbers {
            self.number(n);
        }
    }
}
