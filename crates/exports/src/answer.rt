//! What an exported call answers.
ghost use Rattle.std.specs.Prelude.{◌≡◌};
ghost use Rattle.exports.specs.Numbers.{in_numbers};

use terms::refusal::Refusal;

/// An answer as two numbers: 0 and what was asked for, or the number of a refusal and what it tells.
// two numbers, and 255 for want of memory: C has no `Result`
#[repr(C)]
#[derive(Clone, Copy, Debug, PartialEq, Eq)]
pub struct Answer {
    pub number: usize,
    pub tells: usize,
}

impl Answer {
    /// There was no memory. No refusal has this number, the largest of a byte.
    pub fn no_memory() -> Answer
        ensures { (result.number ≡ 255) × (result.tells ≡ 0) }
    {
        Answer {
            number: 255,
            tells: 0,
        }
    }
}

impl From<Result<usize, Refusal>> for Answer {
    // the two numbers of the result
    ghost from_gives = { λ res answer. (answer.number, answer.tells) ≡ in_numbers res };

    fn from(res: Result<usize, Refusal>) -> Answer {
        match res {
            Ok(tells) => Answer { number: 0, tells },
            Err(refusal) => Answer {
                number: refusal.number(),
                tells: refusal.tells(),
            },
        }
    }
}
