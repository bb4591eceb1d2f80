//! The cores of the computer.
ghost use Rattle.std.specs.Prelude.{◌≡◌, ◌<◌};
ghost use Rattle.terms.specs.Cores.{number_of, Numbered};

use super::refusal::Refusal;

/// One of the four cores that a computer has at most, numbered from 0.
#[derive(Clone, Copy, Debug, PartialEq, Eq)]
pub enum Core {
    Zero,
    One,
    Two,
    Three,
}

impl Core {
    /// How many cores a computer has at most.
    pub const MOST: usize = 4;
}

impl TryFrom<usize> for Core {
    type Error = Refusal;

    // the core of this number; refused where there is none
    ghost try_from_gives = { Numbered };

    fn try_from(n: usize) -> Result<Core, Refusal> {
        match n {
            0 => Ok(Core::Zero),
            1 => Ok(Core::One),
            2 => Ok(Core::Two),
            3 => Ok(Core::Three),
            core => Err(Refusal::NoCore { core }),
        }
    }
}

impl From<Core> for usize {
    // the number of the core
    ghost from_gives = { λ core n. (n ≡ number_of core) × (n < 4) };

    fn from(core: Core) -> usize {
        core as usize
    }
}
