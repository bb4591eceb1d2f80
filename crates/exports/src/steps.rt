//! The steps of a script: calls on a plan, and questions.
ghost use Rattle.std.specs.Prelude.{◌≡◌, ◌≤◌};

use super::script::{NoCode, Script};
use arbiter::question::{Question, Sharing};
use plan::change::Change;
use tables::numbers::Numbers;
use terms::cores::Core;
use terms::numbers::{Picos, Requests};

/// The longest buffer of times: longer than any plan needs.
pub(crate) const MOST_TIMES: usize = 80;

/// The longest buffer of bytes: longer than any listing.
pub(crate) const MOST_BYTES: usize = 3_700;

/// Why a length is refused: no buffer is so long.
#[derive(Clone, Copy, Debug, PartialEq, Eq)]
pub(crate) struct TooLong;

/// The length of a buffer, at most so many.
#[derive(Clone, Copy, Debug, PartialEq, Eq)]
pub(crate) struct Length<const MOST: usize> {
    n: usize,
    ghost within: { n ≤ MOST },
}

impl<const MOST: usize> Length<MOST> {
    /// How many.
    pub(crate) fn get(&self) -> usize
        ensures { (result ≡ self.now.n) × (result ≤ MOST) }
    {
        self.n
    }
}

impl<const MOST: usize> TryFrom<u64> for Length<MOST> {
    type Error = TooLong;

    fn try_from(n: u64) -> Result<Length<MOST>, TooLong> {
        let n = n as usize;
        if n > MOST {
            return Err(TooLong);
        }
        Ok(Length { n })
    }
}

/// What stands first in a step, and says what follows.
#[derive(Clone, Copy, Debug, PartialEq, Eq)]
enum Head {
    Adopt,
    Place,
    Withdraw,
    Retime,
    Times,
    Windows,
    List,
    Trial,
    Ask,
}

impl TryFrom<u8> for Head {
    type Error = NoCode;

    // case by case, as for `Kind`
    fn try_from(byte: u8) -> Result<Head, NoCode> {
        match byte {
            1 => Ok(Head::Adopt),
            2 => Ok(Head::Place),
            3 => Ok(Head::Withdraw),
            4 => Ok(Head::Retime),
            5 => Ok(Head::Times),
            6 => Ok(Head::Windows),
            7 => Ok(Head::List),
            8 => Ok(Head::Trial),
            9 => Ok(Head::Ask),
            _ => Err(NoCode),
        }
    }
}

/// A question whose answer is a buffer of times.
#[derive(Clone, Copy, Debug, PartialEq, Eq)]
pub(crate) enum Asked {
    Times,
    Windows,
    Trial { partition: usize, core: usize },
}

/// A call on a plan, or a question to it or to the arbiter; lengths are those of the buffer that is lent to it.
#[derive(Drop)]
pub(crate) enum Step<'a> {
    // lent entries: a change owns them, and a script asks for no memory
    Adopt {
        entries: &'a [u8],
    },
    Change(Change),
    Fill {
        asked: Asked,
        length: Length<MOST_TIMES>,
    },
    List {
        length: Length<MOST_BYTES>,
    },
    Ask(Question),
}

// inlined, here and where a script is read and played: a step is then made in place, and not copied from call to call
/// Which cores share, by the bits of a byte, the least for 0-1, then 0-2, 0-3, 1-2, 1-3 and 2-3.
#[inline(always)]
fn sharing_by(bits: u8) -> Sharing {
    let mut sharing = Sharing::NONE;
    let pairs = [
        (Core::Zero, Core::One),
        (Core::Zero, Core::Two),
        (Core::Zero, Core::Three),
        (Core::One, Core::Two),
        (Core::One, Core::Three),
        (Core::Two, Core::Three),
    ];
    for (k, (a, b)) in pairs.iter().enumerate() {
        if bits & (1 << k as u32) != 0 {
            sharing.join(*a, *b);
        }
    }
    sharing
}

impl<'a> Script<'a> {
    /// The next step.
    #[inline(always)]
    pub(crate) fn step(&mut self) -> Option<Step<'a>> {
        match Head::try_from(self.byte()?).ok()? {
            Head::Adopt => self.adopt(),
            Head::Place => Some(Step::Change(self.place()?)),
            Head::Withdraw => Some(Step::Change(self.withdraw()?)),
            Head::Retime => Some(Step::Change(self.retime()?)),
            Head::Times => self.fill(Asked::Times),
            Head::Windows => self.fill(Asked::Windows),
            Head::List => self.list(),
            Head::Trial => {
                let asked = self.trial()?;
                self.fill(asked)
            }
            Head::Ask => Some(Step::Ask(self.question()?)),
        }
    }

    /// An allocation: how many entries, and the entries.
    #[inline(always)]
    fn adopt(&mut self) -> Option<Step<'a>> {
        let length = usize::from(self.byte()?);
        let entries = self.take(length)?;
        Some(Step::Adopt { entries })
    }

    /// A partition, and a core for it.
    #[inline(always)]
    fn placing(&mut self) -> Option<(usize, usize)> {
        let [partition, core] = self.numbers::<2>()?;
        Some((partition as usize, core as usize))
    }

    /// A placement.
    #[inline(always)]
    fn place(&mut self) -> Option<Change> {
        let (partition, core) = self.placing()?;
        Some(Change::Place { partition, core })
    }

    /// A withdrawal: the partition.
    #[inline(always)]
    fn withdraw(&mut self) -> Option<Change> {
        let partition = self.number()? as usize;
        Some(Change::Withdraw { partition })
    }

    /// Other numbers for a task: the task, a period, a deadline, four execution times and four counts of requests.
    #[inline(always)]
    fn retime(&mut self) -> Option<Change> {
        let task = self.number()? as usize;
        let numbers = Numbers::from(self.numbers::<10>()?);
        Some(Change::Retime { task, numbers })
    }

    /// What a trial is of.
    #[inline(always)]
    fn trial(&mut self) -> Option<Asked> {
        let (partition, core) = self.placing()?;
        Some(Asked::Trial { partition, core })
    }

    /// A question for times: the length of the buffer.
    #[inline(always)]
    fn fill(&mut self, asked: Asked) -> Option<Step<'a>> {
        let length = Length::try_from(u64::from(self.byte()?)).ok()?;
        Some(Step::Fill { asked, length })
    }

    /// The listing: the length of the buffer.
    #[inline(always)]
    fn list(&mut self) -> Option<Step<'a>> {
        let length = Length::try_from(self.number()?).ok()?;
        Some(Step::List { length })
    }

    /// A question to the arbiter: the core, the sharing, the time, the own count and the four others.
    #[inline(always)]
    fn question(&mut self) -> Option<Question> {
        let core = Core::try_from(usize::from(self.byte()?)).ok()?;
        let sharing = sharing_by(self.byte()?);
        let [t, own] = self.numbers::<2>()?;
        Some(Question {
            core,
            t: Picos::new(t),
            own: Requests::new(own),
            others: self.numbers::<4>()?.map(Requests::new),
            sharing,
        })
    }
}
