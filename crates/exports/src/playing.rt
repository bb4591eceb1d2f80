//! A script played on one plan under one arbiter.
use super::answers::Answers;
use super::piles::{Kind, Pile};
use super::script::Script;
use super::steps::{Asked, Length, MOST_BYTES, MOST_TIMES, Step};
use arbiter::arbiter::Arbiter;
use arbiter::lesser::Lesser;
use plan::plan::Plan;
use report::checked::listing;
use std::alloc::{AllocError, Global};
use tables::held::spare::Spare;
use tables::room::Room;
use terms::numbers::Picos;
use terms::refusal::Refusal;

/// What every buffer is filled with before a question.
const MARK: u8 = 170;

/// Room for the tables of a plan, and for the copy of them that a trial works on.
#[derive(Drop)]
pub(crate) struct Rooms {
    plan: Room,
    spare: Spare,
}

impl Rooms {
    /// Asks for both. The only refusal is want of memory.
    pub(crate) fn reserve(heap: Global) -> Result<Rooms, AllocError> {
        let plan = Room::reserve(heap)?;
        let spare = Spare::new(Room::reserve(heap)?);
        Ok(Rooms { plan, spare })
    }

    /// Plays a script from the birth of the plan of a file, under a pile, and adds what each call answers; refuses a
    /// setting out of its range, and a file with a fault.
    // the script and the answers are lent one by one: of a struct that holds a lent value the check covers no field that is
    // lent on
    pub(crate) fn play_under(
        self,
        file: &[u8],
        pile: &Pile,
        script: &mut Script,
        answers: &mut Answers,
    ) -> Result<(), Refusal> {
        // each kind is a type of its own, and the play is generic over it: a `dyn` would not spare this match
        match pile.kind {
            Kind::RequestDriven => self.play(file, &pile.requests()?, script, answers),
            Kind::JobDriven => self.play(file, &pile.jobs()?, script, answers),
            Kind::Lesser => self.play(file, &pile.lesser()?, script, answers),
            Kind::RefreshOverRequestDriven => {
                self.play(file, &pile.first.over(pile.requests()?)?, script, answers)
            }
            Kind::RefreshOverJobDriven => {
                self.play(file, &pile.first.over(pile.jobs()?)?, script, answers)
            }
            Kind::RefreshOverLesser => {
                self.play(file, &pile.first.over(pile.lesser()?)?, script, answers)
            }
            Kind::LesserOverRefreshes => {
                let first = pile.first.over(pile.requests()?)?;
                let second = pile.second.over(pile.jobs()?)?;
                self.play(file, &Lesser::new(first, second), script, answers)
            }
            Kind::RefreshOverRefresh => {
                let below = pile.first.over(pile.lesser()?)?;
                self.play(file, &pile.second.over(below)?, script, answers)
            }
        }
    }

    /// The same under an arbiter.
    fn play<B: Arbiter>(
        self,
        file: &[u8],
        arbiter: &B,
        script: &mut Script,
        answers: &mut Answers,
    ) -> Result<(), Refusal> {
        let plan = Plan::from_file(self.plan, file)?;
        answers.verdict(Ok(()));
        let mut player = Player {
            plan,
            spare: self.spare,
            arbiter,
        };
        // each call takes a byte or more
        for _ in 0..script.len() {
            let Some(step) = script.step() else {
                break;
            };
            player.make(step, answers);
        }
        Ok(())
    }
}

/// A plan under an arbiter, and the tables that a trial works on.
// the answers stay beside it: of a struct that holds a lent value the check covers no field that is lent on
#[derive(Drop)]
struct Player<'a, B> {
    plan: Plan,
    spare: Spare,
    arbiter: &'a B,
}

impl<'a, B: Arbiter> Player<'a, B> {
    /// Makes a step, and adds what it answers.
    #[inline(always)]
    fn make(&mut self, step: Step, answers: &mut Answers) {
        match step {
            Step::Adopt { entries } => answers.verdict(self.plan.adopt(entries, self.arbiter)),
            Step::Change(change) => answers.verdict(self.plan.change(&change, self.arbiter)),
            Step::Fill { asked, length } => self.fill(asked, length, answers),
            Step::List { length } => self.list(length, answers),
            Step::Ask(question) => answers.number(self.arbiter.answer(&question).get()),
        }
    }

    /// Puts a question to the plan.
    fn put(&mut self, asked: Asked, out: &mut [Picos]) -> Result<(), Refusal> {
        match asked {
            Asked::Times => self.plan.times(out, self.arbiter),
            Asked::Windows => self.plan.windows(out, self.arbiter),
            Asked::Trial { partition, core } => {
                self.plan
                    .trial(&mut self.spare, partition, core, out, self.arbiter)
            }
        }
    }

    /// Puts a question with a buffer of this length, and adds the answer and the whole buffer after it.
    fn fill(&mut self, asked: Asked, length: Length<MOST_TIMES>, answers: &mut Answers) {
        // no memory is asked for once there is a plan
        let mut buffer = [Picos::new(u64::from(MARK)); MOST_TIMES];
        let out = &mut buffer[..length.get()];
        answers.verdict(self.put(asked, out));
        answers.numbers(out.iter().map(|time| time.get()));
    }

    /// The listing into a buffer of this length, and the whole buffer after that.
    fn list(&self, length: Length<MOST_BYTES>, answers: &mut Answers) {
        // no memory is asked for once there is a plan
        let mut buffer = [MARK; MOST_BYTES];
        let out = &mut buffer[..length.get()];
        answers.result(listing(&self.plan, out, self.arbiter));
        answers.numbers(out.iter().map(|byte| u64::from(*byte)));
    }
}
