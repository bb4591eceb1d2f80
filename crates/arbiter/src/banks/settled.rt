//! How a wait becomes an answer.
ghost use Rattle.std.specs.Prelude.{◌≡◌, ℕ, ◌<◌, false};
ghost use Rattle.terms.specs.Cores.{number_of};
ghost use Rattle.arbiter.specs.Questions.{beyond};
ghost use Rattle.arbiter.specs.Settled.{settled, Waits};

use super::Banks;
use crate::question::Question;
use terms::numbers::Picos;

impl Banks {
    /// What the core of the question waits, cut to the ceiling; the ceiling for a core that the computer lacks or a
    /// question past what is reckoned with.
    pub(crate) fn settled<F: FnOnce(usize) -> Picos>(&self, q: &Question, wait: F) -> Picos
        requires { number_of q.now.core < self.now.cores → beyond q.now ≡ false → F.pre wait (number_of q.now.core) }
        ensures { (v : ℕ) → Waits (F.post wait (number_of q.now.core)) v → result.0 ≡ settled self.now.cores q.now v }
    {
        let core = usize::from(q.core);
        if core >= self.cores || q.beyond() {
            return Question::ceiling();
        }
        wait(core).min(Question::ceiling())
    }
}
