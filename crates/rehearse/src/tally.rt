//! How many changes were accepted, and how many refused for each reason.
ghost use Rattle.std.specs.Prelude.{◌≡◌, count_by};
ghost use Rattle.rehearse.specs.Tally.{is_accepted, is_refused};

use plan::outcome::Outcome;

/// How many changes were accepted.
pub fn count_accepted(log: &[Outcome]) -> usize
    ensures { result ≡ count_by is_accepted log.now }
{
    log.iter().filter(|outcome| outcome.verdict.is_ok()).count()
}

/// How many changes were refused with this number.
pub fn count_refused(log: &[Outcome], number: usize) -> usize
    ensures { result ≡ count_by (is_refused number) log.now }
{
    log.iter()
        .filter(|outcome| is_refused(outcome, number))
        .count()
}

/// Whether a change was refused with this number.
fn is_refused(outcome: &Outcome, number: usize) -> bool
    ensures { result ≡ is_refused number outcome.now }
{
    outcome
        .verdict
        .is_err_and(|refusal| refusal.number() == number)
}
