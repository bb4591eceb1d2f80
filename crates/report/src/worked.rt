//! The worked examples.
ghost use Rattle.std.specs.Prelude.{◌≡◌};
ghost use Rattle.report.specs.Worked.{Worked};

/// How many worked examples there are, all of which hold.
pub fn worked_examples() -> usize
    ensures count { result ≡ 13 }
    ensures hold { Worked }
{
    13
}
