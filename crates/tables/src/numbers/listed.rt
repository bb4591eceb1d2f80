//! The numbers of a task, one after the other.
ghost use Rattle.std.specs.Prelude.{◌≡◌};
ghost use Rattle.tables.specs.Numbered.{in_order};

use super::Numbers;
use terms::numbers::{Picos, Requests};

impl From<[u64; 10]> for Numbers {
    // a period, a deadline, four execution times, four counts
    ghost from_gives = { λ ns numbers. in_order numbers ≡ ns };

    fn from(ns: [u64; 10]) -> Numbers {
        // each written out: of `map` over an array the proof of the whole list did not close
        let [period, deadline, c0, c1, c2, c3, h0, h1, h2, h3] = ns;
        Numbers {
            period: Picos::new(period),
            deadline: Picos::new(deadline),
            execution: [
                Picos::new(c0),
                Picos::new(c1),
                Picos::new(c2),
                Picos::new(c3),
            ],
            requests: [
                Requests::new(h0),
                Requests::new(h1),
                Requests::new(h2),
                Requests::new(h3),
            ],
        }
    }
}
