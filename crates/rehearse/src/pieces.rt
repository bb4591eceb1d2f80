//! A text cut at a mark: lines, and the words of a line.
ghost use Rattle.std.specs.Prelude.{◌≡◌, ◌==◌, Some, position};
ghost use Rattle.std.specs.Option.{option_map};
ghost use Rattle.rehearse.specs.Cutting.{Cuts, most};
ghost use Rattle.std.specs.Iterator.{at_most};

/// The place of the first mark in a text, if there is one.
#[tactic(auto, using(crate::proofs::Cuts::further, crate::proofs::Cuts::first_at, crate::proofs::Cuts::first_none))]
fn first_mark(text: &[u8], mark: u8) -> Option<usize>
    ensures { result ≡ position (λ byte. byte == mark) text.now }
{
    // a loop: by `position`, text without marks was read in one and a half times the time
    for (i, byte) in text.iter().enumerate() {
        if *byte == mark {
            return Some(i);
        }
    }
    None
}

/// The pieces of a text between marks: one more than it has marks.
#[derive(Drop)]
pub struct Pieces<'a> {
    rest: Option<&'a [u8]>,
    mark: u8,
}

impl<'a> Pieces<'a> {
    /// The pieces of a text.
    pub fn new(text: &'a [u8], mark: u8) -> Pieces<'a>
        ensures { (option_map (λ x. x.now) result.rest ≡ Some text.now) × (result.mark ≡ mark) }
    {
        Pieces {
            rest: Some(text),
            mark,
        }
    }
}

impl<'a> Iterator for Pieces<'a> {
    type Item = &'a [u8];

    ghost next_gives = { λ s r n. Cuts s.mark (option_map (λ x. x.now) s.rest) (option_map (λ x. x.now) r) (option_map (λ x. x.now) n.rest) };

    ghost remaining = { λ s. at_most (most (option_map (λ x. x.now) s.rest)) };

    fn next(&mut self) -> Option<&'a [u8]> {
        let text = self.rest?;
        match first_mark(text, self.mark) {
            Some(end) => {
                self.rest = Some(&text[end + 1..]);
                Some(&text[..end])
            }
            None => {
                self.rest = None;
                Some(text)
            }
        }
    }
}
