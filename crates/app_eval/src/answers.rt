//! The answers to a body's requests.

ghost use Rattle.std.specs.Prelude.{◌≡◌, ◌∷◌, [], MatchOption};

use flow_meaning::Answer;

/// The answers that are not read yet.
#[derive(Drop)]
pub struct Answers<'a> {
    /// From the next one on.
    pub left: &'a [Answer],
}

impl<'a> Answers<'a> {
    /// The next answer, or none where they run out.
    pub fn next(&mut self) -> Option<&'a Answer>
        ensures { MatchOption result ((self.old.left.now ≡ []) × (self.new.left.now ≡ [])) (λ r. self.old.left.now ≡ r.now ∷ self.new.left.now) }
    {
        match self.left {
            [] => None,
            [first, left @ ..] => {
                self.left = left;
                Some(first)
            }
        }
    }
}
