//! Bounds, and the hyphens of a word within them.
ghost use Rattle.std.specs.Prelude.{◌≡◌, ◌<◌, MatchResult};
ghost use Rattle.words.specs.Words.{InRange, positions, bits_of, hyphens_in_bounds};
ghost use Rattle.words.specs.Views.{headword};

use crate::word::{Bounds, WIDEST, Word};

/// A setting or bound is out of range.
#[derive(Clone, Copy, PartialEq, Eq, Debug)]
pub struct OutOfRange;

impl Bounds {
    /// Bounds of 1 to 8 each, and no others.
    pub fn new(left: usize, right: usize) -> Result<Bounds, OutOfRange>
        ensures { MatchResult result (λ b. (b.left ≡ left) × (b.right ≡ right)) (λ _. InRange left right → ⊥) }
    {
        if left < 1 || left > WIDEST || right < 1 || right > WIDEST {
            return Err(OutOfRange);
        }
        Ok(Bounds { left, right })
    }
}

impl Word {
    /// The positions within bounds as bits, like those of the marks.
    pub fn mask(&self, bounds: Bounds) -> u64
        ensures { result ≡ bits_of (positions bounds.left bounds.right self.now.len) }
    {
        if self.len < bounds.left + bounds.right {
            return 0;
        }
        (1 << (self.len + 1 - bounds.right)) - (1 << bounds.left)
    }

    /// How many positions within bounds have a hyphen.
    pub fn hyphens_within(&self, bounds: Bounds) -> u32
        ensures few { result < self.now.len }
        ensures value { result ≡ hyphens_in_bounds bounds.left bounds.right (headword self.now) }
    {
        (self.marks & self.mask(bounds)).count_ones()
    }
}
