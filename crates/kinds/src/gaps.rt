//! The type of the values of a word.
ghost use Rattle.std.specs.Prelude.{◌≡◌, ◌+◌, length, slice_index};
ghost use Rattle.kinds.specs.Gaps.{gap_count};

/// The gaps that a row may reach in a padded word.
pub const GAPS: usize = 65;

/// The values of the gaps of a padded word. Gap q lies behind its first q symbols, so that position i is gap i + 1.
#[derive(Clone, Copy)]
pub struct Values {
    pub gaps: [u8; GAPS],
    ghost full: { length gaps ≡ gap_count },
}

impl Values {
    /// The value of a position; 0 beyond the gaps.
    pub fn at(&self, position: usize) -> u8
        ensures { result ≡ slice_index self.now.gaps (position + 1) }
    {
        if position >= GAPS - 1 {
            return 0;
        }
        self.gaps[position + 1]
    }
}
