//! Settings that are in range, and no others.
ghost use Rattle.std.specs.Prelude.{◌≡◌, MatchResult};
ghost use Rattle.levels.specs.Ranges.{InRange};

use crate::settings::{HEAVIEST, HIGHEST, Settings};
use patterns::pattern::LONGEST;
use words::measure::OutOfRange;

impl Settings {
    /// The settings asked for, where each is in its range.
    pub fn new(
        lo: usize,
        hi: usize,
        good: u64,
        bad: u64,
        threshold: u64,
    ) -> Result<Settings, OutOfRange>
        ensures { MatchResult result (λ s. (s.lo ≡ lo) × (s.hi ≡ hi) × (s.good ≡ good) × (s.bad ≡ bad) × (s.threshold ≡ threshold)) (λ _. InRange lo hi good bad threshold → ⊥) }
    {
        if lo < 1 || lo > hi || hi > LONGEST {
            return Err(OutOfRange);
        }
        if good < 1 || good > HEAVIEST || bad > HEAVIEST || threshold < 1 || threshold > HIGHEST {
            return Err(OutOfRange);
        }
        Ok(Settings {
            lo,
            hi,
            good,
            bad,
            threshold,
        })
    }
}
