//! The types that keep the ranges of a level: every value of them obeys its ghost fields, wherever it is made.
ghost use Rattle.std.specs.Prelude.{◌≤◌};
ghost use Rattle.patterns.specs.Spellings.{longest};
ghost use Rattle.levels.specs.Ranges.{heaviest, highest};

/// The greatest weight.
pub const HEAVIEST: u64 = 1_000;

/// The greatest threshold.
pub const HIGHEST: u64 = 1_000_000;

/// The settings of a level: candidates of `lo` to `hi` symbols, judged by the weights of good and of bad counts and a threshold.
#[derive(Clone, Copy)]
pub struct Settings {
    pub lo: usize,
    pub hi: usize,
    pub good: u64,
    pub bad: u64,
    pub threshold: u64,
    ghost lengths: { (1 ≤ lo) × (lo ≤ hi) × (hi ≤ longest) },
    ghost weights: { (1 ≤ good) × (good ≤ heaviest) × (bad ≤ heaviest) },
    ghost limit: { (1 ≤ threshold) × (threshold ≤ highest) },
}

/// One pass of a level: it counts spellings of `length` symbols at one `place` of them.
#[derive(Clone, Copy)]
pub struct Stage {
    pub length: usize,
    pub place: usize,
    ghost sized: { (1 ≤ length) × (length ≤ longest) },
    ghost inside: { place ≤ length },
}
