//! The types that keep the rules of words: every value of them obeys its ghost fields, wherever it is made.
ghost use Rattle.std.specs.Prelude.{◌≡◌, ℕ, ◌%◌, ◌^◌, ◌<◌, ◌≤◌, length, slice_index};
ghost use Rattle.words.specs.Words.{alphabet, longest, widest};

/// The last symbol of a letter, that of z.
pub const ALPHABET: u8 = 26;

/// The most letters that a word may have.
pub const LONGEST: usize = 48;

/// The widest bound on either side.
pub const WIDEST: usize = 8;

/// A word and its hyphens. `letters` holds `len` symbols, 1 for a to 26 for z, and then only 0.
/// Position i lies between letters i and i + 1; bit i of `marks` is set where position i has a hyphen.
// An array with its length, since words are copied, and no vector of fixed room is.
#[derive(Clone, Copy)]
pub struct Word {
    pub len: usize,
    pub letters: [u8; LONGEST],
    pub marks: u64,
    ghost full: { length letters ≡ longest },
    ghost sized: { (1 ≤ len) × (len ≤ longest) },
    ghost lettered: { (k : ℕ) → k < len → (1 ≤ slice_index letters k) × (slice_index letters k ≤ alphabet) },
    ghost unused: { (k : ℕ) → len ≤ k → slice_index letters k ≡ 0 },
    // no bit at 0, and none at len or beyond: only the positions 1 to len - 1 can have a hyphen
    ghost marked: { (marks < 2 ^ len) × (marks % 2 ≡ 0) },
}

/// The bounds: a position i of a word of n letters lies within them when left ≤ i ≤ n - right.
#[derive(Clone, Copy)]
pub struct Bounds {
    pub left: usize,
    pub right: usize,
    ghost ranged: { (1 ≤ left) × (left ≤ widest) × (1 ≤ right) × (right ≤ widest) },
}
