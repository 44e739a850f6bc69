//! The types that keep the rules of patterns: every value of them obeys its ghost fields, wherever it is made.
ghost use Rattle.std.specs.Prelude.{◌≡◌, ℕ, suc, ◌<◌, ◌≤◌, true, length, slice_index};
ghost use Rattle.words.specs.Words.{alphabet};
ghost use Rattle.patterns.specs.Spellings.{longest, places, highest, any_above_zero};

/// The most symbols of a spelling.
pub const LONGEST: usize = 15;

/// The places of a row: one before each symbol of the longest spelling, and one behind the last.
pub const PLACES: usize = 16;

/// A run of symbols as it may stand in a word: 1 to 15 of them, at least one a letter (1 for a to 26 for z), and the edge
/// of a word (0) only first or last. `symbols` holds `len` of them, and then only 0, and `len` stands behind, so that the
/// derived order is that of the symbols: where one spelling begins another, the shorter comes first.
#[derive(Clone, Copy, Debug, PartialEq, Eq, PartialOrd, Ord)]
pub struct Spelling {
    // No heap: the symbols stand in an array, and how many they are beside it.
    pub symbols: [u8; LONGEST],
    pub len: usize,
    ghost full: { length symbols ≡ longest },
    ghost sized: { (1 ≤ len) × (len ≤ longest) },
    ghost symbolic: { (k : ℕ) → slice_index symbols k ≤ alphabet },
    ghost unused: { (k : ℕ) → len ≤ k → slice_index symbols k ≡ 0 },
    ghost edged: { (k : ℕ) → 0 < k → suc k < len → 0 < slice_index symbols k },
    ghost lettered: { any_above_zero symbols ≡ true },
}

/// A value from 0 to 9 for each of the places 0 to 15. Place k lies behind the first k symbols of a spelling.
#[derive(Clone, Copy, Debug, PartialEq, Eq)]
pub struct Row {
    pub values: [u8; PLACES],
    ghost full: { length values ≡ places },
    ghost digits: { (k : ℕ) → slice_index values k ≤ highest },
}

/// A spelling with a row that has some value above 0, and none beyond the spelling's last place.
#[derive(Clone, Copy, Debug, PartialEq, Eq)]
pub struct Pattern {
    pub spelling: Spelling,
    pub row: Row,
    ghost valued: { any_above_zero row.values ≡ true },
    ghost within: { (k : ℕ) → spelling.len < k → slice_index row.values k ≡ 0 },
}
