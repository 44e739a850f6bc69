//! How many positions of a word are of each kind.
ghost use Rattle.std.specs.Prelude.{◌≡◌};
ghost use Rattle.words.specs.Counting.{count};
ghost use Rattle.words.specs.Views.{headword};
ghost use Rattle.kinds.specs.Kinds.{within, found, wrong, missed};

use crate::given::given_in;
use books::book::ReadingBook;
use words::word::{Bounds, Word};

/// Of the positions of a word within bounds, those that are found, wrong and missed. All others are plain.
#[derive(Clone, Copy, PartialEq, Eq, Debug)]
pub struct KindCounts {
    /// With a hyphen, and given.
    pub found: u32,
    /// Given without a hyphen.
    pub wrong: u32,
    /// With a hyphen, and not given.
    pub missed: u32,
}

/// Counts the kinds of a word's positions within bounds.
// A book, a word and bounds come together, but each from its own owner: no struct keeps a fact of all three.
pub fn count_kinds<B: ReadingBook>(book: &B, word: &Word, bounds: Bounds) -> KindCounts
    ensures found { result.found ≡ count (found (B.held book.now) (headword word.now)) (within bounds.left bounds.right (headword word.now)) }
    ensures wrong { result.wrong ≡ count (wrong (B.held book.now) (headword word.now)) (within bounds.left bounds.right (headword word.now)) }
    ensures missed { result.missed ≡ count (missed (B.held book.now) (headword word.now)) (within bounds.left bounds.right (headword word.now)) }
{
    let given = given_in(book, word, bounds);
    let hyphens = word.marks & word.mask(bounds);
    KindCounts {
        found: (hyphens & given).count_ones(),
        wrong: (given & !hyphens).count_ones(),
        missed: (hyphens & !given).count_ones(),
    }
}
