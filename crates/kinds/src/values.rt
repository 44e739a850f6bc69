//! The values of a word under a book.
ghost use Rattle.std.specs.Prelude.{◌≡◌, ℕ, ◌+◌, ◌-◌, ◌≤◌, max, length, if◌then◌else◌, nat_le, slice_index};
ghost use Rattle.words.specs.Views.{headword};
ghost use Rattle.patterns.specs.Spellings.{places, greater};
ghost use Rattle.books.specs.Rule.{Greatest, value, MaximumRule};

use crate::gaps::{GAPS, Values};
use books::book::ReadingBook;
use patterns::pattern::{LONGEST, PLACES, Row};
use words::word::Word;

// Raises each gap to the value that a row gives it. `Row::greater` does the same to a row: over lent gaps it would be a public call
// with a condition on their number.
fn lift(gaps: &mut [u8], row: &Row)
    requires { length gaps.old ≡ places }
    ensures { gaps.new ≡ greater gaps.old row.now.values }
{
    // Once a `zip` of the gaps is over, only their number is known.
    for (k, gap) in gaps.iter_mut().enumerate() {
        *gap = (*gap).max(row.values[k]);
    }
}

/// The values of all positions of a word by the maximum rule: that of position i is the greatest that any pattern held gives
/// it, or 0. Each part of the word is looked up once.
pub fn values_of<B: ReadingBook>(book: &B, word: &Word) -> Values
    ensures value { (i : ℕ) → slice_index result.gaps (i + 1) ≡ value (B.held book.now) (headword word.now) i }
    ensures greatest { (i : ℕ) → Greatest (B.held book.now) (headword word.now) i (slice_index result.gaps (i + 1)) }
    ensures rule { MaximumRule }
{
    let mut gaps = [0; GAPS];
    for start in 0..word.len + 2 {
        let row = book.row_at(word, start, LONGEST);
        lift(&mut gaps[start..start + PLACES], &row);
    }
    Values { gaps }
}
