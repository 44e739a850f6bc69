//! The positions that a book gives.
ghost use Rattle.std.specs.Prelude.{◌≡◌};
ghost use Rattle.words.specs.Views.{headword};
ghost use Rattle.kinds.specs.Kinds.{given_bits};

use crate::values::values_of;
use books::book::ReadingBook;
use words::word::{Bounds, Word};

/// The positions within bounds that the book gives, as bits like those of the marks.
pub fn given_in<B: ReadingBook>(book: &B, word: &Word, bounds: Bounds) -> u64
    ensures { result ≡ given_bits bounds.left bounds.right (B.held book.now) (headword word.now) }
{
    let values = values_of(book, word);
    let mut given = 0;
    // As a fold over the positions it is no plainer.
    for i in bounds.left..(word.len + 1).saturating_sub(bounds.right) {
        given |= u64::from(values.at(i) % 2) << i;
    }
    given
}
