//! The book that only reads.
ghost use Rattle.std.specs.Prelude.{◌≡◌};
ghost use Rattle.books.specs.Books.{Book, Sound};

use crate::book::ReadingBook;
use patterns::pattern::{Row, Spelling};
use words::word::Word;

/// A book held by value that only reads: it has no call that raises or empties, whatever it was made of.
#[derive(Drop)]
pub struct Sealed<B> {
    book: B,
}

impl<B: ReadingBook> Sealed<B> {
    /// The book with what it holds, for reading alone.
    pub fn new(book: B) -> Sealed<B>
        ensures { result.book ≡ book }
    {
        Sealed { book }
    }
}

impl<B: ReadingBook> ReadingBook for Sealed<B> {
    ghost held = { λ s. B.ReadingBook.held s.book };

    ghost sound = { λ s. B.ReadingBook.sound s.book };

    fn row(&self, spelling: &Spelling) -> Row {
        self.book.row(spelling)
    }

    fn count(&self) -> usize {
        self.book.count()
    }

    fn least(&self) -> Option<Spelling> {
        self.book.least()
    }

    fn least_after(&self, other: &Spelling) -> Option<Spelling> {
        self.book.least_after(other)
    }

    fn row_at(&self, word: &Word, start: usize, most: usize) -> Row {
        self.book.row_at(word, start, most)
    }
}
