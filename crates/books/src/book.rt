//! The book as a meaning: whatever holds patterns meets these contracts, and all that uses patterns stands on them alone.
ghost use Rattle.std.specs.Prelude.{◌≡◌, ℕ, ◌≤◌, [], length, slice_index};
ghost use Rattle.words.specs.Views.{headword};
ghost use Rattle.patterns.specs.Views.{symbols_of, spelled};
ghost use Rattle.books.specs.Maps.{least_of, after};
ghost use Rattle.books.specs.Books.{Book, Sound, row_in};
ghost use Rattle.books.specs.Calls.{spelling, Raising};
ghost use Rattle.books.specs.Rule.{given_at};

use patterns::pattern::{LONGEST, Pattern, Row, Spelling};
use thiserror::Error;
use words::word::Word;

/// A book that holds as many spellings as it may, and not the one that was to be raised.
#[derive(Clone, Copy, PartialEq, Eq, Debug, Error)]
#[error("the book is full")]
pub struct Full;

/// A book that answers what it holds. No question changes it.
pub trait ReadingBook {
    // the patterns held
    ghost held: { Self → Book };

    // a law: they ascend, and each is a pattern
    ghost sound: { (b : Self) → Sound (held b) };

    /// The row of a spelling; all 0 where it is not held.
    fn row(&self, spelling: &Spelling) -> Row
        ensures { result.values ≡ row_in (held self.now) (symbols_of spelling.now) };

    /// How many spellings the book holds.
    fn count(&self) -> usize
        ensures { result ≡ length (held self.now) };

    /// The least spelling held.
    fn least(&self) -> Option<Spelling>
        ensures { spelling result ≡ least_of (held self.now) };

    /// The least spelling held of those that come after another, which may be held or not.
    fn least_after(&self, other: &Spelling) -> Option<Spelling>
        ensures { spelling result ≡ least_of (after (symbols_of other.now) (held self.now)) };

    /// What the patterns of at most `most` symbols that match a word at a start give, joined: at each place the greatest of
    /// their values. A make that finds them by one walk along the word answers this by a body of its own.
    fn row_at(&self, word: &Word, start: usize, most: usize) -> Row
        ensures { (k : ℕ) → slice_index result.values k ≡ given_at (held self.now) (headword word.now) start most k }
    {
        let mut row = Row::none();
        for len in 1..=most.min(LONGEST) {
            if let Some(part) = Spelling::of_part(word, start, len) {
                row = row.greater(&self.row(&part));
            }
        }
        row
    }
}

/// A reading book that patterns are put into, as many spellings as its limit says.
pub trait WritingBook: ReadingBook {
    // the limit
    ghost most: { Self → ℕ };

    /// The limit, which never changes, and is never passed.
    fn limit(&self) -> usize
        ensures value { result ≡ most self.now }
        ensures within { length (Self.ReadingBook.held self.now) ≤ result };

    /// Gives the pattern's spelling at each place the greater of its old and its new value.
    fn raise(&mut self, pattern: &Pattern) -> Result<(), Full>
        ensures limit { most self.new ≡ most self.old }
        ensures held { Raising (Self.ReadingBook.held self.old) (most self.old) (spelled pattern.now) result (Self.ReadingBook.held self.new) };

    /// Drops all patterns; the whole limit can be used again.
    fn empty(&mut self)
        ensures limit { most self.new ≡ most self.old }
        ensures held { Self.ReadingBook.held self.new ≡ [] };
}
