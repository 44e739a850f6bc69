//! The word list as a meaning: whatever reads words meets this contract, and all that uses words stands on it alone.
ghost use Rattle.std.specs.Prelude.{◌≡◌, ℕ, ◌≤◌, length};
ghost use Rattle.lists.specs.Listing.{fullest, Content};
ghost use Rattle.lists.specs.Calls.{Next};

use crate::fault::ListFault;
use words::word::Word;

/// The most words of a list.
pub const FULLEST: usize = 1_000_000;

/// A list of words, read from the first to the last. Its words and its ending never change.
pub trait WordList {
    // the words, in their order, and how the list ends: cleanly, or in one fault
    ghost content: { Self → Content };

    // how many words have been read
    ghost taken: { Self → ℕ };

    // a law: at most a million words, and no more read than there are
    ghost few: { (l : Self) → (length (content l).0 ≤ fullest) × (taken l ≤ length (content l).0) };

    /// Begins again at the first word.
    fn rewind(&mut self)
        ensures same { content self.new ≡ content self.old }
        ensures none { taken self.new ≡ 0 };

    /// The first unread word; with none unread the end, or the fault, every time.
    fn next(&mut self) -> Result<Option<Word>, ListFault>
        ensures same { content self.new ≡ content self.old }
        ensures next { Next (content self.old) (taken self.old) result (taken self.new) };

    /// How many words have been read.
    fn words_read(&self) -> usize
        ensures { result ≡ taken self.now };
}
