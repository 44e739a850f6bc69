//! The parts of a word that are spellings.
ghost use Rattle.std.specs.Prelude.{◌≡◌, ℕ, ◌+◌, ◌<◌, ◌≤◌, length, slice_index};
ghost use Rattle.words.specs.Views.{headword};
ghost use Rattle.patterns.specs.Spellings.{longest};
ghost use Rattle.patterns.specs.Parts.{padded, PartOf};

use crate::pattern::{LONGEST, Spelling};
use crate::reading::any_above;
use words::word::Word;

// The symbol of the padded word behind its first `at`.
fn symbol_at(word: &Word, at: usize) -> u8
    ensures { result ≡ slice_index (padded (headword word.now)) at }
{
    if at < 1 || at > word.len {
        return 0;
    }
    word.letters[at - 1]
}

// The `len` symbols of the padded word from `start` on, and then only 0.
fn symbols_from(word: &Word, start: usize, len: usize) -> [u8; LONGEST]
    requires few { len ≤ longest }
    requires inside { start + len ≤ word.now.len + 2 }
    ensures full { length result ≡ longest }
    ensures symbols { (k : ℕ) → k < len → slice_index result k ≡ slice_index (padded (headword word.now)) (start + k) }
    ensures unused { (k : ℕ) → len ≤ k → slice_index result k ≡ 0 }
{
    let mut symbols = [0; LONGEST];
    // Made by `array::from_fn` it gets no proof: what the closure captured is then unknown.
    for (k, symbol) in symbols[..len].iter_mut().enumerate() {
        *symbol = symbol_at(word, start + k);
    }
    symbols
}

// A start and a length name a part: a struct of both would keep nothing of it, since most parts are no spelling.
impl Spelling {
    /// The `len` symbols of the padded word from `start` on, where these are a spelling.
    pub fn of_part(word: &Word, start: usize, len: usize) -> Option<Spelling>
        ensures { PartOf (headword word.now) start len result }
    {
        if len < 1 || len > LONGEST || start > word.len + 1 || len > word.len + 2 - start {
            return None;
        }
        let symbols = symbols_from(word, start, len);
        if !any_above(&symbols) {
            return None;
        }
        Some(Spelling { len, symbols })
    }
}
