//! A row of numbers that may make a word.
ghost use Rattle.std.specs.Prelude.{◌≡◌, ◌<◌, ◌≤◌, length, ◌==◌};
ghost use Rattle.std.specs.List.{list_all};
ghost use Rattle.words.specs.Words.{longest};
ghost use Rattle.words.specs.Rows.{is_symbol, symbols_ok, marks_ok, row_ok, Tried};

use crate::word::{ALPHABET, LONGEST, Word};

/// A row of a table of words: a length, as many symbols as the longest word has, and marks. It makes a word or none.
// Rows are lent in this form, so that the length stands beside the symbols.
#[derive(Clone, Copy)]
pub struct WordRow {
    pub len: usize,
    pub letters: [u8; LONGEST],
    pub marks: u64,
}

/// A row that makes no word.
#[derive(Clone, Copy, PartialEq, Eq, Debug)]
pub struct NoWord;

// Whether a number is the symbol of a letter.
fn is_letter(symbol: u8) -> bool
    ensures { result ≡ is_symbol symbol }
{
    symbol >= 1 && symbol <= ALPHABET
}

// Whether all are symbols of letters. No turn is left out, here and below, so that many symbols are tested at once.
fn are_letters(symbols: &[u8]) -> bool
    ensures { result ≡ list_all is_symbol symbols.now }
{
    let mut fit = true;
    for symbol in symbols {
        fit &= is_letter(*symbol);
    }
    fit
}

// Whether all are 0, as symbols that a word does not use.
fn are_unused(symbols: &[u8]) -> bool
    ensures { result ≡ list_all (λ s. s == 0) symbols.now }
{
    let mut fit = true;
    for symbol in symbols {
        fit &= *symbol == 0;
    }
    fit
}

// Whether `len` letters come first, and then only 0.
fn symbols_fit(letters: &[u8; LONGEST], len: usize) -> bool
    requires { len ≤ longest }
    ensures value { result ≡ symbols_ok len letters.now longest }
    ensures full { length letters.now ≡ longest }
{
    let (word, rest) = letters.split_at(len);
    are_letters(word) && are_unused(rest)
}

// Whether bits stand only at the positions of a word of `len` letters.
fn marks_fit(marks: u64, len: usize) -> bool
    requires { len < 64 }
    ensures { result ≡ marks_ok len marks }
{
    marks < 1 << len && marks % 2 == 0
}

impl WordRow {
    // Whether the row makes a word.
    fn makes_word(&self) -> bool
        ensures value { result ≡ row_ok self.now }
        ensures full { length self.now.letters ≡ longest }
    {
        let WordRow {
            len,
            letters,
            marks,
        } = *self;
        len >= 1 && len <= LONGEST && symbols_fit(&letters, len) && marks_fit(marks, len)
    }
}

impl TryFrom<WordRow> for Word {
    type Error = NoWord;

    ghost try_from_gives = { Tried };

    /// The word that a row makes, and none where it makes none.
    fn try_from(row: WordRow) -> Result<Word, NoWord> {
        if !row.makes_word() {
            return Err(NoWord);
        }
        let WordRow {
            len,
            letters,
            marks,
        } = row;
        Ok(Word {
            len,
            letters,
            marks,
        })
    }
}
