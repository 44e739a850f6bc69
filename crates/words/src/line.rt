//! Reading a word line: letters, small or capital, with marks between them.
ghost use Rattle.std.specs.Prelude.{◌≡◌, ◌^◌, ◌<◌, if◌then◌else◌};
ghost use Rattle.words.specs.Line.{kind_of, reading};
ghost use Rattle.words.specs.Grammar.{Judged};
ghost use Rattle.words.specs.Views.{answer};

use crate::word::{LONGEST, Word};
use thiserror::Error;

/// What a byte of a word line may be: a letter with its symbol, or a mark that is a hyphen or none.
#[derive(Clone, Copy)]
pub enum Kind {
    Letter(u8),
    Mark(bool),
}

/// Why a word line is refused, and at which byte of which line.
#[derive(Clone, Copy, PartialEq, Eq, Debug, Error)]
#[error("no word line")]
pub enum LineFault {
    /// A byte that is no letter and no mark.
    NoLetter { line: usize, column: usize },
    /// A mark that is not after a letter, or is last in its line.
    LooseMark { line: usize, column: usize },
    /// The 49th letter of a word.
    TooLong { line: usize, column: usize },
}

fn classify(b: u8) -> Option<Kind>
    ensures { result ≡ kind_of b }
{
    match b {
        b'a'..=b'z' => Some(Kind::Letter(b - b'a' + 1)),
        b'A'..=b'Z' => Some(Kind::Letter(b - b'A' + 1)),
        b'-' | b'*' => Some(Kind::Mark(true)),
        b'.' => Some(Kind::Mark(false)),
        _ => None,
    }
}

// The bit of a mark after `len` letters: one that is no hyphen has none.
fn mark_bit(hyphen: bool, len: usize) -> u64
    requires { len < 64 }
    ensures { result ≡ (if hyphen then 2 ^ len else 0) }
{
    if hyphen { 1 << len } else { 0 }
}

/// Reads the bytes of a line of a list, whose number is `line`: an empty line holds no word, any other spells one or is
/// refused at its first offending byte.
pub fn read_line(line: usize, bytes: &[u8]) -> Result<Option<Word>, LineFault>
    ensures value { answer result ≡ reading line bytes.now }
    ensures meaning { Judged line bytes.now (answer result) }
{
    if bytes.is_empty() {
        return Ok(None);
    }
    // An array, as the word keeps it: a vector of fixed room would be copied out at the end.
    let mut letters = [0; LONGEST];
    let mut len = 0;
    let mut marks: u64 = 0;
    let mut after_letter = false;
    for (i, b) in bytes.iter().enumerate() {
        let column = i + 1;
        let Some(kind) = classify(*b) else {
            return Err(LineFault::NoLetter { line, column });
        };
        match kind {
            Kind::Letter(symbol) => {
                if len >= LONGEST {
                    return Err(LineFault::TooLong { line, column });
                }
                letters[len] = symbol;
                len += 1;
                after_letter = true;
            }
            Kind::Mark(hyphen) => {
                if !after_letter || column >= bytes.len() {
                    return Err(LineFault::LooseMark { line, column });
                }
                marks |= mark_bit(hyphen, len);
                after_letter = false;
            }
        }
    }
    Ok(Some(Word {
        len,
        letters,
        marks,
    }))
}
