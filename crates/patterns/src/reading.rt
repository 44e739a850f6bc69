//! Reading a pattern text: the value of place 0, the first symbol, the value of place 1, and so on, with values of 0 left out.
ghost use Rattle.std.specs.Prelude.{◌≡◌, length};
ghost use Rattle.text.specs.Refusals.{six_of};
ghost use Rattle.patterns.specs.Spellings.{any_above_zero};
ghost use Rattle.patterns.specs.Texts.{piece_of, shut, reading};
ghost use Rattle.patterns.specs.Faults.{pattern_refused};
ghost use Rattle.patterns.specs.Promises.{Judged};
ghost use Rattle.patterns.specs.Views.{answer};

use crate::pattern::{LONGEST, PLACES, Pattern, Row, Spelling};
use text::refusal::{Reason, Refusal};
use thiserror::Error;

/// What a byte of a pattern text is: a symbol, or the digit of a value above 0.
#[derive(Clone, Copy)]
pub enum Piece {
    Symbol(u8),
    Digit(u8),
}

/// A text that is no pattern text, and the column at which it is refused.
#[derive(Clone, Copy, PartialEq, Eq, Debug, Error)]
#[error("no pattern text")]
pub struct BadPattern {
    pub column: usize,
}

impl From<BadPattern> for Refusal {
    ghost from_gives = { λ f r. six_of r ≡ pattern_refused f };

    fn from(fault: BadPattern) -> Refusal {
        Refusal::at_byte(Reason::BadPattern.number(), 1, fault.column)
    }
}

fn classify(b: u8) -> Option<Piece>
    ensures { result ≡ piece_of b }
{
    match b {
        b'a'..=b'z' => Some(Piece::Symbol(b - b'a' + 1)),
        b'.' => Some(Piece::Symbol(0)),
        b'1'..=b'9' => Some(Piece::Digit(b - b'0')),
        _ => None,
    }
}

pub(crate) fn any_above(numbers: &[u8]) -> bool
    ensures { result ≡ any_above_zero numbers.now }
{
    numbers.iter().any(|n| *n > 0)
}

// Whether no symbol may follow: fifteen came, or an edge that is not first.
fn is_shut(symbols: &[u8]) -> bool
    ensures { result ≡ shut symbols.now (length symbols.now) }
{
    symbols.len() >= LONGEST || matches!(symbols, [_, .., 0])
}

impl Pattern {
    /// The pattern that a text spells.
    pub fn read(text: &[u8]) -> Result<Pattern, BadPattern>
        ensures value { answer result ≡ reading text.now }
        ensures meaning { Judged text.now (answer result) }
    {
        // Arrays, as the spelling and the row keep them: vectors of fixed room would be copied out at the end.
        let mut symbols = [0; LONGEST];
        let mut values = [0; PLACES];
        let mut len = 0;
        for (i, b) in text.iter().enumerate() {
            let fault = BadPattern { column: i + 1 };
            match classify(*b).ok_or(fault)? {
                Piece::Symbol(s) => {
                    if is_shut(&symbols[..len]) {
                        return Err(fault);
                    }
                    symbols[len] = s;
                    len += 1;
                }
                Piece::Digit(d) => {
                    let after_digit = values[len] > 0;
                    if after_digit {
                        return Err(fault);
                    }
                    values[len] = d;
                }
            }
        }
        if !any_above(&symbols) || !any_above(&values) {
            return Err(BadPattern {
                column: text.len() + 1,
            });
        }
        let spelling = Spelling { len, symbols };
        Ok(Pattern {
            spelling,
            row: Row { values },
        })
    }
}
