//! Reading the figures of a line.
ghost use Rattle.std.specs.Prelude.{◌≡◌};
ghost use Rattle.text.specs.Figures.{pieces, figure_of, figures_of};

use crate::cuts::cut;

/// What stands between neighbouring figures.
pub const COMMA: u8 = b',';

/// A figure has at most this many digits.
const MOST_DIGITS: usize = 7;

/// The figures of a line that is `N` figures, each of 1 to 7 decimal digits, with one comma between neighbours.
/// A line that is anything else has none.
pub fn read_figures<const N: usize>(line: &[u8]) -> Option<[u32; N]>
    ensures { result ≡ figures_of N (pieces line.now) }
{
    let mut figures = [0; N];
    let mut rest = Some(line);
    for figure in figures.iter_mut() {
        let (piece, after) = cut(rest?, COMMA);
        *figure = read_figure(piece)?;
        rest = after;
    }
    match rest {
        Some(_) => None,
        None => Some(figures),
    }
}

/// The value of a piece, if it is 1 to 7 decimal digits and nothing else.
fn read_figure(piece: &[u8]) -> Option<u32>
    ensures { result ≡ figure_of piece.now }
{
    if piece.is_empty() || piece.len() > MOST_DIGITS {
        return None;
    }
    let mut value = 0;
    for b in piece {
        if !b.is_ascii_digit() {
            return None;
        }
        value = value * 10 + u32::from(*b - b'0');
    }
    Some(value)
}
