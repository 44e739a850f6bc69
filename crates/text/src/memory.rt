//! Writing a line of figures into lent text memory.
ghost use Rattle.std.specs.Prelude.{◌≡◌, ◌+◌, ◌≤◌, length, decimal};
ghost use Rattle.text.specs.Refusals.{six_of, short_refused};
ghost use Rattle.text.specs.Written.{commaed, line_of, overlaid, Wrote};

use crate::figures::COMMA;
use crate::refusal::{Reason, Refusal};
use itoa::Buffer;
use thiserror::Error;

/// The lent memory is shorter than the line.
#[derive(Clone, Copy, PartialEq, Eq, Debug, Error)]
#[error("the line is longer than its memory")]
pub struct Short;

impl From<Short> for Refusal {
    ghost from_gives = { λ _ r. six_of r ≡ short_refused };

    fn from(_short: Short) -> Refusal {
        Refusal::bare(Reason::ShortMemory.number())
    }
}

/// Writes `prefix` and then the figures in decimal, with a comma between neighbours, and answers the length of that line.
/// Beyond the line the memory stays as it was, and all of it does where it is too short.
pub fn write_line(prefix: &[u8], figures: &[u64], memory: &mut [u8]) -> Result<usize, Short>
    ensures { Wrote (line_of prefix.now figures.now) memory.old result memory.new }
{
    if line_length(prefix, figures) > memory.len() as u128 {
        return Err(Short);
    }
    let at = put(memory, 0, prefix);
    Ok(put_figures(memory, at, figures))
}

/// The length of the line; a `u128` holds it, however many figures there are.
fn line_length(prefix: &[u8], figures: &[u64]) -> u128
    ensures { result ≡ length (line_of prefix.now figures.now) }
{
    let commas = figures.len().saturating_sub(1);
    let mut total = prefix.len() as u128 + commas as u128;
    for figure in figures {
        total += digits(*figure) as u128;
    }
    total
}

/// How many digits a number has in decimal. Most figures of a line have one, which needs no buffer.
fn digits(n: u64) -> usize
    ensures { result ≡ length (decimal n) }
{
    if n < 10 {
        1
    } else {
        Buffer::new().format(n).len()
    }
}

// The place is handed on beside the memory: of a struct with both, the proof loses that it holds the lent memory to the end.

/// Writes the figures from `at` on, with a comma between neighbours, and answers where they end.
fn put_figures(memory: &mut [u8], at: usize, figures: &[u64]) -> usize
    requires { at + length (commaed figures.now) ≤ length memory.old }
    ensures end { result ≡ at + length (commaed figures.now) }
    ensures text { memory.new ≡ overlaid memory.old at (commaed figures.now) }
{
    let [first, rest @ ..] = figures else {
        return at;
    };
    let mut end = put_number(memory, at, *first);
    for figure in rest {
        end = put(memory, end, &[COMMA]);
        end = put_number(memory, end, *figure);
    }
    end
}

/// Writes `n` in decimal from `at` on, and answers where it ends.
fn put_number(memory: &mut [u8], at: usize, n: u64) -> usize
    requires { at + length (decimal n) ≤ length memory.old }
    ensures end { result ≡ at + length (decimal n) }
    ensures text { memory.new ≡ overlaid memory.old at (decimal n) }
{
    if n < 10 {
        return put(memory, at, &[b'0' + n as u8]);
    }
    put(memory, at, Buffer::new().format(n).as_bytes())
}

/// Writes a text from `at` on, and answers where it ends.
fn put(memory: &mut [u8], at: usize, text: &[u8]) -> usize
    requires { at + length text.now ≤ length memory.old }
    ensures end { result ≡ at + length text.now }
    ensures text { memory.new ≡ overlaid memory.old at text.now }
{
    let end = at + text.len();
    memory[at..end].copy_from_slice(text);
    end
}
