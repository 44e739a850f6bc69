//! Reading a text line by line.
ghost use Rattle.std.specs.Prelude.{◌≡◌, length};
ghost use Rattle.std.specs.Iterator.{at_most};
ghost use Rattle.text.specs.Cursor.{unread, NextLine};

use crate::cursor::Lines;
use crate::cuts::cut;

/// The byte that ends a line.
const FEED: u8 = b'\n';

impl<'a> Lines<'a> {
    /// The lines of a text, none of them read.
    pub fn new(text: &'a [u8]) -> Lines<'a>
        ensures all { unread result ≡ text.now }
        ensures none { result.number ≡ 0 }
    {
        Lines {
            rest: text,
            number: 0,
        }
    }
}

impl<'a> Iterator for Lines<'a> {
    type Item = &'a [u8];

    ghost next_gives = { NextLine };

    ghost remaining = { λ l. at_most (length (unread l)) };

    /// The next line, without its line feed.
    fn next(&mut self) -> Option<&'a [u8]> {
        if self.rest.is_empty() {
            return None;
        }
        let (line, rest) = cut(self.rest, FEED);
        *self = Lines {
            rest: rest.unwrap_or(&[]),
            number: self.number + 1,
        };
        Some(line)
    }
}
