//! The type of a word list over a text.
ghost use Rattle.std.specs.Prelude.{◌≡◌, ◌+◌, ◌≤◌, length, drop};
ghost use Rattle.text.specs.Lines.{lines_of};
ghost use Rattle.text.specs.Cursor.{unread, StandsIn};
ghost use Rattle.lists.specs.Texts.{content_from, text_words, text_ending};

use text::cursor::Lines;

/// The words of a text in lent bytes: `lines` is what of it comes behind the line of the last word read.
#[derive(Clone, Copy)]
pub struct TextList<'a> {
    pub text: &'a [u8],
    pub lines: Lines<'a>,
    pub read: usize,
    // the lines are those of this text
    pub ghost inside: { StandsIn text.now lines },
    ghost some: { read ≤ length (text_words text.now) },
    // what is left of the text gives what is left of the list, and its ending
    ghost left: { drop read (text_words text.now) ≡ (content_from (lines.number + 1) read (lines_of (unread lines))).0 },
    ghost ends: { text_ending text.now ≡ (content_from (lines.number + 1) read (lines_of (unread lines))).1 },
}
