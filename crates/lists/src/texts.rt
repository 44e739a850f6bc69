//! The word list over the bytes of a text.
ghost use Rattle.std.specs.Prelude.{◌≡◌, ℕ, ◌+◌, ◌≤◌, length};
ghost use Rattle.text.specs.Lines.{lines_of};
ghost use Rattle.text.specs.Cursor.{unread, Follows};
ghost use Rattle.lists.specs.Texts.{content_from, text_content, Listed};
ghost use Rattle.lists.specs.Few.{text_few};
ghost use Rattle.lists.specs.Calls.{Gives};

use crate::fault::ListFault;
use crate::list::{FULLEST, WordList};
use crate::textlist::TextList;
use text::cursor::Lines;
use words::line::read_line;
use words::word::Word;

// The next word of a text of which `read` words have been read.
fn next_word<'a>(lines: &mut Lines<'a>, read: usize) -> Result<Option<Word>, ListFault>
    ensures inside { Follows lines.old lines.new }
    ensures gives { Gives (content_from (lines.old.number + 1) read (lines_of (unread lines.old))) result (content_from (lines.new.number + 1) (read + 1) (lines_of (unread lines.new))) }
{
    // No `for`, which would take the lines: they are asked for the number of each.
    while let Some(line) = lines.next() {
        if !line.is_empty() && read >= FULLEST {
            return Err(ListFault::TooMany { line: lines.number });
        }
        let word = read_line(lines.number, line)?;
        if word.is_some() {
            return Ok(word);
        }
    }
    Ok(None)
}

impl<'a> TextList<'a> {
    /// The word list of a text.
    pub fn new(text: &'a [u8]) -> TextList<'a>
        ensures list { (result.text.now ≡ text.now) × (result.read ≡ 0) }
        ensures meaning { Listed 1 0 (lines_of text.now) (text_content text.now) }
    {
        TextList {
            text,
            lines: Lines::new(text),
            read: 0,
        }
    }
}

impl<'a> WordList for TextList<'a> {
    ghost content = { λ l. text_content l.text.now };

    ghost taken = { λ l. l.read };

    ghost few = { λ l. (text_few l.text.now, l.some) };

    fn rewind(&mut self) {
        *self = TextList::new(self.text);
    }

    fn next(&mut self) -> Result<Option<Word>, ListFault> {
        let TextList {
            text,
            mut lines,
            read,
        } = *self;
        let word = next_word(&mut lines, read)?;
        if word.is_some() {
            *self = TextList {
                text,
                lines,
                read: read + 1,
            };
        }
        Ok(word)
    }

    fn words_read(&self) -> usize {
        self.read
    }
}
