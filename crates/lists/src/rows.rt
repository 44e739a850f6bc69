//! The word list over rows.
ghost use Rattle.std.specs.Prelude.{◌≡◌, ℕ, ◌+◌, ◌≤◌, length, drop};
ghost use Rattle.lists.specs.Rows.{rows_from, row_content, RowsListed};
ghost use Rattle.lists.specs.Few.{row_few};
ghost use Rattle.lists.specs.Calls.{Gives};

use crate::fault::ListFault;
use crate::list::{FULLEST, WordList};
use crate::rowlist::RowList;
use words::row::WordRow;
use words::word::Word;

// The word of the row behind the first `read`.
fn word_at(rows: &[WordRow], read: usize) -> Result<Option<Word>, ListFault>
    ensures { Gives (rows_from read (drop read rows.now)) result (rows_from (read + 1) (drop (read + 1) rows.now)) }
{
    let Some(row) = rows.get(read) else {
        return Ok(None);
    };
    if read >= FULLEST {
        return Err(ListFault::TooMany { line: read + 1 });
    }
    match Word::try_from(*row) {
        Ok(word) => Ok(Some(word)),
        Err(_) => Err(ListFault::BadRow { row: read + 1 }),
    }
}

impl<'a> RowList<'a> {
    /// The word list of rows.
    pub fn new(rows: &'a [WordRow]) -> RowList<'a>
        ensures list { (result.rows.now ≡ rows.now) × (result.read ≡ 0) }
        ensures meaning { RowsListed 0 rows.now (row_content rows.now) }
    {
        RowList { rows, read: 0 }
    }
}

impl<'a> WordList for RowList<'a> {
    ghost content = { λ l. row_content l.rows.now };

    ghost taken = { λ l. l.read };

    ghost few = { λ l. (row_few l.rows.now, l.some) };

    fn rewind(&mut self) {
        *self = RowList::new(self.rows);
    }

    fn next(&mut self) -> Result<Option<Word>, ListFault> {
        let RowList { rows, read } = *self;
        let word = word_at(rows, read)?;
        if word.is_some() {
            *self = RowList {
                rows,
                read: read + 1,
            };
        }
        Ok(word)
    }

    fn words_read(&self) -> usize {
        self.read
    }
}
