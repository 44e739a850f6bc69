//! The type of a word list over rows.
ghost use Rattle.std.specs.Prelude.{◌≡◌, ◌≤◌, length, drop};
ghost use Rattle.lists.specs.Rows.{rows_from, row_words, row_ending};

use words::row::WordRow;

/// The words of lent rows, of which the first `read` have been read.
// A number and no rest of the rows: it is what the list answers as read, and rewinding wants all rows.
#[derive(Clone, Copy)]
pub struct RowList<'a> {
    pub rows: &'a [WordRow],
    pub read: usize,
    ghost some: { read ≤ length (row_words rows.now) },
    // the rows that are left give what is left of the list, and its ending
    ghost left: { drop read (row_words rows.now) ≡ (rows_from read (drop read rows.now)).0 },
    ghost ends: { row_ending rows.now ≡ (rows_from read (drop read rows.now)).1 },
}
