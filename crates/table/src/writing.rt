//! What changes a table.
ghost use Rattle.std.specs.Prelude.{◌≡◌, ◌<◌, ◌≤◌, [], length};
ghost use Rattle.patterns.specs.Spellings.{no_values, greater};
ghost use Rattle.patterns.specs.Views.{symbols_of, spelled};
ghost use Rattle.books.specs.Calls.{Raising};
ghost use Rattle.books.specs.Laws.{MapLaws};
ghost use Rattle.table.specs.Rows.{opened};
ghost use Rattle.table.specs.Views.{rows_of, held_by, limit_of, RowsLeft};

use crate::table::Table;
use books::book::{Full, WritingBook};
use patterns::pattern::Pattern;

// A pattern of the same spelling with at each place the greater value.
fn joined(old: &Pattern, new: &Pattern) -> Pattern
    requires { symbols_of old.now.spelling ≡ symbols_of new.now.spelling }
    ensures { spelled result ≡ (symbols_of old.now.spelling, greater old.now.row.values new.now.row.values) }
{
    Pattern {
        spelling: old.spelling,
        row: old.row.greater(&new.row),
    }
}

impl<'a> Table<'a> {
    /// An empty table over rows, whatever these hold.
    pub fn new(rows: &'a mut [Pattern]) -> Table<'a>
        ensures held { held_by result ≡ [] }
        ensures limit { limit_of result ≡ length rows.old }
        ensures rows { rows_of result ≡ rows.old }
        ensures laws { MapLaws no_values }
    {
        Table { rows, used: 0 }
    }

    // Moves the rows in use from `at` on one further, and leaves only those before it in use.
    fn make_room(&mut self, at: usize)
        requires { (at ≤ self.old.used) × (self.old.used < limit_of self.old) }
        ensures used { self.new.used ≡ at }
        ensures rows { rows_of self.new ≡ opened (rows_of self.old) at self.old.used }
    {
        let used = self.used;
        self.used = at;
        self.rows.copy_within(at..used, at + 1);
    }
}

impl<'a> WritingBook for Table<'a> {
    ghost most = { limit_of };

    fn limit(&self) -> usize {
        self.rows.len()
    }

    fn raise(&mut self, pattern: &Pattern) -> Result<(), Full>
        ensures limit { limit_of self.new ≡ limit_of self.old }
        ensures held { Raising (held_by self.old) (limit_of self.old) (spelled pattern.now) result (held_by self.new) }
        ensures rows { RowsLeft self.old result self.new }
    {
        match self.find(&pattern.spelling) {
            Ok(at) => {
                let old = self.rows[at];
                self.rows[at] = joined(&old, pattern);
            }
            Err(at) => {
                let used = self.used;
                if used >= self.rows.len() {
                    return Err(Full);
                }
                self.make_room(at);
                self.rows[at] = *pattern;
                self.used = used + 1;
            }
        }
        Ok(())
    }

    fn empty(&mut self)
        ensures limit { limit_of self.new ≡ limit_of self.old }
        ensures held { held_by self.new ≡ [] }
        ensures rows { (self.new.used ≡ 0) × (rows_of self.new ≡ rows_of self.old) }
    {
        self.used = 0;
    }
}
