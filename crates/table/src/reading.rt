//! What a table answers.
ghost use Rattle.std.specs.Prelude.{◌≡◌, ◌<◌, ◌≤◌, map, take, MatchResult};
ghost use Rattle.patterns.specs.Views.{symbols_of, spelled};
ghost use Rattle.books.specs.Maps.{least_of};
ghost use Rattle.books.specs.Calls.{spelling as spellingOf};
ghost use Rattle.table.specs.Places.{Found};
ghost use Rattle.table.specs.Soundness.{sound_of};
ghost use Rattle.table.specs.Views.{rows_of, held_by};

use crate::table::Table;
use books::book::ReadingBook;
use patterns::pattern::{Pattern, Row, Spelling};

// The spelling of the first row.
fn first_spelling(rows: &[Pattern]) -> Option<Spelling>
    ensures { spellingOf result ≡ least_of (map spelled rows.now) }
{
    rows.first().map(|pattern| pattern.spelling)
}

impl<'a> Table<'a> {
    // The rows in use.
    fn in_use(&self) -> &[Pattern]
        ensures { result.now ≡ take self.now.used (rows_of self.now) }
    {
        &self.rows[..self.used]
    }

    // The place of a spelling among the rows in use, or where it would stand.
    pub(crate) fn find(&self, spelling: &Spelling) -> Result<usize, usize>
        ensures within { MatchResult result (λ i. i < self.now.used) (λ i. i ≤ self.now.used) }
        ensures place { Found (held_by self.now) (symbols_of spelling.now) result }
    {
        self.in_use()
            .binary_search_by(|row| row.spelling.compare(spelling))
    }
}

impl<'a> ReadingBook for Table<'a> {
    ghost held = { held_by };

    ghost sound = { λ t. sound_of (rows_of t) t.used t.ordered };

    fn row(&self, spelling: &Spelling) -> Row {
        match self.find(spelling) {
            Ok(at) => self.rows[at].row,
            Err(_) => Row::none(),
        }
    }

    fn count(&self) -> usize {
        self.used
    }

    fn least(&self) -> Option<Spelling> {
        first_spelling(self.in_use())
    }

    fn least_after(&self, other: &Spelling) -> Option<Spelling> {
        let behind = match self.find(other) {
            Ok(at) => at + 1,
            Err(at) => at,
        };
        first_spelling(&self.in_use()[behind..])
    }
}
