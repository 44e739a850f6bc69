//! A pattern made of a spelling and a row.
ghost use Rattle.patterns.specs.Views.{symbols_of, MadeOf};

use crate::pattern::{Pattern, Row, Spelling};
use crate::reading::any_above;

impl Pattern {
    /// The pattern of a spelling and a row, where the row has some value above 0 and none beyond the spelling's last place.
    pub fn new(spelling: Spelling, row: Row) -> Option<Pattern>
        ensures { MadeOf (symbols_of spelling) row.values result }
    {
        if !any_above(&row.values) || any_above(&row.values[spelling.len + 1..]) {
            return None;
        }
        Some(Pattern { spelling, row })
    }
}
