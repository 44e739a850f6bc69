//! Rows as values of a spelling tree.
ghost use Rattle.tree.specs.RowKind.{row_kind};

use crate::joining::Joining;
use patterns::pattern::Row;

impl Joining for Row {
    ghost kind = { row_kind };

    fn nothing() -> Row {
        Row::none()
    }

    fn join(self, other: Row) -> Row {
        self.greater(&other)
    }

    fn is_nothing(self) -> bool {
        self.values.iter().all(|value| *value == 0)
    }
}
