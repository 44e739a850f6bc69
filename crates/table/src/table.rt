//! The type of a table.
ghost use Rattle.std.specs.Prelude.{◌≤◌, length};
ghost use Rattle.table.specs.Rows.{InOrder};

use patterns::pattern::Pattern;

/// Patterns in lent rows, in the order of their spellings; the first `used` rows are in use.
// The rows are lent, and of a fixed number: so the number in use stands beside them.
#[derive(Drop)]
pub struct Table<'a> {
    pub rows: &'a mut [Pattern],
    pub used: usize,
    ghost within: { used ≤ length rows.now },
    ghost ordered: { InOrder rows.now used },
}
