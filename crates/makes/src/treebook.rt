//! The type of a tree book.
ghost use Rattle.std.specs.Prelude.{◌≡◌, ℕ, ◌<◌, List, length, slice_index};
ghost use Rattle.books.specs.Maps.{lookup};
ghost use Rattle.tree.specs.RowKind.{no_row};
ghost use Rattle.makes.specs.TreeBooks.{rows};

use patterns::pattern::Row;
use tree::standing::Standing;

/// A book of patterns, over lent cells.
#[derive(Drop)]
pub struct TreeBook<'a> {
    pub(crate) standing: Standing<'a, Row>,
    // no row has a value beyond the last place of its spelling
    ghost bounded: { (u : List ℕ) (k : ℕ) → length u < k → slice_index (lookup no_row (rows standing.tree) u).values k ≡ 0 },
}
