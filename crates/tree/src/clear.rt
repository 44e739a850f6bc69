//! A tree that holds nothing.
ghost use Rattle.std.specs.Prelude.{◌≡◌, []};
ghost use Rattle.tree.specs.Meanings.{meaning};
ghost use Rattle.tree.specs.Stands.{Stands};

use crate::cell::{Cell, Link};
use crate::joining::Joining;

// Makes cells of any contents a tree that holds nothing, and answers how many are in use.
pub(crate) fn clear<V: Joining>(cells: &mut [Cell<V>]) -> usize
    ensures stands { Stands V.kind cells.new result 0 }
    ensures none { meaning V.kind cells.new result ≡ [] }
{
    if cells.is_empty() {
        return 0;
    }
    // the root alone: no child, and no sibling
    let link = Link {
        symbol: 0,
        first: 0,
        next: 0,
    };
    cells[0] = Cell {
        link,
        value: V::nothing(),
    };
    1
}
