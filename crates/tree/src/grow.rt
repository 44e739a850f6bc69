//! A new cell.
ghost use Rattle.std.specs.Prelude.{◌<◌, length};
ghost use Rattle.tree.specs.Numbers.{number_of};
ghost use Rattle.tree.specs.Cells.{links, values, ups, Placed, Grown, Kept};

use crate::cell::{Cell, Link};
use crate::search::Place;

// Puts the next cell, with `symbol` and `value`, into its place among the children of `parent`. Between its two writes the
// cells are no tree.
pub(crate) fn insert<V: Copy>(
    cells: &mut [Cell<V>],
    used: usize,
    parent: usize,
    place: Place,
    symbol: u8,
    value: V,
)
    requires within { parent < used }
    requires room { used < length cells.old }
    requires place { Placed (links cells.old) (ups cells.old used) used parent symbol place.before place.here }
    ensures links { Grown (links cells.old) (links cells.new) used parent symbol (number_of place.before) (number_of place.here) }
    ensures values { Kept (values cells.old) (values cells.new) used value }
{
    // a cell with no child yet
    let link = Link {
        symbol,
        first: 0,
        next: place.here.unwrap_or(0),
    };
    cells[used] = Cell { link, value };
    match place.before {
        Some(before) => cells[before].link.next = used,
        None => cells[parent].link.first = used,
    }
}
