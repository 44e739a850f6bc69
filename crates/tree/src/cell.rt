//! The cells of a spelling tree.
ghost use Rattle.std.specs.Prelude.{◌≡◌};
ghost use Rattle.tree.specs.Numbers.{cell_of};

/// The place of a cell in the tree: its symbol, its first child and its next sibling, whose symbol is greater. Cells are lent
/// with any contents, and 0, the number of the root, stands for no cell.
// An `Option` of a number has twice the room of the number, in each link of the lent memory: `child` and `sibling` give one.
#[derive(Clone, Copy, Default)]
pub struct Link {
    pub symbol: u8,
    pub first: usize,
    pub next: usize,
}

/// A cell, and the value at its spelling, which is the symbols on the way down to it.
#[derive(Clone, Copy)]
pub struct Cell<V> {
    pub link: Link,
    pub value: V,
}

impl Link {
    // The first child.
    pub(crate) fn child(self) -> Option<usize>
        ensures { result ≡ cell_of self.first }
    {
        numbered(self.first)
    }

    // The next sibling.
    pub(crate) fn sibling(self) -> Option<usize>
        ensures { result ≡ cell_of self.next }
    {
        numbered(self.next)
    }
}

// The cell that a link names by a number.
fn numbered(number: usize) -> Option<usize>
    ensures { result ≡ cell_of number }
{
    if number == 0 { None } else { Some(number) }
}
