//! Cells that are linked as a tree.
ghost use Rattle.std.specs.Prelude.{◌≡◌, ◌≤◌, length};
ghost use Rattle.tree.specs.Cells.{IsTree};

use crate::cell::Cell;
use crate::tree::Tree;

/// Cells to look into, the first `used` of which are a tree. A cell is named by its number, of which no type can say that it is
/// below the `used` of these cells: functions ask for that.
#[derive(Drop)]
pub struct Linked<'a, V> {
    pub cells: &'a [Cell<V>],
    pub used: usize,
    pub ghost tree: { ∥ IsTree cells.now used ∥₁ },
    pub ghost room: { used ≤ length cells.now },
}

impl<'a, V: Copy> Tree<'a, V> {
    // The cells, to look into.
    pub(crate) fn linked(&self) -> Linked<'_, V>
        requires tree { IsTree self.now.cells.now self.now.used }
        requires room { self.now.used ≤ length self.now.cells.now }
        ensures cells { result.cells.now ≡ self.now.cells.now }
        ensures used { result.used ≡ self.now.used }
    {
        Linked {
            cells: self.cells,
            used: self.used,
        }
    }
}
