//! The cell that holds something at a spelling, and a value joined to that of a cell.
ghost use Rattle.std.specs.Prelude.{◌<◌, length};
ghost use Rattle.tree.specs.Stands.{JoinedAt, Holder};

use crate::cell::Cell;
use crate::joining::Joining;
use crate::linked::Linked;

pub(crate) fn join_at<V: Joining>(cells: &mut [Cell<V>], cell: usize, v: V)
    requires { cell < length cells.old }
    ensures { JoinedAt V.kind cells.old cells.new cell v }
{
    let old = cells[cell].value;
    let new = old.join(v);
    cells[cell].value = new;
}

impl<'a, V: Joining> Linked<'a, V> {
    // The cell of a spelling, where it holds something.
    pub(crate) fn holder(&self, spelling: &[u8]) -> Option<usize>
        ensures { Holder V.kind self.now.cells.now self.now.used spelling.now result }
    {
        let cell = self.find(spelling)?;
        if self.cells[cell].value.is_nothing() {
            None
        } else {
            Some(cell)
        }
    }
}
