//! The way down a spelling, on which the cells that are missing are made.
ghost use Rattle.std.specs.Prelude.{◌≡◌, ◌+◌, ◌<◌, ◌≤◌, length};
ghost use Rattle.patterns.specs.Spellings.{longest};
ghost use Rattle.tree.specs.Cells.{IsTree};
ghost use Rattle.tree.specs.Descents.{Leaves, Shallow, Step, Descent};

use crate::grow::insert;
use crate::joining::Joining;
use crate::tree::Tree;

impl<'a, V: Joining> Tree<'a, V> {
    // One symbol further down from `at`, to a new cell where there is none.
    pub(crate) fn step(&mut self, at: usize, symbol: u8) -> usize
        requires tree { IsTree self.old.cells.now self.old.used }
        requires within { at < self.old.used }
        requires room { self.old.used < length self.old.cells.now }
        ensures count { self.new.count ≡ self.old.count }
        ensures step { Step V.kind self.old.cells.now self.new.cells.now self.old.used self.new.used at symbol result }
    {
        let linked = self.linked();
        let place = linked.gap(at, symbol);
        if let Some(cell) = linked.met(place, symbol) {
            return cell;
        }
        let used = self.used;
        insert(self.cells, used, at, place, symbol, V::nothing());
        self.used = used + 1;
        used
    }

    // From the root down a spelling.
    pub(crate) fn descend(&mut self, spelling: &[u8]) -> usize
        requires tree { IsTree self.old.cells.now self.old.used }
        requires begun { 0 < self.old.used }
        requires room { self.old.used + length spelling.now ≤ length self.old.cells.now }
        requires short { length spelling.now ≤ longest }
        requires leaves { Leaves V.kind self.old.cells.now self.old.used 0 }
        requires shallow { Shallow self.old.cells.now self.old.used }
        ensures count { self.new.count ≡ self.old.count }
        ensures descent { Descent V.kind self.old.cells.now self.new.cells.now self.old.used self.new.used spelling.now result }
    {
        let mut at = 0;
        for s in spelling {
            at = self.step(at, *s);
        }
        at
    }
}
