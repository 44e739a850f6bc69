//! The spelling tree.
ghost use Rattle.std.specs.Prelude.{◌≡◌, ◌≤◌, [], length};
ghost use Rattle.patterns.specs.Views.{symbols_of};
ghost use Rattle.books.specs.Maps.{lookup, least_of, after};
ghost use Rattle.books.specs.Calls.{spelling};
ghost use Rattle.tree.specs.Meanings.{Sound, meaning};
ghost use Rattle.tree.specs.Orderless.{AnyOrder};
ghost use Rattle.tree.specs.Holds.{held, cells_of, most_of};
ghost use Rattle.tree.specs.Stands.{limit_of, Stands, TreeJoins, Adding};

use crate::cell::Cell;
use crate::clear::clear;
use crate::hold::join_at;
use crate::joining::Joining;
use books::book::Full;
use patterns::pattern::Spelling;

/// Values at spellings, over lent cells: the first `used` cells are a tree that holds `count` spellings. The type keeps nothing
/// of that, so that cells of any contents can be given a limit and be emptied. The other calls ask for it, as `Stands`, and
/// leave it; `Standing` keeps it, and asks for nothing.
#[derive(Drop)]
pub struct Tree<'a, V> {
    pub cells: &'a mut [Cell<V>],
    pub used: usize,
    pub count: usize,
}

/// How many spellings so many cells can hold, whatever stands in them: 0 below 16 cells, and else a fifteenth of the cells but one.
pub fn spellings_in(cells: usize) -> usize
    ensures { result ≡ limit_of cells }
{
    cells.saturating_sub(1) / 15
}

impl<'a, V: Joining> Tree<'a, V> {
    /// A tree that holds nothing, over cells of any contents.
    pub fn new(cells: &'a mut [Cell<V>]) -> Tree<'a, V>
        ensures stands { Stands V.kind result.cells.now result.used result.count }
        ensures none { meaning V.kind result.cells.now result.used ≡ [] }
        ensures size { length result.cells.now ≡ length cells.old }
    {
        let used = clear(cells);
        Tree {
            cells,
            used,
            count: 0,
        }
    }

    /// How many spellings the cells can hold, whatever stands in them; a tree holds no more.
    pub fn limit(&self) -> usize
        ensures value { result ≡ limit_of (length self.now.cells.now) }
        ensures within { Stands V.kind self.now.cells.now self.now.used self.now.count → length (meaning V.kind self.now.cells.now self.now.used) ≤ result }
    {
        spellings_in(self.cells.len())
    }

    /// How many spellings hold something, each in its place in the order and none with a nothing.
    pub fn count(&self) -> usize
        requires { Stands V.kind self.now.cells.now self.now.used self.now.count }
        ensures value { result ≡ length (meaning V.kind self.now.cells.now self.now.used) }
        ensures sound { Sound V.kind (meaning V.kind self.now.cells.now self.now.used) }
    {
        self.count
    }

    /// The value at a spelling, or nothing.
    pub fn value(&self, spelling: &Spelling) -> V
        requires { Stands V.kind self.now.cells.now self.now.used self.now.count }
        ensures { result ≡ lookup V.kind.nothing (meaning V.kind self.now.cells.now self.now.used) (symbols_of spelling.now) }
    {
        match self.linked().find(spelling.symbols()) {
            Some(cell) => self.cells[cell].value,
            None => V::nothing(),
        }
    }

    /// The least spelling that holds something.
    pub fn least(&self) -> Option<Spelling>
        requires { Stands V.kind self.now.cells.now self.now.used self.now.count }
        ensures { spelling result ≡ least_of (meaning V.kind self.now.cells.now self.now.used) }
    {
        self.first_after(&[])
    }

    /// The least spelling that holds something and comes after another, which may hold something or not.
    pub fn least_after(&self, other: &Spelling) -> Option<Spelling>
        requires { Stands V.kind self.now.cells.now self.now.used self.now.count }
        ensures { spelling result ≡ least_of (after (symbols_of other.now) (meaning V.kind self.now.cells.now self.now.used)) }
    {
        self.first_after(other.symbols())
    }

    /// Joins `v` at a spelling. A nothing changes nothing. What is held in the end does not depend on the order in which values
    /// are joined.
    pub fn join(&mut self, spelling: &Spelling, v: V) -> Result<(), Full>
        requires { Stands V.kind self.old.cells.now self.old.used self.old.count }
        ensures stands { Stands V.kind self.new.cells.now self.new.used self.new.count }
        ensures cells { cells_of self.new ≡ cells_of self.old }
        ensures joined { TreeJoins V.kind self.old.cells.now self.new.cells.now self.old.used self.new.used self.old.count self.new.count (symbols_of spelling.now) v result }
        ensures added { Adding V.kind (held V.kind self.old) (most_of self.old) (symbols_of spelling.now) v result (held V.kind self.new) }
        ensures order { AnyOrder V.kind }
    {
        let symbols = spelling.symbols();
        if let Some(cell) = self.linked().holder(symbols) {
            join_at(self.cells, cell, v);
            return Ok(());
        }
        if self.count >= self.limit() {
            return Err(Full);
        }
        if v.is_nothing() {
            return Ok(());
        }
        let cell = self.descend(symbols);
        join_at(self.cells, cell, v);
        self.count += 1;
        Ok(())
    }

    /// Drops all, whatever the cells hold; the whole limit can be used then.
    pub fn empty(&mut self)
        ensures stands { Stands V.kind self.new.cells.now self.new.used self.new.count }
        ensures none { meaning V.kind self.new.cells.now self.new.used ≡ [] }
        ensures size { length self.new.cells.now ≡ length self.old.cells.now }
    {
        self.used = clear(self.cells);
        self.count = 0;
    }
}
