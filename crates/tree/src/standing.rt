//! A tree that stands.
ghost use Rattle.std.specs.Prelude.{◌≡◌, ◌≤◌, [], length};
ghost use Rattle.patterns.specs.Views.{symbols_of};
ghost use Rattle.books.specs.Maps.{lookup, least_of, after};
ghost use Rattle.books.specs.Calls.{spelling};
ghost use Rattle.tree.specs.Meanings.{Sound};
ghost use Rattle.tree.specs.Orderless.{AnyOrder};
ghost use Rattle.tree.specs.Holds.{held, cells_of, most_of};
ghost use Rattle.tree.specs.Stands.{Stands, TreeJoins, Adding};

use crate::cell::Cell;
use crate::joining::Joining;
use crate::tree::Tree;
use books::book::Full;
use patterns::pattern::Spelling;

/// Values at spellings, over lent cells. The cells are a tree that holds `count` spellings: that the type keeps, so that its
/// calls ask for nothing.
#[derive(Drop)]
pub struct Standing<'a, V: Joining> {
    pub tree: Tree<'a, V>,
    pub ghost stands: { ∥ Stands V.kind tree.cells.now tree.used tree.count ∥₁ },
}

impl<'a, V: Joining> Standing<'a, V> {
    /// A tree that holds nothing, over cells of any contents.
    pub fn new(cells: &'a mut [Cell<V>]) -> Standing<'a, V>
        ensures none { held V.kind result.tree ≡ [] }
        ensures cells { cells_of result.tree ≡ length cells.old }
    {
        let tree = Tree::new(cells);
        Standing { tree }
    }

    /// How many spellings the tree can hold: as many as its cells can.
    pub fn limit(&self) -> usize
        ensures value { result ≡ most_of self.now.tree }
        ensures within { length (held V.kind self.now.tree) ≤ result }
    {
        self.tree.limit()
    }

    /// How many spellings hold something, each in its place in the order and none with a nothing.
    pub fn count(&self) -> usize
        ensures value { result ≡ length (held V.kind self.now.tree) }
        ensures sound { Sound V.kind (held V.kind self.now.tree) }
    {
        self.tree.count()
    }

    /// The value at a spelling, or nothing.
    pub fn value(&self, spelling: &Spelling) -> V
        ensures { result ≡ lookup V.kind.nothing (held V.kind self.now.tree) (symbols_of spelling.now) }
    {
        self.tree.value(spelling)
    }

    /// The least spelling that holds something.
    pub fn least(&self) -> Option<Spelling>
        ensures { spelling result ≡ least_of (held V.kind self.now.tree) }
    {
        self.tree.least()
    }

    /// The least spelling that holds something and comes after another, which may hold something or not.
    pub fn least_after(&self, other: &Spelling) -> Option<Spelling>
        ensures { spelling result ≡ least_of (after (symbols_of other.now) (held V.kind self.now.tree)) }
    {
        self.tree.least_after(other)
    }

    /// Joins `v` at a spelling. A nothing changes nothing. What is held in the end does not depend on the order in which values
    /// are joined.
    pub fn join(&mut self, spelling: &Spelling, v: V) -> Result<(), Full>
        ensures cells { cells_of self.new.tree ≡ cells_of self.old.tree }
        ensures joined { TreeJoins V.kind self.old.tree.cells.now self.new.tree.cells.now self.old.tree.used self.new.tree.used self.old.tree.count self.new.tree.count (symbols_of spelling.now) v result }
        ensures added { Adding V.kind (held V.kind self.old.tree) (most_of self.old.tree) (symbols_of spelling.now) v result (held V.kind self.new.tree) }
        ensures order { AnyOrder V.kind }
    {
        self.tree.join(spelling, v)
    }

    /// Drops all; the whole limit can be used again.
    pub fn empty(&mut self)
        ensures cells { cells_of self.new.tree ≡ cells_of self.old.tree }
        ensures none { held V.kind self.new.tree ≡ [] }
    {
        self.tree.empty();
    }
}
