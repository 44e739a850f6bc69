//! The first spelling held of those that come after another.
ghost use Rattle.std.specs.Prelude.{◌≡◌, ◌<◌, ◌≤◌, [], ◌∷◌, ◌++◌, length, take};
ghost use Rattle.patterns.specs.Spellings.{longest};
ghost use Rattle.patterns.specs.Views.{symbols_of};
ghost use Rattle.books.specs.Maps.{least_of, after};
ghost use Rattle.books.specs.Calls.{spelling};
ghost use Rattle.tree.specs.Cells.{links, ups, at};
ghost use Rattle.tree.specs.Paths.{spelling_at};
ghost use Rattle.tree.specs.Holds.{held};
ghost use Rattle.tree.specs.Stands.{Stands};
ghost use Rattle.tree.specs.Leasts.{Written, turning, Next, FirstFrom};

use crate::joining::Joining;
use crate::linked::Linked;
use crate::tree::Tree;
use patterns::pattern::{LONGEST, Spelling};

/// A cell whose spelling turns off from another one behind its first `depth` symbols.
#[derive(Clone, Copy)]
pub struct Turn {
    pub cell: usize,
    pub depth: usize,
}

/// A cell, and its spelling, the first `len` of `symbols`, behind which there is only 0. It may have no letter yet, so that it is
/// no `Spelling`.
// An array with its length, as the spelling that is made of it.
#[derive(Clone, Copy)]
pub struct Way {
    pub cell: usize,
    pub len: usize,
    pub symbols: [u8; LONGEST],
}

// The turn to a cell, where there is one.
pub(crate) fn turn_to(cell: Option<usize>, depth: usize) -> Option<Turn>
    ensures { result ≡ turning cell depth }
{
    Some(Turn { cell: cell?, depth })
}

impl<'a, V: Copy> Linked<'a, V> {
    // The first cell whose spelling comes after another.
    pub(crate) fn next_cell(&self, other: &[u8]) -> Option<Turn>
        ensures { Next (links self.now.cells.now) (ups self.now.cells.now self.now.used) self.now.used other.now result }
    {
        if self.used == 0 {
            return None;
        }
        let mut best = None;
        let mut at = 0;
        for (depth, s) in other.iter().enumerate() {
            let sides = self.beside(at, *s);
            best = turn_to(sides.above, depth).or(best);
            let Some(same) = sides.same else {
                return best;
            };
            at = same;
        }
        turn_to(self.cells[at].link.child(), other.len()).or(best)
    }

    // The way to a cell that turns off from another spelling.
    pub(crate) fn way_to(&self, other: &[u8], turn: Turn) -> Way
        requires within { turn.cell < self.now.used }
        requires inside { turn.depth ≤ length other.now }
        requires short { turn.depth < longest }
        ensures cell { result.cell ≡ turn.cell }
        ensures written { Written (take turn.depth other.now ++ ((at (links self.now.cells.now) turn.cell).symbol ∷ [])) result.len result.symbols }
    {
        let Turn { cell, depth } = turn;
        let mut symbols = [0; LONGEST];
        symbols[..depth].copy_from_slice(&other[..depth]);
        symbols[depth] = self.cells[cell].link.symbol;
        Way {
            cell,
            len: depth + 1,
            symbols,
        }
    }
}

impl<'a, V: Joining> Tree<'a, V> {
    // The first spelling held from that of a cell on.
    fn first_from(&self, way: Way) -> Spelling
        requires stands { Stands V.kind self.now.cells.now self.now.used self.now.count }
        requires inner { 0 < way.cell }
        requires within { way.cell < self.now.used }
        requires written { Written (spelling_at self.now.cells.now self.now.used way.cell) way.len way.symbols }
        ensures { FirstFrom V.kind self.now.cells.now self.now.used way.cell (symbols_of result) }
    {
        let cells = &*self.cells;
        let mut at = way.cell;
        let mut len = way.len;
        let mut symbols = way.symbols;
        // down to a first child, which each cell that holds nothing has, so that its number is no 0
        while cells[at].value.is_nothing() {
            at = cells[at].link.first;
            symbols[len] = cells[at].link.symbol;
            len += 1;
        }
        Spelling { len, symbols }
    }

    // The first spelling held of those that come after another.
    pub(crate) fn first_after(&self, other: &[u8]) -> Option<Spelling>
        requires { Stands V.kind self.now.cells.now self.now.used self.now.count }
        ensures { spelling result ≡ least_of (after other.now (held V.kind self.now)) }
    {
        let linked = self.linked();
        let turn = linked.next_cell(other)?;
        let way = linked.way_to(other, turn);
        Some(self.first_from(way))
    }
}
