//! The search for a spelling.
ghost use Rattle.std.specs.Prelude.{◌<◌};
ghost use Rattle.std.specs.Option.{ForSome};
ghost use Rattle.tree.specs.Cells.{links, ups, Placed, Met, Child, Above};
ghost use Rattle.tree.specs.Paths.{Found};

use crate::linked::Linked;

/// Where a symbol stands, or would stand, among the children of a cell: after `before`, or in front of all, and at or before
/// `here`, or behind all.
#[derive(Clone, Copy)]
pub struct Place {
    pub before: Option<usize>,
    pub here: Option<usize>,
}

/// The child of a cell with a symbol, and the first child with a greater one.
#[derive(Clone, Copy)]
pub struct Sides {
    pub same: Option<usize>,
    pub above: Option<usize>,
}

impl<'a, V: Copy> Linked<'a, V> {
    // The place of `symbol` among the children of `at`.
    pub(crate) fn gap(&self, at: usize, symbol: u8) -> Place
        requires { at < self.now.used }
        ensures { Placed (links self.now.cells.now) (ups self.now.cells.now self.now.used) self.now.used at symbol result.before result.here }
    {
        let mut before = None;
        let mut here = self.cells[at].link.child();
        while let Some(cell) = here {
            let link = self.cells[cell].link;
            if link.symbol >= symbol {
                break;
            }
            before = here;
            here = link.sibling();
        }
        Place { before, here }
    }

    // The cell at a place, where it has the symbol.
    pub(crate) fn met(&self, place: Place, symbol: u8) -> Option<usize>
        requires { ForSome place.here (λ cell. cell < self.now.used) }
        ensures { Met (links self.now.cells.now) symbol place.here result }
    {
        let cell = place.here?;
        if self.cells[cell].link.symbol == symbol {
            Some(cell)
        } else {
            None
        }
    }

    // The two children next to `symbol`.
    pub(crate) fn beside(&self, at: usize, symbol: u8) -> Sides
        requires { at < self.now.used }
        ensures same { Child (links self.now.cells.now) (ups self.now.cells.now self.now.used) self.now.used at symbol result.same }
        ensures above { Above (links self.now.cells.now) (ups self.now.cells.now self.now.used) self.now.used at symbol result.above }
    {
        let place = self.gap(at, symbol);
        match self.met(place, symbol) {
            Some(cell) => Sides {
                same: Some(cell),
                above: self.cells[cell].link.sibling(),
            },
            None => Sides {
                same: None,
                above: place.here,
            },
        }
    }

    // The cell of a spelling.
    pub(crate) fn find(&self, spelling: &[u8]) -> Option<usize>
        ensures { Found (links self.now.cells.now) (ups self.now.cells.now self.now.used) self.now.used spelling.now result }
    {
        if self.used == 0 {
            return None;
        }
        let mut at = 0;
        for s in spelling {
            at = self.beside(at, *s).same?;
        }
        Some(at)
    }
}
