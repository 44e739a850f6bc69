//! The calls of a tree book.
ghost use Rattle.std.specs.Prelude.{◌≡◌, [], length};
ghost use Rattle.tree.specs.Holds.{cells_of, most_of};
ghost use Rattle.makes.specs.TreeBooks.{booked};
ghost use Rattle.makes.specs.Sounds.{«tree_sound»};

use crate::treebook::TreeBook;
use books::book::{Full, ReadingBook, WritingBook};
use patterns::pattern::{Pattern, Row, Spelling};
use tree::cell::Cell;
use tree::joining::Joining;
use tree::standing::Standing;

impl<'a> TreeBook<'a> {
    /// A book that holds nothing, over cells of any contents. Its limit is 0 below 16 cells, and else a fifteenth of the cells
    /// but one.
    #[tactic(auto, using(crate::proofs::Booked::emptied))]
    pub fn new(cells: &'a mut [Cell<Row>]) -> TreeBook<'a>
        ensures none { booked result.standing.tree ≡ [] }
        ensures cells { cells_of result.standing.tree ≡ length cells.old }
    {
        let standing = Standing::new(cells);
        TreeBook { standing }
    }
}

impl<'a> ReadingBook for TreeBook<'a> {
    ghost held = { λ b. booked b.standing.tree };

    ghost sound = { λ b. «tree_sound» b.standing.tree b.standing.tree.count b.standing.stands b.bounded };

    fn row(&self, spelling: &Spelling) -> Row {
        self.standing.value(spelling)
    }

    fn count(&self) -> usize {
        self.standing.count()
    }

    fn least(&self) -> Option<Spelling> {
        self.standing.least()
    }

    fn least_after(&self, other: &Spelling) -> Option<Spelling> {
        self.standing.least_after(other)
    }
}

impl<'a> WritingBook for TreeBook<'a> {
    ghost most = { λ b. most_of b.standing.tree };

    fn limit(&self) -> usize {
        self.standing.limit()
    }

    fn raise(&mut self, pattern: &Pattern) -> Result<(), Full> {
        self.standing.join(&pattern.spelling, pattern.row)
    }

    #[tactic(auto, using(crate::proofs::Booked::emptied))]
    fn empty(&mut self) {
        self.standing.empty();
    }
}
