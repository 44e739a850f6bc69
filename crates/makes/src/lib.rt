//! The makes over a spelling tree: a book of patterns, and a tally of counts.
#![tactic(auto)]

pub mod booking;
pub mod counting;
pub mod counts;
pub mod tally;
pub mod treebook;

#[cfg(test)]
mod tests {
    use crate::counts::Counts;
    use crate::tally::Tally;
    use crate::treebook::TreeBook;
    use books::book::{ReadingBook, WritingBook};
    use patterns::pattern::{Pattern, Row, Spelling};
    use std::process::Abort;
    use std::test::Fail;
    use tree::cell::{Cell, Link};
    use tree::tree::Tree;

    // A cell with links that lead astray.
    fn old_cell<V: Copy>(value: V) -> Cell<V> {
        let link = Link {
            symbol: 9,
            first: 99,
            next: 99,
        };
        Cell { link, value }
    }

    fn counts(good: u32, bad: u32) -> Counts {
        Counts { good, bad }
    }

    // The tests of the table have the same: shared, it would be a public function of a library.
    fn read(text: &[u8]) -> Result<Pattern, Fail> {
        Pattern::read(text).map_err(|_| Fail::new("no pattern"))
    }

    fn is(rt: &impl Abort, found: Option<Spelling>, text: &[u8]) -> Result<(), Fail> {
        let wanted = read(text)?.spelling;
        let spelling = found.ok_or("nothing found")?;
        assert!(rt; spelling == wanted);
        Ok(())
    }

    #[test]
    fn sixteen_cells_hold_a_spelling_and_thirty_one_hold_two(rt: HostRuntime) {
        let old = old_cell(counts(1, 2));
        assert_eq!(rt; Tally::new(&mut [old; 15]).limit(), 0);
        assert_eq!(rt; Tally::new(&mut [old; 16]).limit(), 1);
        assert_eq!(rt; Tally::new(&mut [old; 30]).limit(), 1);
        assert_eq!(rt; Tally::new(&mut [old; 31]).limit(), 2);
    }

    #[test]
    fn counts_are_added_and_stop_at_the_ceiling(rt: HostRuntime) -> Result<(), Fail> {
        let mut cells = [old_cell(counts(1, 2)); 31];
        let mut tally = Tally::new(&mut cells);
        let ab = read(b"a1b")?.spelling;
        assert!(rt; tally.join(&ab, counts(u32::MAX, 3)).is_ok());
        assert!(rt; tally.join(&ab, counts(5, 4)).is_ok());
        let held = tally.value(&ab);
        assert_eq!(rt; held.good, u32::MAX);
        assert_eq!(rt; held.bad, 7);
        assert_eq!(rt; tally.count(), 1);
        Ok(())
    }

    #[test]
    fn counts_of_0_make_no_entry(rt: HostRuntime) -> Result<(), Fail> {
        let mut cells = [old_cell(counts(1, 2)); 16];
        let mut tally = Tally::new(&mut cells);
        assert!(rt; tally.join(&read(b"a1b")?.spelling, counts(0, 0)).is_ok());
        assert_eq!(rt; tally.count(), 0);
        assert!(rt; tally.least().is_none());
        Ok(())
    }

    #[test]
    fn any_cells_have_a_limit_and_can_be_emptied(rt: HostRuntime) -> Result<(), Fail> {
        let mut tree = Tree {
            cells: &mut [old_cell(counts(1, 2)); 31],
            used: 99,
            count: 99,
        };
        assert_eq!(rt; tree.limit(), 2);
        tree.empty();
        assert_eq!(rt; tree.count(), 0);
        let ab = read(b"a1b")?.spelling;
        assert!(rt; tree.join(&ab, counts(3, 4)).is_ok());
        assert_eq!(rt; tree.value(&ab).bad, 4);
        is(&rt, tree.least(), b"a1b")
    }

    #[test]
    fn spellings_come_in_order(rt: HostRuntime) -> Result<(), Fail> {
        let mut cells = [old_cell(Row::none()); 99];
        let mut book = TreeBook::new(&mut cells);
        assert!(rt; book.raise(&read(b"b1c")?).is_ok());
        assert!(rt; book.raise(&read(b"a1bc")?).is_ok());
        assert!(rt; book.raise(&read(b".a1")?).is_ok());
        assert!(rt; book.raise(&read(b"a1b")?).is_ok());
        is(&rt, book.least(), b".a1")?;
        is(&rt, book.least_after(&read(b".a1")?.spelling), b"a1b")?;
        is(&rt, book.least_after(&read(b"a1b")?.spelling), b"a1bc")?;
        is(&rt, book.least_after(&read(b"a1bd")?.spelling), b"b1c")?;
        assert!(rt; book.least_after(&read(b"b1c")?.spelling).is_none());
        Ok(())
    }

    #[test]
    fn a_full_book_is_unchanged_and_can_be_emptied(rt: HostRuntime) -> Result<(), Fail> {
        let mut cells = [old_cell(Row::none()); 16];
        let mut book = TreeBook::new(&mut cells);
        assert!(rt; book.raise(&read(b"a1b")?).is_ok());
        assert!(rt; book.raise(&read(b"c1")?).is_err());
        assert!(rt; book.raise(&read(b"a2b3")?).is_ok());
        assert_eq!(rt; book.count(), 1);
        let row = book.row(&read(b"a1b")?.spelling);
        assert!(rt; row.values[1] == 2);
        assert!(rt; row.values[2] == 3);
        book.empty();
        assert_eq!(rt; book.count(), 0);
        assert!(rt; book.raise(&read(b"c1")?).is_ok());
        is(&rt, book.least(), b"c1")
    }
}
