//! Word lists: what a list of words means, the lists over the bytes of a text and over rows, and what a list counts.
#![tactic(auto)]

pub mod counting;
pub mod fault;
pub mod list;
pub mod rowlist;
pub mod rows;
pub mod textlist;
pub mod texts;

#[cfg(test)]
mod tests {
    use crate::counting::{ListCounts, count_list};
    use crate::rowlist::RowList;
    use crate::textlist::TextList;
    use std::test::Fail;
    use text::refusal::Refusal;
    use words::row::WordRow;
    use words::word::{Bounds, LONGEST};

    const BOUNDS: Bounds = Bounds { left: 1, right: 1 };

    const NO_LETTERS: WordRow = WordRow {
        len: 0,
        letters: [0; LONGEST],
        marks: 0,
    };

    #[test]
    fn lines_and_rows_of_the_same_words_count_the_same(rt: HostRuntime) {
        let mut rows = [NO_LETTERS; 2];
        rows[0].len = 2;
        rows[0].letters[0] = 1;
        rows[0].letters[1] = 2;
        rows[0].marks = 2;
        rows[1].len = 1;
        rows[1].letters[0] = 3;
        let of_lines = count_list(&mut TextList::new(b"a-b\n\nc"), BOUNDS).ok();
        let of_rows = count_list(&mut RowList::new(&rows), BOUNDS).ok();
        assert_eq!(rt; of_lines, of_rows);
        assert_eq!(rt;
            of_rows,
            Some(ListCounts {
                words: 2,
                hyphens: 1,
            })
        );
    }

    #[test]
    fn a_symbol_behind_the_letters_is_refused(rt: HostRuntime) -> Result<(), Fail> {
        let mut rows = [NO_LETTERS; 2];
        rows[0].len = 1;
        rows[0].letters[0] = 1;
        rows[1] = rows[0];
        rows[1].letters[1] = 2;
        let fault = count_list(&mut RowList::new(&rows), BOUNDS)
            .err()
            .ok_or("no row is refused")?;
        assert_eq!(rt; Refusal::from(fault), Refusal::at_byte(10, 2, 0));
        Ok(())
    }

    #[test]
    fn a_row_of_no_letters_is_refused(rt: HostRuntime) -> Result<(), Fail> {
        let fault = count_list(&mut RowList::new(&[NO_LETTERS]), BOUNDS)
            .err()
            .ok_or("no row is refused")?;
        assert_eq!(rt; Refusal::from(fault), Refusal::at_byte(10, 1, 0));
        Ok(())
    }
}
