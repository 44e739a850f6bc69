//! The table: a writing book over lent rows.
#![tactic(auto)]

pub mod reading;
pub mod table;
pub mod writing;

#[cfg(test)]
mod tests {
    use crate::table::Table;
    use books::book::{ReadingBook, WritingBook};
    use patterns::pattern::{Pattern, Spelling};
    use std::test::Fail;

    fn pattern(text: &[u8]) -> Result<Pattern, Fail> {
        Pattern::read(text).map_err(|_| Fail::new("no pattern text"))
    }

    fn is(answer: Option<Spelling>, spelling: &Spelling) -> bool {
        answer.is_some_and(|other| other.compare(spelling).is_eq())
    }

    #[test]
    fn a_second_raise_keeps_the_greater_values(rt: HostRuntime) -> Result<(), Fail> {
        let first = pattern(b"1b2")?;
        let mut rows = [first; 2];
        let mut table = Table::new(&mut rows);
        assert!(rt; table.raise(&first).is_ok());
        assert!(rt; table.raise(&pattern(b"2b1")?).is_ok());
        assert!(rt; table.count() == 1);
        assert_eq!(rt;
            table.row(&first.spelling).values,
            [2, 2, 0, 0, 0, 0, 0, 0, 0, 0, 0, 0, 0, 0, 0, 0]
        );
        Ok(())
    }

    #[test]
    fn patterns_raised_in_any_order_stand_in_order(rt: HostRuntime) -> Result<(), Fail> {
        let (a, b, bb) = (pattern(b".a2")?, pattern(b"1b")?, pattern(b"2bb")?);
        let mut rows = [b; 3];
        let mut table = Table::new(&mut rows);
        assert!(rt; table.raise(&bb).is_ok());
        assert!(rt; table.raise(&a).is_ok());
        assert!(rt; table.raise(&b).is_ok());
        assert!(rt; table.count() == 3);
        assert!(rt; is(table.least(), &a.spelling));
        assert!(rt; is(table.least_after(&a.spelling), &b.spelling));
        assert!(rt; is(table.least_after(&b.spelling), &bb.spelling));
        assert!(rt; table.least_after(&bb.spelling).is_none());
        Ok(())
    }

    #[test]
    fn what_comes_after_a_spelling_that_is_not_held(rt: HostRuntime) -> Result<(), Fail> {
        let (a, b, bb) = (pattern(b"1a")?, pattern(b"1b")?, pattern(b"2bb")?);
        let mut rows = [b; 2];
        let mut table = Table::new(&mut rows);
        assert!(rt; table.raise(&a).is_ok());
        assert!(rt; table.raise(&bb).is_ok());
        assert!(rt; is(table.least_after(&b.spelling), &bb.spelling));
        assert_eq!(rt; table.row(&b.spelling).values, [0; 16]);
        Ok(())
    }

    #[test]
    fn a_full_table_refuses_a_new_spelling_and_stays(rt: HostRuntime) -> Result<(), Fail> {
        let (b, bb) = (pattern(b"1b")?, pattern(b"2bb")?);
        let mut rows = [bb; 1];
        let mut table = Table::new(&mut rows);
        assert!(rt; table.raise(&b).is_ok());
        assert!(rt; table.raise(&bb).is_err());
        assert!(rt; table.raise(&pattern(b"3b")?).is_ok());
        assert!(rt; table.count() == 1);
        assert!(rt; is(table.least(), &b.spelling));
        assert!(rt; table.row(&b.spelling).values[0] == 3);
        Ok(())
    }

    #[test]
    fn an_emptied_table_is_used_again(rt: HostRuntime) -> Result<(), Fail> {
        let (b, bb) = (pattern(b"1b")?, pattern(b"2bb")?);
        let mut rows = [bb; 1];
        let mut table = Table::new(&mut rows);
        assert!(rt; table.raise(&b).is_ok());
        table.empty();
        assert!(rt; table.count() == 0);
        assert!(rt; table.least().is_none());
        assert!(rt; table.raise(&bb).is_ok());
        assert!(rt; is(table.least(), &bb.spelling));
        Ok(())
    }

    #[test]
    fn a_table_of_no_rows_refuses_everything(rt: HostRuntime) -> Result<(), Fail> {
        let mut table = Table::new(&mut []);
        assert!(rt; table.limit() == 0);
        assert!(rt; table.raise(&pattern(b"1b")?).is_err());
        Ok(())
    }
}
