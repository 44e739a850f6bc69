//! Patterns: spellings and their order, rows of values, and pattern text both ways.
#![tactic(auto)]

pub mod making;
pub mod order;
pub mod parts;
pub mod pattern;
pub mod reading;
pub mod rows;
pub mod writing;

#[cfg(test)]
mod tests {
    use crate::pattern::Pattern;
    use std::test::Fail;

    #[test]
    fn a_text_that_just_fits_is_written_back(rt: HostRuntime) -> Result<(), Fail> {
        let pattern = Pattern::read(b".a2b.").map_err(|_| Fail::new("refused"))?;
        let mut memory = [b'-'; 5];
        assert_eq!(rt; pattern.write(&mut memory).ok(), Some(5));
        assert_eq!(rt; memory, *b".a2b.");
        Ok(())
    }

    #[test]
    fn memory_one_byte_short_is_left_alone(rt: HostRuntime) -> Result<(), Fail> {
        let pattern = Pattern::read(b"2bb").map_err(|_| Fail::new("refused"))?;
        let mut memory = [b'-'; 2];
        assert_eq!(rt; pattern.write(&mut memory).ok(), None);
        assert_eq!(rt; memory, *b"--");
        Ok(())
    }

    #[test]
    fn a_symbol_after_an_edge_is_refused_at_its_column(rt: HostRuntime) -> Result<(), Fail> {
        assert_eq!(rt;
            Pattern::read(b"a.b").err().map(|fault| fault.column),
            Some(3)
        );
        Ok(())
    }
}
