//! The sheet that the program reads, and the lines that it writes, as calls on bytes.
#![tactic(auto)]

pub mod fault;
pub mod reading;
pub mod writing;

#[cfg(test)]
mod tests {
    use crate::reading::read_sheet;
    use crate::writing::run;
    use std::test::Fail;
    use text::memory::Short;
    use text::refusal::Refusal;

    #[test]
    fn an_answer_that_just_fits_is_written(rt: HostRuntime) {
        let mut memory = [b'.'; 3];
        assert_eq!(rt; run(Some(b"1,1\n\na-b"), &mut memory).ok(), Some(3));
        assert_eq!(rt; memory, *b"1,1");
    }

    #[test]
    fn memory_one_byte_short_is_refused_and_left_alone(rt: HostRuntime) {
        let mut memory = [b'.'; 2];
        assert_eq!(rt; run(Some(b"1,1\n\na-b"), &mut memory).ok(), None);
        assert_eq!(rt; memory, *b"..");
        assert_eq!(rt; Refusal::from(Short), Refusal::bare(15));
    }

    #[test]
    fn an_input_that_was_cut_is_refused(rt: HostRuntime) {
        let mut memory = [b'.'; 24];
        assert_eq!(rt; run(None, &mut memory).ok(), Some(20));
        assert_eq!(rt; memory, *b"refused,16,0,0,0,0,0....");
    }

    #[test]
    fn a_sheet_outlives_the_bytes_that_it_was_read_from(rt: HostRuntime) -> Result<(), Fail> {
        let mut bytes = *b"2,3\n\nta-ble";
        let sheet = read_sheet(Some(&bytes)).ok().ok_or("no sheet")?;
        bytes[0] = b'9';
        assert_eq!(rt; sheet.bounds.left, 2);
        assert_eq!(rt; sheet.words_at, 5);
        assert_eq!(rt; bytes[0], b'9');
        Ok(())
    }
}
