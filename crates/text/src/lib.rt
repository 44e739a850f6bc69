//! Texts in lent bytes: their lines, the figures in them, and refusals, which name a line and a column.
#![tactic(auto)]

pub mod cursor;
mod cuts;
pub mod figures;
pub mod lines;
pub mod memory;
pub mod printing;
pub mod refusal;

#[cfg(test)]
mod tests {
    use crate::figures::read_figures;
    use crate::memory::write_line;

    #[test]
    fn a_line_that_just_fits_is_written(rt: HostRuntime) {
        let mut memory = [b'.'; 8];
        assert_eq!(rt; write_line(b"at ", &[7, 120], &mut memory).ok(), Some(8));
        assert_eq!(rt; memory, *b"at 7,120");
    }

    #[test]
    fn memory_one_byte_short_is_left_alone(rt: HostRuntime) {
        let mut memory = [b'.'; 7];
        assert_eq!(rt; write_line(b"at ", &[7, 120], &mut memory).ok(), None);
        assert_eq!(rt; memory, [b'.'; 7]);
    }

    #[test]
    fn figures_are_read(rt: HostRuntime) {
        assert_eq!(rt; read_figures(b"1,2"), Some([1, 2]));
        assert_eq!(rt; read_figures(b"0000007,9999999"), Some([7, 9_999_999]));
    }

    #[test]
    fn other_lines_are_refused(rt: HostRuntime) {
        assert_eq!(rt; read_figures::<1>(b""), None);
        assert_eq!(rt; read_figures::<0>(b""), None);
        assert_eq!(rt; read_figures::<2>(b"1,2,"), None);
        assert_eq!(rt; read_figures::<3>(b"1,,2"), None);
        assert_eq!(rt; read_figures::<2>(b"12345678,1"), None);
    }
}
