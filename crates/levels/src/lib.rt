//! The settings of a level, and the order of its passes.
#![tactic(auto)]

pub mod checking;
pub mod order;
pub mod settings;

#[cfg(test)]
mod tests {
    use crate::settings::Settings;
    use std::process::Abort;

    // The length and the place of the pass behind the first `done` of a level.
    fn pass(lo: usize, hi: usize, done: usize) -> Option<(usize, usize)> {
        let level = Settings::new(lo, hi, 1, 1, 1).ok()?;
        let stage = level.stage(done)?;
        Some((stage.length, stage.place))
    }

    // A level of one length has its passes at these places, in this order, and no more.
    fn check_places(rt: &impl Abort, length: usize, places: &[usize]) {
        for (done, place) in places.iter().enumerate() {
            assert_eq!(rt; pass(length, length, done), Some((length, *place)));
        }
        assert_eq!(rt; pass(length, length, places.len()), None);
    }

    #[test]
    fn an_even_length_goes_from_its_middle_down_first(rt: HostRuntime) {
        check_places(&rt, 4, &[2, 1, 3, 0, 4]);
    }

    #[test]
    fn an_odd_length_goes_from_below_its_middle_up_first(rt: HostRuntime) {
        check_places(&rt, 5, &[2, 3, 1, 4, 0, 5]);
    }

    #[test]
    fn lengths_follow_one_another(rt: HostRuntime) {
        assert_eq!(rt; pass(1, 3, 0), Some((1, 0)));
        assert_eq!(rt; pass(1, 3, 2), Some((2, 1)));
        assert_eq!(rt; pass(1, 3, 8), Some((3, 3)));
        assert_eq!(rt; pass(1, 3, 9), None);
    }

    #[test]
    fn the_ends_of_every_range_are_taken(rt: HostRuntime) {
        assert!(rt; Settings::new(1, 1, 1, 0, 1).is_ok());
        assert!(rt; Settings::new(15, 15, 1_000, 1_000, 1_000_000).is_ok());
        assert!(rt; Settings::new(1, 15, 1, 1_000, 1).is_ok());
    }

    #[test]
    fn one_beyond_a_range_is_refused(rt: HostRuntime) {
        assert!(rt; Settings::new(0, 1, 1, 0, 1).is_err());
        assert!(rt; Settings::new(3, 2, 1, 0, 1).is_err());
        assert!(rt; Settings::new(1, 16, 1, 0, 1).is_err());
        assert!(rt; Settings::new(1, 1, 0, 0, 1).is_err());
        assert!(rt; Settings::new(1, 1, 1_001, 0, 1).is_err());
        assert!(rt; Settings::new(1, 1, 1, 1_001, 1).is_err());
        assert!(rt; Settings::new(1, 1, 1, 0, 0).is_err());
        assert!(rt; Settings::new(1, 1, 1, 0, 1_000_001).is_err());
    }
}
