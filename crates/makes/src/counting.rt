//! Counts as values of a spelling tree.
ghost use Rattle.makes.specs.CountsKind.{counts_kind};

use crate::counts::Counts;
use tree::joining::Joining;

impl Joining for Counts {
    ghost kind = { counts_kind };

    fn nothing() -> Counts {
        Counts { good: 0, bad: 0 }
    }

    fn join(self, other: Counts) -> Counts {
        Counts {
            good: self.good.saturating_add(other.good),
            bad: self.bad.saturating_add(other.bad),
        }
    }

    fn is_nothing(self) -> bool {
        self.good == 0 && self.bad == 0
    }
}
