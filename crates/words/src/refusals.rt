//! What the faults of words and bounds say.
ghost use Rattle.std.specs.Prelude.{◌≡◌};
ghost use Rattle.text.specs.Refusals.{six_of};
ghost use Rattle.words.specs.Faults.{line_refused, range_refused};

use crate::line::LineFault;
use crate::measure::OutOfRange;
use text::refusal::{Reason, Refusal};

impl From<LineFault> for Refusal {
    ghost from_gives = { λ f r. six_of r ≡ line_refused f };

    fn from(fault: LineFault) -> Refusal {
        match fault {
            LineFault::NoLetter { line, column } => {
                Refusal::at_byte(Reason::NoLetter.number(), line, column)
            }
            LineFault::LooseMark { line, column } => {
                Refusal::at_byte(Reason::LooseMark.number(), line, column)
            }
            LineFault::TooLong { line, column } => {
                Refusal::at_byte(Reason::LongWord.number(), line, column)
            }
        }
    }
}

impl From<OutOfRange> for Refusal {
    ghost from_gives = { λ _ r. six_of r ≡ range_refused };

    fn from(_fault: OutOfRange) -> Refusal {
        Refusal::bare(Reason::OutOfRange.number())
    }
}
