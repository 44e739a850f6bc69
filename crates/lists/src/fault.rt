//! Why a word list breaks off.
ghost use Rattle.std.specs.Prelude.{◌≡◌};
ghost use Rattle.text.specs.Refusals.{six_of};
ghost use Rattle.lists.specs.Faults.{list_refused};
ghost use Rattle.lists.specs.declared.fault.ListFault.TheVariants.{Line};

use text::refusal::{Reason, Refusal};
use words::line::LineFault;

/// The one fault in which a word list may end.
#[derive(Clone, Copy, PartialEq, Eq, Debug)]
pub enum ListFault {
    /// A word line that is refused.
    Line(LineFault),
    /// A line that is not empty, or a row, after as many words as a list may have.
    TooMany { line: usize },
    /// A row that makes no word.
    BadRow { row: usize },
}

// By hand, since a derived conversion would not say which case it makes.
impl From<LineFault> for ListFault {
    ghost from_gives = { λ f r. r ≡ Line f };

    fn from(fault: LineFault) -> ListFault {
        ListFault::Line(fault)
    }
}

impl From<ListFault> for Refusal {
    ghost from_gives = { λ f r. six_of r ≡ list_refused f };

    fn from(fault: ListFault) -> Refusal {
        match fault {
            ListFault::Line(fault) => Refusal::from(fault),
            ListFault::TooMany { line } => Refusal::at_byte(Reason::TooManyWords.number(), line, 1),
            ListFault::BadRow { row } => Refusal::at_byte(Reason::BadRow.number(), row, 0),
        }
    }
}
