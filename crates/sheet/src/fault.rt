//! Why a sheet, or the run on it, is refused.
ghost use Rattle.std.specs.Prelude.{◌≡◌};
ghost use Rattle.text.specs.Refusals.{six_of};
ghost use Rattle.sheet.specs.Faults.{sheet_refused, run_refused};
ghost use Rattle.sheet.specs.declared.fault.RunFault.TheVariants.{Sheet, List};

use lists::fault::ListFault;
use text::refusal::{Reason, Refusal};

#[derive(Clone, Copy, PartialEq, Eq, Debug)]
pub enum SheetFault {
    /// The input is longer than a sheet can be.
    TooLong,
    /// A line of the sheet is wrong or missing.
    BadLine { line: usize },
    /// A value in this line is out of range.
    OutOfRange { line: usize },
}

/// What ends a run: the sheet's fault, or that of its word list.
#[derive(Clone, Copy, PartialEq, Eq, Debug)]
pub enum RunFault {
    Sheet(SheetFault),
    List(ListFault),
}

// Both by hand, since a derived conversion would not say which case it makes.
impl From<SheetFault> for RunFault {
    ghost from_gives = { λ f r. r ≡ Sheet f };

    fn from(fault: SheetFault) -> RunFault {
        RunFault::Sheet(fault)
    }
}

impl From<ListFault> for RunFault {
    ghost from_gives = { λ f r. r ≡ List f };

    fn from(fault: ListFault) -> RunFault {
        RunFault::List(fault)
    }
}

impl From<SheetFault> for Refusal {
    ghost from_gives = { λ f r. six_of r ≡ sheet_refused f };

    fn from(fault: SheetFault) -> Refusal {
        match fault {
            SheetFault::TooLong => Refusal::bare(Reason::BadSheet.number()),
            SheetFault::BadLine { line } => Refusal::at_byte(Reason::BadSheet.number(), line, 0),
            SheetFault::OutOfRange { line } => Refusal::at_byte(
                Reason::OutOfRange.number(),
                line,
                0,
            ),
        }
    }
}

impl From<RunFault> for Refusal {
    ghost from_gives = { λ f r. six_of r ≡ run_refused f };

    fn from(fault: RunFault) -> Refusal {
        match fault {
            RunFault::Sheet(fault) => Refusal::from(fault),
            RunFault::List(fault) => Refusal::from(fault),
        }
    }
}
