//! What the fault of a book says.
ghost use Rattle.std.specs.Prelude.{◌≡◌};
ghost use Rattle.text.specs.Refusals.{six_of};
ghost use Rattle.books.specs.Faults.{full_refused};

use crate::book::Full;
use text::refusal::{Reason, Refusal};

impl From<Full> for Refusal {
    ghost from_gives = { λ _ r. six_of r ≡ full_refused };

    fn from(_full: Full) -> Refusal {
        Refusal::bare(Reason::FullBook.number())
    }
}
