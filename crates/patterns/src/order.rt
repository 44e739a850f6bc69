//! Spellings are ordered symbol by symbol by number; where one begins another, the shorter comes first.
ghost use Rattle.std.specs.Prelude.{◌≡◌, Some};
ghost use Rattle.std.specs.Ordering.{is_eq};
ghost use Rattle.patterns.specs.declared.pattern.Spelling.{Spelling};
ghost use Rattle.patterns.specs.Order.{ordering, TotalOrder};
ghost use Rattle.patterns.specs.Views.{symbols_of};

use crate::pattern::Spelling;
use std::cmp::Ordering;

impl Spelling {
    /// The symbols of the spelling, and nothing behind them.
    pub fn symbols(&self) -> &[u8]
        ensures { result.now ≡ symbols_of self.now }
    {
        &self.symbols[..self.len]
    }

    /// How this spelling stands to another in the order. The derived comparisons answer by it too.
    pub fn compare(&self, other: &Spelling) -> Ordering
        ensures value { result ≡ ordering (symbols_of self.now) (symbols_of other.now) }
        ensures total { TotalOrder }
        ensures ordered { (u v : Spelling) → ⟦<Spelling as Ord>⟧.cmp u v ≡ ordering (symbols_of u) (symbols_of v) }
        ensures partly { (u v : Spelling) → ⟦<Spelling as PartialOrd>⟧.partial_cmp u v ≡ Some (ordering (symbols_of u) (symbols_of v)) }
        ensures alike { (u v : Spelling) → ⟦<Spelling as PartialEq>⟧.eq u v ≡ is_eq (ordering (symbols_of u) (symbols_of v)) }
    {
        self.cmp(other)
    }
}
