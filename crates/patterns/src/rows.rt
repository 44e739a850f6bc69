//! Rows joined: the greater value at each place.
ghost use Rattle.std.specs.Prelude.{◌≡◌};
ghost use Rattle.patterns.specs.Spellings.{no_values, greater};

use crate::pattern::{PLACES, Row};

impl Row {
    /// The row that gives no place a value.
    pub fn none() -> Row
        ensures { result.values ≡ no_values }
    {
        Row {
            values: [0; PLACES],
        }
    }

    /// At each place the greater of the two values.
    pub fn greater(&self, other: &Row) -> Row
        ensures { result.values ≡ greater self.now.values other.now.values }
    {
        let mut values = self.values;
        // Once a `zip` of the values is over, only their number is known.
        for (k, value) in values.iter_mut().enumerate() {
            *value = (*value).max(other.values[k]);
        }
        Row { values }
    }
}
