//! The order of the passes of a level.
ghost use Rattle.std.specs.Prelude.{◌≡◌, ◌≤◌, slice_index};
ghost use Rattle.patterns.specs.Spellings.{longest};
ghost use Rattle.levels.specs.Order.{places, OrderOfPasses};
ghost use Rattle.levels.specs.Views.{PassAt};

use crate::settings::{Settings, Stage};

// The place of a length that comes behind `before` others.
fn place_after(length: usize, before: usize) -> usize
    requires sized { (1 ≤ length) × (length ≤ longest) }
    requires within { before ≤ length }
    ensures place { result ≡ slice_index (places length) before }
    ensures inside { result ≤ length }
{
    let middle = length / 2;
    let steps = before.div_ceil(2);
    if before % 2 == length % 2 {
        middle + steps
    } else {
        middle - steps
    }
}

impl Settings {
    /// The pass behind the first `done` of the level, if it has so many.
    pub fn stage(&self, done: usize) -> Option<Stage>
        ensures pass { PassAt self.now.lo self.now.hi done result }
        ensures order { OrderOfPasses }
    {
        // As a chain of `flat_map`, `map` and `nth` it gets no proof that each place may be asked for.
        let mut before = done;
        for length in self.lo..=self.hi {
            if before <= length {
                return Some(Stage {
                    length,
                    place: place_after(length, before),
                });
            }
            before -= length + 1;
        }
        None
    }
}
