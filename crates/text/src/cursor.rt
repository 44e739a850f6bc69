//! Where a reader of lines stands.
ghost use Rattle.std.specs.Prelude.{◌+◌, ◌^◌, ◌<◌, length};

/// The lines of a text, one after the other: `rest` is what is still to be read, and `number` counts the lines read.
// Copied by a list that reads on from a copy, and keeps it where that gave a word. No text in memory is longer than 2^63.
#[derive(Clone, Copy)]
pub struct Lines<'a> {
    pub rest: &'a [u8],
    pub number: usize,
    ghost counted: { number + length rest.now < 2 ^ 63 },
}
