//! Writing a pattern as text.
ghost use Rattle.std.specs.Prelude.{◌≡◌, ◌+◌, ◌≤◌, length};
ghost use Rattle.text.specs.Written.{Wrote};
ghost use Rattle.words.specs.Words.{alphabet};
ghost use Rattle.patterns.specs.Spellings.{highest};
ghost use Rattle.patterns.specs.Texts.{digit, byte_of, with_digit, text_of, reading, spells};
ghost use Rattle.patterns.specs.Promises.{RoundTrips};
ghost use Rattle.patterns.specs.Views.{spelled};

use crate::pattern::Pattern;
use text::memory::Short;

fn symbol_byte(symbol: u8) -> u8
    requires { symbol ≤ alphabet }
    ensures { result ≡ byte_of symbol }
{
    if symbol > 0 { b'a' - 1 + symbol } else { b'.' }
}

// Writes a value above 0 at `at`, and answers where the text goes on.
// The place is a number, since a value of 0 takes no byte: no iterator over the lent bytes says that more plainly.
fn put_digit(memory: &mut [u8], at: usize, value: u8) -> usize
    requires { (value ≤ highest) × (at + length (digit value) ≤ length memory.old) }
    ensures place { result ≡ at + length (digit value) }
    ensures left { memory.new ≡ with_digit memory.old at value }
{
    if value > 0 {
        memory[at] = b'0' + value;
        at + 1
    } else {
        at
    }
}

impl Pattern {
    /// The length of the pattern's text.
    pub fn text_len(&self) -> usize
        ensures { result ≡ length (text_of (spelled self.now)) }
    {
        let mut n = self.spelling.len;
        // By `filter` and `count` it takes up to four times as long.
        for value in &self.row.values[..=self.spelling.len] {
            n += usize::from(*value > 0);
        }
        n
    }

    /// Writes the pattern's text into lent memory, and answers its length.
    pub fn write(&self, memory: &mut [u8]) -> Result<usize, Short>
        ensures wrote { Wrote (text_of (spelled self.now)) memory.old result memory.new }
        ensures back { reading (text_of (spelled self.now)) ≡ spells (spelled self.now) }
        ensures trips { RoundTrips }
    {
        let n = self.text_len();
        if memory.len() < n {
            return Err(Short);
        }
        let mut at = put_digit(memory, 0, self.row.values[0]);
        for (symbol, value) in self.spelling.symbols().iter().zip(&self.row.values[1..]) {
            memory[at] = symbol_byte(*symbol);
            at = put_digit(memory, at + 1, *value);
        }
        Ok(n)
    }
}
