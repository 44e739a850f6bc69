//! The lines that the program writes, each into lent text memory and without its line feed.
ghost use Rattle.std.specs.Prelude.{◌≡◌};
ghost use Rattle.text.specs.Refusals.{six_of};
ghost use Rattle.text.specs.Written.{Wrote};
ghost use Rattle.sheet.specs.Outcomes.{checked, counts_line, refusal_line, outcome_line};
ghost use Rattle.sheet.specs.Views.{kept, outcome};

use crate::fault::RunFault;
use crate::reading::check;
use lists::counting::ListCounts;
use text::memory::{Short, write_line};
use text::refusal::Refusal;

/// Text memory that is longer than any line written here.
pub const LINE: usize = 192;

/// Writes `words,hyphens`.
pub fn write_counts(counts: ListCounts, memory: &mut [u8]) -> Result<usize, Short>
    ensures { Wrote (counts_line counts.words counts.hyphens) memory.old result memory.new }
{
    write_line(b"", &[counts.words, counts.hyphens], memory)
}

/// Writes `refused,number,line,column,level,length,place`.
pub fn write_refusal(refusal: Refusal, memory: &mut [u8]) -> Result<usize, Short>
    ensures { Wrote (refusal_line (six_of refusal)) memory.old result memory.new }
{
    // Lines are written into lent memory, which may be too short, so that they are no `Display`.
    let six = [
        u64::from(refusal.number),
        refusal.line as u64,
        refusal.column as u64,
        refusal.level as u64,
        refusal.length as u64,
        refusal.place as u64,
    ];
    write_line(b"refused,", &six, memory)
}

/// Writes what a check answered: the counts, or the refusal.
pub fn write_outcome(
    answer: Result<ListCounts, RunFault>,
    memory: &mut [u8],
) -> Result<usize, Short>
    ensures { Wrote (outcome_line (outcome answer)) memory.old result memory.new }
{
    match answer {
        Ok(counts) => write_counts(counts, memory),
        Err(fault) => write_refusal(Refusal::from(fault), memory),
    }
}

/// The whole run on the bytes of a sheet, or on nothing, where more came than a sheet can have: writes the one line that the
/// program answers.
pub fn run(input: Option<&[u8]>, memory: &mut [u8]) -> Result<usize, Short>
    ensures { Wrote (outcome_line (checked (kept input.entry))) memory.old result memory.new }
{
    write_outcome(check(input), memory)
}
