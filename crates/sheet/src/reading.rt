//! Reading a sheet, and checking the word list in it.
ghost use Rattle.std.specs.Prelude.{◌≡◌, ◌≤◌, length, IfOk};
ghost use Rattle.sheet.specs.Sheets.{sheet_of};
ghost use Rattle.sheet.specs.Outcomes.{words_outcome, checked};
ghost use Rattle.sheet.specs.Views.{kept, bytes_in, sheeted, outcome};
ghost use Rattle.sheet.specs.Taken.{Taken};

use crate::fault::{RunFault, SheetFault};
use lists::counting::{ListCounts, count_list};
use lists::textlist::TextList;
use text::cursor::Lines;
use text::figures::read_figures;
use words::word::Bounds;

/// The most bytes of a sheet.
pub const LARGEST: usize = 49_152;

/// A sheet that was read: the bounds, and the byte at which the word lines begin.
// A number and no slice: so the sheet outlives the bytes that it was read from, as its caller may need.
#[derive(Clone, Copy)]
pub struct Sheet {
    pub bounds: Bounds,
    pub words_at: usize,
}

// The next line of a sheet, as `read` takes it. The line is bad where `read` takes nothing, and where it is missing.
fn take<'a, T, F: FnOnce(&[u8]) -> Option<T>>(
    lines: &mut Lines<'a>,
    read: F,
) -> Result<T, SheetFault>
    requires { F.IsAlwaysCallable read }
    ensures { Taken F.FnOnce read lines.old result lines.new }
{
    let bad = SheetFault::BadLine {
        line: lines.number + 1,
    };
    let Some(line) = lines.next() else {
        return Err(bad);
    };
    read(line).ok_or(bad)
}

/// Reads a sheet from the bytes that came, or from nothing, where more came than a sheet can have.
pub fn read_sheet(input: Option<&[u8]>) -> Result<Sheet, SheetFault>
    ensures value { sheeted (kept input.entry) result ≡ sheet_of (kept input.entry) }
    ensures inside { IfOk result (λ s. s.words_at ≤ length (bytes_in (kept input.entry))) }
{
    let Some(input) = input else {
        return Err(SheetFault::TooLong);
    };
    if input.len() > LARGEST {
        return Err(SheetFault::TooLong);
    }
    let mut lines = Lines::new(input);
    let [left, right] = take(&mut lines, read_figures::<2>)?;
    take(&mut lines, |line| line.is_empty().then_some(()))?;
    match Bounds::new(left as usize, right as usize) {
        Ok(bounds) => Ok(Sheet {
            bounds,
            words_at: input.len() - lines.rest.len(),
        }),
        Err(_) => Err(SheetFault::OutOfRange { line: 1 }),
    }
}

/// Checks the word list of a text: how many words it has and how many hyphens within bounds, or its fault.
pub fn check_words(words: &[u8], bounds: Bounds) -> Result<ListCounts, RunFault>
    ensures { outcome result ≡ words_outcome bounds.left bounds.right words.now }
{
    let mut list = TextList::new(words);
    Ok(count_list(&mut list, bounds)?)
}

/// Checks a sheet, and then the word list in it.
pub fn check(input: Option<&[u8]>) -> Result<ListCounts, RunFault>
    ensures { outcome result ≡ checked (kept input.entry) }
{
    let sheet = read_sheet(input)?;
    let from = sheet.words_at;
    // a sheet was read, so that bytes were kept
    check_words(&input.unwrap_or(b"")[from..], sheet.bounds)
}
