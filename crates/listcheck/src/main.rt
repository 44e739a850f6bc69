//! Checks a word list of any size: `listcheck left,right FILE`.
#![tactic(auto)]

ghost use Rattle.std.specs.Prelude.{◌≡◌, [], ◌∷◌, ◌++◌, IfOk, OnOk, slice_index};
ghost use Rattle.std.specs.Io.KnownBytes.{Appends};
ghost use Rattle.sheet.specs.Sheets.{figures_in};
ghost use Rattle.sheet.specs.Outcomes.{outcome_line, words_outcome};

use anyhow::Context;
use sheet::reading::check_words;
use sheet::writing::{LINE, write_outcome};
use std::io::Write;
use std::{env, fs};
use text::figures::read_figures;
use text::printing::print_line;
use words::word::Bounds;

// The bounds that an argument names.
fn bounds(argument: &str) -> anyhow::Result<Bounds>
    ensures { IfOk result (λ b. (b.left ≡ slice_index (figures_in 2 argument.now) 0) × (b.right ≡ slice_index (figures_in 2 argument.now) 1)) }
{
    let [left, right] = read_figures::<2>(argument.as_bytes()).context(
        "the bounds are two figures, as 2,3",
    )?;
    Bounds::new(left as usize, right as usize)
        .ok()
        .context("each bound is 1 to 8")
}

// Writes what the check of a word list answers, and a line feed.
fn tell<W: Write>(to: &mut W, words: &[u8], bounds: Bounds) -> anyhow::Result<()>
    ensures { OnOk result (Appends (W.contents to.old) (W.contents to.new) (outcome_line (words_outcome bounds.left bounds.right words.now) ++ 10 ∷ [])) }
{
    let mut line = [0; LINE];
    let n = write_outcome(check_words(words, bounds), &mut line)?;
    print_line(to, &line[..n])?;
    Ok(())
}

fn answer(rt: &HostRuntime) -> anyhow::Result<()> {
    let mut args = env::args(rt)?;
    let _ = args.next();
    let (first, path) = args
        .next()
        .zip(args.next())
        .context("usage: listcheck left,right FILE")?;
    let bounds = bounds(first.as_str())?;
    let text = fs::read(rt, path.as_str())?;
    tell(&mut rt.stdout(), text.as_slice(), bounds)
}

fn main(rt: HostRuntime) -> anyhow::Result<()> {
    answer(&rt)
}
