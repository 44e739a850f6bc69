//! Runs many sheets from standard input. Each begins with a line `= what it shows`, and ends before the line feed in
//! front of the next such line, or with the input. Every case is answered by its first line and the run's line.
#![tactic(auto)]

ghost use Rattle.std.specs.Prelude.{◌≡◌, ℕ, ◌<◌, ◌≤◌, [], length, get_or, Decides, OnOk};
ghost use Rattle.std.specs.Io.KnownBytes.{Appends};
ghost use Rattle.text.specs.Lines.{lines_of, behind_line};
ghost use Rattle.cases.specs.Parted.{CaseAt, answer_to};

use sheet::writing::{LINE, run};
use std::io::{Read, Write};
use text::cursor::Lines;
use text::printing::print_line;

// Whether a case begins at `i`: with a `=` behind a line feed.
fn begins_case(text: &[u8], i: usize) -> bool
    requires { i < length text.now }
    ensures { Decides result (CaseAt text.now i) }
{
    i > 0 && text[i] == b'=' && text[i - 1] == b'\n'
}

// Where the next case begins, from `from` on: at a `=` behind a line feed, or else at the end of the text.
fn next_case(text: &[u8], from: usize) -> usize
    requires { from ≤ length text.now }
    ensures inside { (from ≤ result) × (result ≤ length text.now) }
    ensures begins { result < length text.now → CaseAt text.now result }
    ensures first { (k : ℕ) → from ≤ k → k < result → CaseAt text.now k → ⊥ }
{
    (from..text.len())
        .find(|i| begins_case(text, *i))
        .unwrap_or(text.len())
}

// The first line of a case, which says what it shows, and the sheet behind it.
fn parts_of(case: &[u8]) -> (&[u8], &[u8])
    ensures title { result.0.now ≡ get_or (lines_of case.now) 0 [] }
    ensures sheet { result.1.now ≡ behind_line case.now }
{
    let mut lines = Lines::new(case);
    match lines.next() {
        Some(title) => (title, lines.rest),
        None => (case, case),
    }
}

// Writes the first line of a case and what the run on the rest answers.
fn show<W: Write>(to: &mut W, case: &[u8]) -> anyhow::Result<()>
    ensures { OnOk result (Appends (W.contents to.old) (W.contents to.new) (answer_to case.now)) }
{
    let (title, sheet) = parts_of(case);
    let mut line = [0; LINE];
    let n = run(Some(sheet), &mut line)?;
    print_line(to, title)?;
    print_line(to, &line[..n])?;
    Ok(())
}

// Shows the cases one after the other.
fn show_all(rt: &HostRuntime, text: &[u8]) -> anyhow::Result<()> {
    let mut rest = text;
    while !rest.is_empty() {
        let (case, after) = rest.split_at(next_case(rest, 1));
        // the line feed in front of the next case is not in this one
        let feeds = if after.is_empty() { 0 } else { 1 };
        show(&mut rt.stdout(), &case[..case.len() - feeds])?;
        rest = after;
    }
    Ok(())
}

fn answer(rt: &HostRuntime) -> anyhow::Result<()> {
    let mut text = Vec::new(rt.alloc());
    rt.stdin().read_to_end(&mut text)?;
    show_all(rt, text.as_slice())
}

fn main(rt: HostRuntime) -> anyhow::Result<()> {
    answer(&rt)
}
