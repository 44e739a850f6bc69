//! Raises pattern texts, one a line, in a tree book and looks each up again, and writes how many spellings are held and the sum of
//! the values found. How long both took goes to the standard error.
#![tactic(auto)]

use books::book::{Full, ReadingBook, WritingBook};
use makes::treebook::TreeBook;
use patterns::pattern::{Pattern, Row};
use std::alloc::Global;
use std::io::Read;
use std::time::Instant;
use text::cursor::Lines;
use tree::cell::{Cell, Link};

fn main(rt: HostRuntime) -> anyhow::Result<()> {
    answer(&rt)
}

fn answer(rt: &HostRuntime) -> anyhow::Result<()> {
    let mut input = Vec::new(rt.alloc());
    rt.stdin().read_to_end(&mut input)?;
    let patterns = read_all(rt.alloc(), input.as_slice())?;
    let link = Link::default();
    let value = Row::none();
    let count = patterns.len().saturating_mul(15).saturating_add(1);
    let mut cells = vec![in rt.alloc(); Cell { link, value }; count]?;
    let mut book = TreeBook::new(cells.as_mut_slice());
    let start = Instant::now(rt)?;
    raise_all(&mut book, patterns.as_slice())?;
    let raised = start.elapsed(rt)?;
    let start = Instant::now(rt)?;
    let sum = look_up_all(&book, patterns.as_slice());
    let found = start.elapsed(rt)?;
    println!(rt; "{},{sum}", book.count())?;
    eprintln!(rt;
        "raised in {} us, looked up in {} us",
        raised.as_micros(),
        found.as_micros()
    )?;
    Ok(())
}

fn read_all(heap: Global, text: &[u8]) -> anyhow::Result<Vec<Pattern>> {
    let mut patterns = Vec::new(heap);
    for line in Lines::new(text) {
        patterns.push(Pattern::read(line)?)?;
    }
    Ok(patterns)
}

fn raise_all<B: WritingBook>(book: &mut B, patterns: &[Pattern]) -> Result<(), Full> {
    for pattern in patterns {
        book.raise(pattern)?;
    }
    Ok(())
}

fn look_up_all<B: ReadingBook>(book: &B, patterns: &[Pattern]) -> u64 {
    let mut sum = 0u64;
    for pattern in patterns {
        let row = book.row(&pattern.spelling);
        for value in row.values {
            sum = sum.wrapping_add(u64::from(value));
        }
    }
    sum
}
