//! Tries books on cases, one a line: a limit, bounds, a word line and pattern texts, as `3 1,(1 abba).a2 1b 2bb`. It raises the
//! patterns in a book of that limit, and writes the patterns that the book then holds, in order, the values of the word's
//! positions, and how many of them are found, wrong and missed; or the refusal of the first raise that is refused. Each case is
//! tried on a table and on a tree, which must answer alike.
#![tactic(auto)]

ghost use Rattle.std.specs.Prelude.{◌≡◌, ◌≤◌, [], ◌∷◌, ◌++◌, string_bytes, OnOk, IfOk};
ghost use Rattle.words.specs.Line.{reading, spells};
ghost use Rattle.words.specs.Views.{headword};
ghost use Rattle.text.specs.Refusals.{six_of};
ghost use Rattle.sheet.specs.Outcomes.{refusal_line};
ghost use Rattle.patterns.specs.Texts.{text_of};
ghost use Rattle.patterns.specs.Views.{symbols_of};
ghost use Rattle.bookcheck.specs.declared.TheConstants.{MOST};

use anyhow::{Context, ensure};
use books::book::{ReadingBook, WritingBook};
use kinds::kind::{KindCounts, count_kinds};
use kinds::values::values_of;
use makes::treebook::TreeBook;
use patterns::pattern::{Pattern, Row, Spelling};
use sheet::writing::{LINE, write_refusal};
use std::alloc::Global;
use std::fmt::Write;
use std::io::Read;
use std::iter::successors;
use table::table::Table;
use text::refusal::Refusal;
use tree::cell::{Cell, Link};
use words::line::read_line;
use words::word::{Bounds, Word};

/// The most patterns that a case may hold.
const MOST: usize = 8;

/// So many cells hold as many spellings.
const CELLS: usize = 15 * MOST + 1;

/// A case: a book's limit, bounds, a word, and the texts of patterns.
#[derive(Clone, Copy)]
struct Case<'a> {
    limit: usize,
    bounds: Bounds,
    word: Word,
    texts: &'a str,
    ghost few: { limit ≤ MOST },
}

fn main(rt: HostRuntime) -> anyhow::Result<()> {
    answer(&rt)
}

fn answer(rt: &HostRuntime) -> anyhow::Result<()> {
    let mut input = String::new(rt.alloc());
    rt.stdin().read_to_string(&mut input)?;
    for line in input.lines() {
        show_case(rt, line)?;
    }
    Ok(())
}

fn show_case(rt: &HostRuntime, line: &str) -> anyhow::Result<()> {
    let case = Case::try_from(line)?;
    let unused = Pattern::read(b"1a")?;
    let mut rows = [unused; MOST];
    let by_table = case.told_by(rt.alloc(), &mut Table::new(&mut rows[..case.limit]))?;
    let link = Link {
        symbol: 7,
        first: 7,
        next: 7,
    };
    let value = Row::none();
    let mut cells = [Cell { link, value }; CELLS];
    let by_tree = case.told_by(
        rt.alloc(),
        &mut TreeBook::new(&mut cells[..15 * case.limit + 1]),
    )?;
    ensure!(by_table == by_tree, "the table and the tree differ");
    println!(rt; "{by_table}")?;
    Ok(())
}

impl<'a> TryFrom<&'a str> for Case<'a> {
    type Error = anyhow::Error;

    fn try_from(line: &'a str) -> anyhow::Result<Case<'a>> {
        let mut parts = line.splitn(4, ' ');
        let limit = parts.next().context("no limit")?.parse::<usize>()?;
        let bounds = bounds_of(parts.next().context("no bounds")?)?;
        let word = word_of(parts.next().context("no word")?)?;
        let texts = parts.next().context("no patterns")?;
        Ok(Case {
            limit: limit.min(MOST),
            bounds,
            word,
            texts,
        })
    }
}

fn bounds_of(text: &str) -> anyhow::Result<Bounds> {
    let (left, right) = text.split_once(',').context("bounds are two figures")?;
    Bounds::new(left.parse::<usize>()?, right.parse::<usize>()?)
        .ok()
        .context("bounds out of range")
}

fn word_of(text: &str) -> anyhow::Result<Word>
    ensures { IfOk result (λ word. reading 1 text.now ≡ spells (headword word)) }
{
    read_line(1, text.as_bytes())?.context("no word")
}

impl<'a> Case<'a> {
    /// What a book makes of the case.
    fn told_by<B: WritingBook>(&self, heap: Global, book: &mut B) -> anyhow::Result<String> {
        match fill(book, self.texts)? {
            None => self.tell_book(heap, book),
            Some(refusal) => tell_refusal(heap, refusal),
        }
    }

    fn tell_book<B: ReadingBook>(&self, heap: Global, book: &B) -> anyhow::Result<String> {
        let mut told = String::new(heap);
        let held = successors(book.least(), |spelling| book.least_after(spelling));
        for spelling in held.take(book.count()) {
            tell_pattern(&mut told, spelling, book.row(&spelling))?;
        }
        let values = values_of(book, &self.word);
        for position in 1..self.word.len {
            let value = values.at(position);
            let end = if position + 1 < self.word.len {
                ","
            } else {
                " "
            };
            write!(told, "{value}{end}")?;
        }
        let KindCounts {
            found,
            wrong,
            missed,
        } = count_kinds(book, &self.word, self.bounds);
        write!(told, "{found},{wrong},{missed}")?;
        Ok(told)
    }
}

/// Raises the patterns of the texts in their order, up to the first that is refused.
fn fill<B: WritingBook>(book: &mut B, texts: &str) -> anyhow::Result<Option<Refusal>> {
    for text in texts.split(' ') {
        if let Err(full) = book.raise(&Pattern::read(text.as_bytes())?) {
            return Ok(Some(Refusal::from(full)));
        }
    }
    Ok(None)
}

/// Adds the pattern's text and a space.
fn tell_pattern(told: &mut String, spelling: Spelling, row: Row) -> anyhow::Result<()>
    ensures { OnOk result (string_bytes told.new ≡ string_bytes told.old ++ text_of (symbols_of spelling, row.values) ++ 32 ∷ []) }
{
    let mut text = [0; LINE];
    let pattern = Pattern::new(spelling, row).context("a spelling is held without a value")?;
    let n = pattern.write(&mut text)?;
    told.push_str(str::from_utf8(&text[..n])?)?;
    told.push_str(" ")?;
    Ok(())
}

/// The line of a refusal.
fn tell_refusal(heap: Global, refusal: Refusal) -> anyhow::Result<String>
    ensures { IfOk result (λ line. string_bytes line ≡ refusal_line (six_of refusal)) }
{
    let mut text = [0; LINE];
    let n = write_refusal(refusal, &mut text)?;
    Ok(String::from_str(heap, str::from_utf8(&text[..n])?)?)
}
