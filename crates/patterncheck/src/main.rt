//! Reads pattern texts, one a line, and writes each back as it was read, or its refusal.
#![tactic(auto)]

ghost use Rattle.std.specs.Prelude.{[], ◌∷◌, ◌++◌, OnOk};
ghost use Rattle.std.specs.Io.KnownBytes.{Appends};
ghost use Rattle.text.specs.Written.{Wrote};
ghost use Rattle.patterns.specs.Texts.{reading};
ghost use Rattle.patterncheck.specs.Shown.{shown};

use patterns::pattern::Pattern;
use sheet::writing::{LINE, write_refusal};
use std::io::{Read, Write};
use text::cursor::Lines;
use text::memory::Short;
use text::printing::print_line;
use text::refusal::Refusal;

// The pattern of a text as text again, or the refusal.
fn check(text: &[u8], memory: &mut [u8]) -> Result<usize, Short>
    ensures { Wrote (shown (reading text.now)) memory.old result memory.new }
{
    match Pattern::read(text) {
        Ok(pattern) => pattern.write(memory),
        Err(fault) => write_refusal(Refusal::from(fault), memory),
    }
}

// Writes what is made of a text, and a line feed.
fn show<W: Write>(to: &mut W, text: &[u8]) -> anyhow::Result<()>
    ensures { OnOk result (Appends (W.contents to.old) (W.contents to.new) (shown (reading text.now) ++ 10 ∷ [])) }
{
    let mut line = [0; LINE];
    let n = check(text, &mut line)?;
    print_line(to, &line[..n])?;
    Ok(())
}

fn answer(rt: &HostRuntime) -> anyhow::Result<()> {
    let mut input = Vec::new(rt.alloc());
    rt.stdin().read_to_end(&mut input)?;
    for line in Lines::new(input.as_slice()) {
        show(&mut rt.stdout(), line)?;
    }
    Ok(())
}

fn main(rt: HostRuntime) -> anyhow::Result<()> {
    answer(&rt)
}
