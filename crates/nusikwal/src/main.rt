//! The program: reads a sheet from standard input, and writes what the run on it answers.
#![tactic(auto)]

ghost use Rattle.std.specs.Prelude.{◌≤◌, [], ◌∷◌, ◌++◌, length, Some, None, if◌then◌else◌, IfOk, OnOk};
ghost use Rattle.std.specs.Io.KnownBytes.{Appends};
ghost use Rattle.sheet.specs.Outcomes.{checked, outcome_line};

use sheet::reading::LARGEST;
use sheet::writing::{LINE, run};
use std::io;
use std::io::{Read, Write};
use text::printing::print_line;

// Fills the buffer from its front, and answers how many bytes came.
fn fill<R: Read>(from: &mut R, buffer: &mut [u8]) -> io::Result<usize>
    ensures { IfOk result (λ n. n ≤ length buffer.new) }
{
    let mut len = 0;
    // A read gives as many bytes as it likes, so that bytes are counted and not turns.
    while len < buffer.len() {
        let n = from.read(&mut buffer[len..])?;
        if n == 0 {
            break;
        }
        len += n;
    }
    Ok(len)
}

// Writes what the run on a sheet answers, and a line feed. `longer` says that more came than the bytes that were kept: it is told
// here, so that the contract has what comes of it.
fn tell<W: Write>(to: &mut W, bytes: &[u8], longer: bool) -> anyhow::Result<()>
    ensures { OnOk result (Appends (W.contents to.old) (W.contents to.new) (outcome_line (checked (if longer then None else Some bytes.now)) ++ 10 ∷ [])) }
{
    let input = if longer { None } else { Some(bytes) };
    let mut line = [0; LINE];
    let n = run(input, &mut line)?;
    print_line(to, &line[..n])?;
    Ok(())
}

fn answer(rt: &HostRuntime) -> anyhow::Result<()> {
    let mut buffer = [0; LARGEST];
    let mut more = [0; 1];
    let mut stdin = rt.stdin();
    let len = fill(&mut stdin, &mut buffer)?;
    let longer = fill(&mut stdin, &mut more)? > 0;
    tell(&mut rt.stdout(), &buffer[..len], longer)
}

fn main(rt: HostRuntime) -> anyhow::Result<()> {
    answer(&rt)
}
